//! ChaCha20 of RFC 8439: the block function, and the RFC's vectors as a theorem.
//!
//! Only the block function is here, since it is all that a pad source needs; nothing is encrypted.
#![tactic(auto)]

mod cipher;
mod vectors;

pub use cipher::block;
pub use vectors::vectors_hold;
