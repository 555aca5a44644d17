//! Pad sources: where a pad's word comes from, for each slot that a source covers.
//!
//! A source is asked for the word of a slot, and asking changes nothing. It answers with the word, or with the fault
//! that carries the slot it does not cover. Two sources are here: a book of words, and the ChaCha20 key stream.
#![tactic(auto)]

mod book;
mod cipher;
mod pad;
mod source;

pub use book::PadBook;
pub use cipher::CipherSource;
pub use pad::first_bits;
pub use source::{PadFault, PadSource};
