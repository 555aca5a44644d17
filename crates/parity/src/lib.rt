//! The parity layer: lengthens every column of a key by the bit that makes its ones odd, so that a key
//! of distance 3 becomes one of distance 4.
#![tactic(auto)]

mod layer;
mod ones;

pub use layer::{Parity, TooWide};
