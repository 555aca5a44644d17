//! Bits of bytes, and the columns that they choose.
#![tactic(auto)]

mod bytes;
mod masks;
mod places;
mod units;

pub use bytes::hold_bytes;
pub use masks::under_mask;
pub use places::{flip_bit, read_bit};
pub use units::unit_place;
