//! Two key families over one linear feedback shift register: Toeplitz keys and MAC-C keys.
#![tactic(auto)]

mod column;
mod digests;
mod evening;
mod keys;
mod register;

pub use keys::{MacCKey, ToeplitzKey};
