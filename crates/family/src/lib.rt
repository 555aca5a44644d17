//! Key families: what an admitted key means, the law that it keeps, and the calls that every family answers.
#![tactic(auto)]

mod family;
mod lengths;
mod orbit;
mod raw;
mod refusals;

pub use family::Family;
pub use lengths::{check_length, check_text};
pub use orbit::{Orbit, Step};
pub use raw::{LONGEST_REACH, RawKey, Start};
pub use refusals::{AdmissionRefusal, OutOfReach};
