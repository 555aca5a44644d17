//! Frames under a key: a payload is sealed, a frame is opened. All work on bytes and buffers is here; which key governs, and
//! which slots are spent, is the ends' to know.
#![tactic(auto)]

mod opening;
mod reading;
mod refusals;
mod sealing;
mod tags;

pub use opening::{Opened, open_frame};
pub use refusals::{OpenRefusal, SealRefusal};
pub use sealing::seal_frame;
pub use tags::LONGEST_PAYLOAD;
