//! The two ends of a line. The reader's end seals payloads into frames, the door's end opens them. Each holds its keys, its
//! door's number and the last slot that it has done.
#![tactic(auto)]

mod door;
mod end;
mod keys;
mod reader;
mod refusals;
mod theorems;

pub use door::{Door, DoorEnd};
pub use end::End;
pub use framing::{OpenRefusal, Opened, SealRefusal};
pub use keys::{NEEDED_REACH, NEEDED_WIDTH};
pub use reader::{Reader, ReaderEnd};
pub use refusals::{ChangeRefusal, DoorRefusal, KeyRefusal};
pub use theorems::reaching_lasts;
