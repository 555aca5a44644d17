//! The line file: a key, a pad book and frames, as a reader's line was recorded. The whole file is checked, and its first fault
//! told with its place. Nothing is allocated: frames stay where they stand in the file.
#![tactic(auto)]

mod faults;
mod frames;
mod key;
mod left;
mod pads;
mod sections;
mod whole;

pub use faults::{FileFault, Flaw};
pub use frames::{Frame, FrameList, MOST_FRAMES};
pub use key::{KeyFamily, KeyRecord, Kind};
pub use pads::{MOST_PADS, PadWords};
pub use whole::{LineFile, parse};
