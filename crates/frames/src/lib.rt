//! A frame of a key: its layout, its syndrome, and what changed bits do.
#![tactic(auto)]

mod theorems;

pub use theorems::{frames_show, pads_are_pads};
