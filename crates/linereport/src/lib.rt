//! The report on a line file: its first fault, or why its key is refused, or what a door's end makes of its frames. Nothing is
//! allocated.
#![tactic(auto)]

mod check;
mod keys;
mod opens;
mod theorems;

pub use check::{ReportRefusal, check_line};
pub use theorems::reports_are_one;
