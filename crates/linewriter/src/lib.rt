//! The lines of a report, written into a page of fixed size. Nothing here allocates, and a line is written whole or not at all.
#![tactic(auto)]

mod page;
mod theorems;
mod totals;
mod writing;

pub use page::{Full, PAGE_SIZE, Page};
pub use theorems::totals_add_up;
pub use totals::Totals;
