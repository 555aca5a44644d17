//! Runs: any list of calls at a reader end and a door end, each answered in the entry that asked, with the promise over
//! everything that came before.
#![tactic(auto)]

mod calls;
mod entries;
mod step;
mod theorems;

pub use calls::{Call, Reply};
pub use entries::{Entry, run};
pub use theorems::single_calls_run;
