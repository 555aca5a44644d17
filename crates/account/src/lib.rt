//! The account of a run, what the ends reply, and the promise of every run.
#![tactic(auto)]

mod theorems;

pub use theorems::{
    ends_follow, every_run, figures_stand, first_no_decides, new_ends_start, outcomes_split,
    refusals_change_nothing, runs_in_sequence, sealed_frames_originate,
};
