//! Theorems on the account. Each stands on a function's contract, so that its proof is asked for.
ghost use Rattle.account.specs.Questions.{FirstNoDecides};
ghost use Rattle.account.specs.Account.{RefusalsChangeNothing};
ghost use Rattle.account.specs.Ends.{EndsFollow};
ghost use Rattle.account.specs.Figures.{FiguresStand};
ghost use Rattle.account.specs.Promise.{EveryRun};
ghost use Rattle.account.specs.Runs.{InSequence, Origins, Splits, Starts};

// A refusal is that of the first question answered no.
#[tactic(auto, using(crate::proofs::Asking::first_no_decides))]
pub fn first_no_decides()
    ensures { FirstNoDecides }
{}

// A refused call changes nothing.
#[tactic(auto, using(crate::proofs::Refusing::refusals_change_nothing))]
pub fn refusals_change_nothing()
    ensures { RefusalsChangeNothing }
{}

// Ends that stand as the account says reply as it works out.
pub fn ends_follow()
    ensures { EndsFollow }
{}

// The promise, over every run from two accepted creations.
pub fn every_run()
    ensures { EveryRun }
{}

// What is worked out for a call among others is its outcome at the account of those before it.
#[tactic(auto, using(crate::proofs::Sequences::outcomes_split))]
pub fn outcomes_split()
    ensures { Splits }
{}

// Every sealed frame came from an accepted seal of the run.
#[tactic(auto, using(crate::proofs::Origins::origins))]
pub fn sealed_frames_originate()
    ensures { Origins }
{}

// Ends that were just created stand as the account of no calls says.
pub fn new_ends_start()
    ensures { Starts }
{}

// A single call is a run, and runs that follow each other are a run.
#[tactic(auto, using(crate::proofs::Sequences::in_sequence))]
pub fn runs_in_sequence()
    ensures { InSequence }
{}

// Small runs, worked out call by call.
#[tactic(auto, using(crate::proofs::Figures::figures_stand))]
pub fn figures_stand()
    ensures { FiguresStand }
{}
