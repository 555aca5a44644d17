//! Single calls are runs of one.
ghost use Rattle.account.specs.Runs.{InSequence};
ghost use Rattle.runs.specs.Single.{SingleCalls};

// Two creations start a run; a single call at an end, as its contract says it, is a run of one; runs that follow each other
// are a run. So single calls in any order have the promise of `run`.
#[tactic(auto, using(crate::proofs::SingleCalls::single_calls, account::proofs::Sequences::in_sequence))]
pub fn single_calls_run()
    ensures single { SingleCalls }
    ensures joined { InSequence }
{}
