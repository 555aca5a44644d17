//! Theorems on the ends. Each stands on a function's contract, so that its proof is asked for.
ghost use Rattle.ends.specs.Reaching.{ReachingLasts};

// The keys of every created end reach every text, and go on doing so: such an end never answers `OutOfReach`.
#[tactic(auto, using(crate::proofs::Reach::reaching_lasts))]
pub fn reaching_lasts()
    ensures { ReachingLasts }
{}
