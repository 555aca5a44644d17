//! Theorems on the totals. Each stands on a function's contract, so that its proof is asked for.
ghost use Rattle.linewriter.specs.Counting.{TotalsAddUp};

// Every frame is counted once: as opened, as mended, or as refused.
#[tactic(auto, using(crate::proofs::Counts::totals_add_up))]
pub fn totals_add_up()
    ensures { TotalsAddUp }
{}
