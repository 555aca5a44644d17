//! Theorems on reports. Each stands on a function's contract, so that its proof is asked for.
ghost use Rattle.linereport.specs.Laws.{OneReport};

// No file has two reports.
#[tactic(auto, using(crate::proofs::OneReport::one_report))]
pub fn reports_are_one()
    ensures { OneReport }
{}
