//! Laws of the line file: how it is written and how it is read fit together. Each stands on a function's contract, so that its
//! proof is asked for.
#![tactic(auto)]

ghost use Rattle.linelaws.specs.Laws.{BytesWritten, CutRefused, NothingElse, ReadBack, TrailingRefused};

// A well-formed file is written in bytes and read back as what it was, and nothing else is read as it.
pub fn files_are_read_back()
    ensures bytes { BytesWritten }
    ensures back { ReadBack }
    ensures alone { NothingElse }
{}

// A well-formed file that is cut short, or that has bytes behind it, is refused as that.
pub fn other_lengths_are_refused()
    ensures cut { CutRefused }
    ensures trailing { TrailingRefused }
{}
