//! What is wrong with a line file.
ghost use Rattle.linefile.specs.File.{file_refusal, flaw_number};
ghost use Rattle.std.specs.Prelude.{◌≡◌};

use thiserror::Error;

// What a field is refused for.
#[derive(Clone, Copy, Debug, PartialEq, Eq, Error)]
pub enum Flaw {
    #[error("the file ends before the field does")]
    CutShort,
    #[error("the count is out of its limits")]
    OutOfLimits,
    #[error("there is no such kind or allowance")]
    Unknown,
    #[error("bytes stand behind the last field")]
    Trailing,
}

impl Flaw {
    pub fn number(&self) -> u32
        ensures { result ≡ flaw_number self.now }
    {
        match self {
            Flaw::CutShort => 51,
            Flaw::OutOfLimits => 52,
            Flaw::Unknown => 53,
            Flaw::Trailing => 54,
        }
    }

    // This flaw, in the field that begins at a place.
    pub(crate) fn at(self, place: usize) -> FileFault
        ensures { result ≡ record { flaw = self; place = place } }
    {
        FileFault { flaw: self, place }
    }
}

// The first fault of a file, with the place of the first byte of the field that has it, counted from 0.
#[derive(Clone, Copy, Debug, PartialEq, Eq, Error)]
#[error("at byte {place}: {flaw}")]
pub struct FileFault {
    pub flaw: Flaw,
    pub place: usize,
}

impl FileFault {
    pub fn number(&self) -> u32
        ensures { result ≡ (file_refusal self.now).number }
    {
        self.flaw.number()
    }
}
