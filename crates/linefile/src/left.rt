//! What is left of a file, and the bytes that are taken from its front.
ghost use Rattle.std.specs.Prelude.{◌+◌, ◌^◌, ◌<◌, length};

use crate::faults::{FileFault, Flaw};

// What is left of a file, and the place of its first byte. The place behind the file is a number of 64 bits.
#[derive(Drop)]
pub(crate) struct Left<'a> {
    pub(crate) at: usize,
    pub(crate) bytes: &'a [u8],
    ghost placed: { at + length bytes.now < 2 ^ 64 },
}

impl<'a> Left<'a> {
    ghost use Rattle.linefile.specs.Parsed.{RunsOut, Takes};
    ghost use Rattle.std.specs.Prelude.{◌≡◌, ◌==◌, MatchResult};

    // Whether the file ends here.
    pub(crate) fn ends(&self) -> bool
        ensures { result ≡ (length self.now.bytes.now == 0) }
    {
        self.bytes.is_empty()
    }

    // A field of so many bytes, where it stands in the file.
    pub(crate) fn take_slice(&mut self, size: usize) -> Result<&'a [u8], FileFault>
        ensures { MatchResult result (λ field. Takes size self.old field.now self.new) (RunsOut size self.old) }
    {
        let Some((field, rest)) = self.bytes.split_at_checked(size) else {
            return Err(Flaw::CutShort.at(self.at));
        };
        *self = Left {
            at: self.at + size,
            bytes: rest,
        };
        Ok(field)
    }

    // A field of N bytes.
    pub(crate) fn take<const N: usize>(&mut self) -> Result<[u8; N], FileFault>
        ensures { MatchResult result (λ field. Takes N self.old field self.new) (RunsOut N self.old) }
    {
        let mut field = [0; N];
        field.copy_from_slice(self.take_slice(N)?);
        Ok(field)
    }
}
