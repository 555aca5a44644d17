//! The pads of a line file: the words of a pad book, from slot 1 on.
ghost use Rattle.std.specs.Prelude.{◌≤◌};
ghost use Rattle.linefile.specs.File.{most_pads};

use crate::faults::FileFault;
use crate::left::Left;
use crate::sections::{Item, section};

// The most words that a file may have.
pub const MOST_PADS: usize = 1024;

// The words of a pad book: the first `count` of `words`.
#[derive(Clone, Copy)]
pub struct PadWords {
    words: [u64; MOST_PADS],
    count: usize,
    ghost few: { count ≤ most_pads },
}

impl PadWords {
    ghost use Rattle.std.specs.Prelude.{◌≡◌, [], length, MatchResult};
    ghost use Rattle.linefile.specs.File.{counted, pad_word};
    ghost use Rattle.linefile.specs.Parsed.{Fails, Passes, words_of};

    pub fn as_slice(&self) -> &[u64]
        ensures value { result.now ≡ words_of self.now }
        ensures fits { length result.now ≤ most_pads }
    {
        &self.words[..self.count]
    }

    // A book without words.
    pub(crate) fn none() -> PadWords
        ensures { words_of result ≡ [] }
    {
        PadWords {
            words: [0; MOST_PADS],
            count: 0,
        }
    }

    // Reads a section of words into this book, in place of those that it had: a book is large, and is not moved on the way.
    pub(crate) fn fill(&mut self, left: &mut Left<'_>) -> Result<(), FileFault>
        ensures { MatchResult result (λ _. Passes (counted most_pads pad_word) left.old (words_of self.new) left.new) (Fails (counted most_pads pad_word) left.old) }
    {
        let (count, _) = section(left, MOST_PADS, &mut self.words)?;
        self.count = count;
        Ok(())
    }
}

impl<'a> Item<'a> for u64 {
    ghost use Rattle.std.specs.Prelude.{ℕ};
    ghost use Rattle.linefile.specs.File.{pad_word};

    ghost Sense = { ℕ };

    ghost sense = { λ word. word };

    ghost part = { pad_word };

    fn read(left: &mut Left<'a>) -> Result<u64, FileFault> {
        Ok(u64::from_be_bytes(left.take()?))
    }
}
