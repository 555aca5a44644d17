//! A pad book: the words of the slots 1, 2, 3 and on, written down.
ghost use Rattle.pads.specs.Sources.{book_words};
ghost use Rattle.std.specs.Prelude.{◌≡◌};

use crate::source::{PadFault, PadSource};

// The words stand elsewhere and are borrowed, so that a book can be as long as its owner likes.
#[derive(Clone, Copy)]
pub struct PadBook<'a> {
    words: &'a [u64],
}

impl<'a> PadBook<'a> {
    // The book whose slot 1 has the first word.
    pub fn new(words: &'a [u64]) -> PadBook<'a>
        ensures { result.words.now ≡ words.now }
    {
        PadBook { words }
    }
}

impl PadSource for PadBook<'_> {
    ghost words = { λ b slot. book_words b.words.now slot };

    // `as`, since std has no `From` from u32 to usize.
    fn word(&self, slot: u32) -> Result<u64, PadFault> {
        slot.checked_sub(1)
            .and_then(|place| self.words.get(place as usize))
            .copied()
            .ok_or(PadFault { slot })
    }
}
