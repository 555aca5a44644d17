//! How many frames gave each sort of line.
ghost use Rattle.linewriter.specs.Counting.{counted, open_answer, totals_of};
ghost use Rattle.std.specs.Prelude.{◌≡◌, []};

use framing::{OpenRefusal, Opened};

#[derive(Clone, Copy, Debug, Default, PartialEq, Eq)]
pub struct Totals {
    pub opened: usize,
    pub mended: usize,
    pub refused: usize,
}

impl Totals {
    // The totals of no frames.
    pub fn none() -> Totals
        ensures { result ≡ totals_of [] }
    {
        Totals::default()
    }

    // Counts what an open answered. A total that has reached the largest number stays there.
    pub fn count(&mut self, answer: &Result<Opened, OpenRefusal>)
        ensures { self.new ≡ counted self.old (open_answer answer.now) }
    {
        match answer {
            Ok(opened) => match opened.mended {
                None => self.opened = self.opened.saturating_add(1),
                Some(_) => self.mended = self.mended.saturating_add(1),
            },
            Err(_) => self.refused = self.refused.saturating_add(1),
        }
    }
}
