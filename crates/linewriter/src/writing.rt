//! Writing lines into a page.
#![tactic(auto, using(crate::proofs::Lengths::lines_short))]

ghost use Rattle.std.specs.Prelude.{◌≡◌, ◌+◌, ◌<◌, ◌≤◌, ◌++◌, length, take, OnOk, IsErr};
ghost use Rattle.linewriter.specs.Counting.{open_answer};
ghost use Rattle.linewriter.specs.Lines.{file_line, frame_line, key_line, line_of, totals_line};
ghost use Rattle.linewriter.specs.Pages.{Adds, page_size, written};

use crate::page::{Full, Page};
use crate::totals::Totals;
use framing::{OpenRefusal, Opened};
use itoa::Buffer;

// A size as a number that a line tells. There is no `From` between the two types.
fn of_size(size: usize) -> u64
    ensures { result ≡ size }
{
    size as u64
}

impl Page {
    // The line of a file with a fault: the fault's number and its place.
    pub fn file_line(&mut self, number: u32, place: usize) -> Result<(), Full>
        ensures adds { Adds result (file_line number place) self.old self.new }
        ensures short { length (file_line number place) ≤ 60 }
    {
        self.write_line(&[
            ("file refused ", u64::from(number)),
            (" at ", of_size(place)),
        ])
    }

    // The line of a key that is refused, with the refusal's number.
    pub fn key_line(&mut self, number: u32) -> Result<(), Full>
        ensures adds { Adds result (key_line number) self.old self.new }
        ensures short { length (key_line number) ≤ 40 }
    {
        self.write_line(&[("key refused ", u64::from(number))])
    }

    // The line of a frame, by what its open answered.
    pub fn frame_line(
        &mut self,
        slot: u32,
        answer: &Result<Opened, OpenRefusal>,
    ) -> Result<(), Full>
        ensures adds { Adds result (frame_line slot (open_answer answer.now)) self.old self.new }
        ensures short { length (frame_line slot (open_answer answer.now)) ≤ 80 }
    {
        let slot = ("slot ", u64::from(slot));
        match *answer {
            Ok(Opened { len, mended }) => {
                let len = of_size(len);
                match mended {
                    None => self.write_line(&[slot, (" opened ", len)]),
                    Some(place) => {
                        self.write_line(&[slot, (" mended ", len), (" at ", of_size(place))])
                    }
                }
            }
            Err(refusal) => self.write_line(&[slot, (" refused ", u64::from(refusal.number()))]),
        }
    }

    // The last line: how many frames gave each sort of line.
    pub fn totals_line(&mut self, totals: &Totals) -> Result<(), Full>
        ensures adds { Adds result (totals_line totals.now.opened totals.now.mended totals.now.refused) self.old self.new }
        ensures short { length (totals_line totals.now.opened totals.now.mended totals.now.refused) ≤ 90 }
    {
        self.write_line(&[
            ("opened ", of_size(totals.opened)),
            (" mended ", of_size(totals.mended)),
            (" refused ", of_size(totals.refused)),
        ])
    }

    // Writes a line of words with a number behind each, whole or not at all. Not by `write!`: its clause says nothing of what a
    // page holds where it refuses.
    fn write_line(&mut self, parts: &[(&str, u64)]) -> Result<(), Full>
        ensures { Adds result (line_of parts.now) self.old self.new }
    {
        let before = self.bytes.len();
        let result = self.write_parts(parts);
        if result.is_err() {
            self.bytes.truncate(before);
        }
        result
    }

    // Writes such a line as far as the page has room.
    fn write_parts(&mut self, parts: &[(&str, u64)]) -> Result<(), Full>
        ensures wrote { OnOk result (written self.new ≡ written self.old ++ line_of parts.now) }
        ensures full { IsErr result → page_size < length (written self.old) + length (line_of parts.now) }
        ensures kept { take (length (written self.old)) (written self.new) ≡ written self.old }
    {
        let mut figures = Buffer::new();
        for &(words, number) in parts {
            self.append(words.as_bytes())?;
            self.append(figures.format(number).as_bytes())?;
        }
        self.append(b"\n")
    }
}
