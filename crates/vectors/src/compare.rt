//! Compares the lines of the table, one after the other, and counts.
ghost use Rattle.vectors.specs.Agreement.{agreement, agreement_on};
ghost use Rattle.std.specs.Prelude.{◌≡◌};

use crate::faults::{BadLine, LineFault};
use crate::table;
use crate::table::{Entry, Expected};
use pads::{CipherSource, PadFault, PadSource};
use std::fmt;

// What comparing a line comes to.
#[derive(Clone, Copy)]
enum Verdict {
    BlockAgrees,
    WordAgrees,
    Differs,
}

// How many lines agree, how many differ, and the number of the first that differs.
#[derive(Clone, Copy, Default)]
pub(crate) struct Tally {
    blocks: usize,
    words: usize,
    differing: usize,
    first: Option<usize>,
}

impl Tally {
    pub(crate) fn all_agree(&self) -> bool {
        self.differing == 0
    }

    fn count(&mut self, number: usize, verdict: Verdict) {
        match verdict {
            Verdict::BlockAgrees => self.blocks = self.blocks.saturating_add(1),
            Verdict::WordAgrees => self.words = self.words.saturating_add(1),
            Verdict::Differs => {
                self.differing = self.differing.saturating_add(1);
                self.first = self.first.or(Some(number));
            }
        }
    }
}

impl fmt::Display for Tally {
    fn fmt<W: fmt::Write>(&self, f: &mut fmt::Formatter<W>) -> fmt::Result {
        let blocks = self.blocks;
        let words = self.words;
        let differing = self.differing;
        write!(
            f,
            "{blocks} blocks and {words} words agree; lines that differ: {differing}"
        )?;
        match self.first {
            Some(number) => write!(f, ", the first is line {number}"),
            None => Ok(()),
        }
    }
}

// Compares every line that says something; the first that cannot be compared ends it.
pub(crate) fn compare_all(text: &str) -> Result<Tally, BadLine> {
    let mut tally = Tally::default();
    let numbered = (1..).zip(text.lines());
    for (number, line) in numbered.filter(|(_, line)| !table::is_blank(line)) {
        let verdict = compare_line(line).map_err(|fault| BadLine { number, fault })?;
        tally.count(number, verdict);
    }
    Ok(tally)
}

fn compare_line(line: &str) -> Result<Verdict, LineFault> {
    let entry: Entry = line.parse()?;
    if !agrees(&entry)? {
        return Ok(Verdict::Differs);
    }
    match entry.expected {
        Expected::Block(_) => Ok(Verdict::BlockAgrees),
        Expected::Word(_) => Ok(Verdict::WordAgrees),
    }
}

fn agrees(entry: &Entry) -> Result<bool, PadFault>
    ensures { result ≡ agreement_on entry.now.expected entry.now.key entry.now.nonce entry.now.counter }
{
    match entry.expected {
        Expected::Block(expected) => Ok(
            chacha20::block(&entry.key, &entry.nonce, entry.counter) == expected,
        ),
        Expected::Word(expected) => word_agrees(
            &CipherSource::new(entry.key, entry.nonce),
            entry.counter,
            expected,
        ),
    }
}

// Over any source: a fault is handed on as the source answered it.
fn word_agrees<P: PadSource>(source: &P, slot: u32, expected: u64) -> Result<bool, PadFault>
    ensures { result ≡ agreement (P.PadSource.words source.now slot) slot expected }
{
    let word = source.word(slot)?;
    Ok(word == expected)
}
