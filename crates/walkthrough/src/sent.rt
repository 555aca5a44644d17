//! A text as it was sent under a key, and what comes of it when bits are changed on the way.
use crate::printing::BitRun;
use arrayvec::ArrayVec;
use bits::flip_bit;
use family::Family;
use mending::{Arrival, Finding, receive};
use std::fmt;
use std::ops::Range;

// A bit of what is sent: one of the text, or one of the tag behind it.
#[derive(Clone, Copy)]
pub(crate) enum Bit {
    Text(usize),
    Tag(u32),
}

impl fmt::Display for Bit {
    fn fmt<W: fmt::Write>(&self, f: &mut fmt::Formatter<W>) -> fmt::Result {
        match self {
            Bit::Text(place) => write!(f, "text bit {place}"),
            Bit::Tag(place) => write!(f, "tag bit {place}"),
        }
    }
}

// What came of a text: at the end it is what was sent, or it is not, or it was refused.
#[derive(Clone, Copy, PartialEq, Eq)]
pub(crate) enum Outcome {
    Right,
    Wrong,
    Refused,
}

// How many changes were tried, and how many of them came out so.
#[derive(Clone, Copy, Default)]
pub(crate) struct Tally {
    pub(crate) changes: usize,
    pub(crate) right: usize,
    pub(crate) refused: usize,
}

impl Tally {
    pub(crate) fn count(&mut self, outcome: Outcome) {
        self.changes = self.changes.saturating_add(1);
        match outcome {
            Outcome::Right => self.right = self.right.saturating_add(1),
            Outcome::Wrong => (),
            Outcome::Refused => self.refused = self.refused.saturating_add(1),
        }
    }
}

// Room for the longest text: nothing here needs a heap.
pub(crate) type Text = ArrayVec<u8, 127>;

// A text of m bits that was sent: its digest under the key, and the pad of its tag.
#[derive(Drop)]
pub(crate) struct Sent<'a, F> {
    key: &'a F,
    text: &'a [u8],
    m: usize,
    pub(crate) digest: u64,
    pub(crate) pad: u64,
}

// What arrived, what it was found to be, and the text as the receiver leaves it.
#[derive(Drop)]
pub(crate) struct Received {
    pub(crate) came: Text,
    pub(crate) tag: u64,
    pub(crate) arrival: Arrival,
    pub(crate) text: Text,
}

impl<'a, F: Family> Sent<'a, F> {
    pub(crate) fn new(
        key: &'a F,
        text: &'a [u8],
        m: usize,
        pad: u64,
    ) -> anyhow::Result<Sent<'a, F>> {
        let digest = key.digest(text, m)?;
        Ok(Sent {
            key,
            text,
            m,
            digest,
            pad,
        })
    }

    pub(crate) fn tag(&self) -> u64 {
        self.digest ^ self.pad
    }

    // How the bits of a text of this length are printed.
    pub(crate) fn shown<'b>(&self, text: &'b [u8]) -> BitRun<'b> {
        BitRun {
            bytes: text,
            count: self.m,
        }
    }

    // The column of a place is the digest of the text that has its only one there.
    fn column(&self, place: usize) -> anyhow::Result<u64> {
        let mut single = [0u8; 127];
        flip_bit(&mut single, place);
        Ok(self.key.digest(&single, self.m)?)
    }

    pub(crate) fn show_columns(&self, rt: &impl Print) -> anyhow::Result<()> {
        print!(rt; "  columns:")?;
        for place in 0..self.m {
            print!(rt; " {}", self.column(place)?)?;
        }
        println!(rt; "")?;
        Ok(())
    }

    // The weight of a place of the tag. A place past the end weighs nothing.
    fn weight(&self, place: u32) -> u64 {
        let last = self.key.width().checked_sub(1);
        let behind = last.and_then(|last| last.checked_sub(place));
        behind
            .and_then(|behind| 1u64.checked_shl(behind))
            .unwrap_or(0)
    }

    // The text and the tag arrive, with these bits changed on the way.
    pub(crate) fn receive(&self, changed: &[Bit]) -> anyhow::Result<Received> {
        let mut came = Text::new();
        came.try_extend_from_slice(self.text)?;
        let mut tag = self.tag();
        for bit in changed {
            match bit {
                Bit::Text(place) => flip_bit(came.as_mut_slice(), *place),
                Bit::Tag(place) => tag ^= self.weight(*place),
            }
        }
        let mut text = came.clone()?;
        let arrival = receive(self.key, text.as_mut_slice(), self.m, tag, self.pad)?;
        Ok(Received {
            came,
            tag,
            arrival,
            text,
        })
    }

    pub(crate) fn outcome(&self, received: &Received) -> Outcome {
        match received.arrival.finding {
            Finding::Unknown => Outcome::Refused,
            _ if received.text.as_slice() == self.text => Outcome::Right,
            _ => Outcome::Wrong,
        }
    }

    // All bits are counted in turn: those of the text, and then those of the tag.
    pub(crate) fn text_bits(&self) -> Range<usize> {
        0..self.m
    }

    pub(crate) fn tag_bits(&self) -> Range<usize> {
        self.m..self.bits().end
    }

    pub(crate) fn bits(&self) -> Range<usize> {
        0..self.m.saturating_add(self.key.width() as usize)
    }

    // The bit that is counted so.
    pub(crate) fn bit(&self, index: usize) -> Bit {
        match index.checked_sub(self.m) {
            None => Bit::Text(index),
            Some(place) => Bit::Tag(u32::try_from(place).unwrap_or(u32::MAX)),
        }
    }

    // Changes each of these bits alone.
    pub(crate) fn singles(&self, bits: Range<usize>) -> anyhow::Result<Tally> {
        let mut tally = Tally::default();
        for index in bits {
            let received = self.receive(&[self.bit(index)])?;
            tally.count(self.outcome(&received));
        }
        Ok(tally)
    }

    // Changes two bits at a time, in each way that there is.
    pub(crate) fn pairs(&self) -> anyhow::Result<Tally> {
        let mut tally = Tally::default();
        for second in self.bits() {
            for first in 0..second {
                let received = self.receive(&[self.bit(first), self.bit(second)])?;
                tally.count(self.outcome(&received));
            }
        }
        Ok(tally)
    }
}
