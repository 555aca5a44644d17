//! The whole file: its sections in order, and nothing behind them.
ghost use Rattle.linefile.specs.File.{decode};
ghost use Rattle.linefile.specs.Layout.{Bad, Good};
ghost use Rattle.linefile.specs.Parsed.{contents_of};
ghost use Rattle.std.specs.Prelude.{◌≡◌, MatchResult};

use crate::faults::{FileFault, Flaw};
use crate::frames::FrameList;
use crate::key::{KeyRecord, key_section};
use crate::left::Left;
use crate::pads::PadWords;

// What a file has: a key with its door, a pad book, and frames in the order in which they came.
#[derive(Clone, Copy)]
pub struct LineFile<'a> {
    pub key: KeyRecord,
    pub pads: PadWords,
    pub frames: FrameList<'a>,
}

// Reads a whole file, or tells its first fault.
pub fn parse<'a>(file: &'a [u8]) -> Result<LineFile<'a>, FileFault>
    ensures { MatchResult result (λ f. decode file.now ≡ Good (contents_of f)) (λ e. decode file.now ≡ Bad e.flaw e.place) }
{
    let mut left = Left { at: 0, bytes: file };
    let key = key_section(&mut left)?;
    let mut pads = PadWords::none();
    pads.fill(&mut left)?;
    let frames = FrameList::read(&mut left)?;
    if !left.ends() {
        return Err(Flaw::Trailing.at(left.at));
    }
    Ok(LineFile { key, pads, frames })
}
