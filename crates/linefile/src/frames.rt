//! The frames of a line file. They stay where they stand in the file: a list of frames is their count and their bytes.
ghost use Rattle.std.specs.Prelude.{◌≤◌};
ghost use Rattle.linefile.specs.File.{most_frames};

use crate::faults::FileFault;
use crate::left::Left;
use crate::sections::{Item, section};

// The most frames that a file may have.
pub const MOST_FRAMES: usize = 200;

// A frame as it was sent, for a slot.
#[derive(Clone, Copy, Default)]
pub struct Frame<'a> {
    pub slot: u32,
    pub bytes: &'a [u8],
}

// Frames in the order in which they came: the first `count` that the bytes hold.
#[derive(Clone, Copy)]
pub struct FrameList<'a> {
    count: usize,
    bytes: &'a [u8],
    ghost few: { count ≤ most_frames },
}

impl<'a> FrameList<'a> {
    ghost use Rattle.std.specs.Prelude.{MatchResult};
    ghost use Rattle.linefile.specs.File.{counted, sent_frame};
    ghost use Rattle.linefile.specs.Parsed.{Fails, Passes, Splits, frames_of};

    // The first frame, and the list of those behind it.
    pub fn split_first(self) -> Option<(Frame<'a>, FrameList<'a>)>
        ensures { Splits result self.entry }
    {
        if self.count == 0 {
            return None;
        }
        let [s0, s1, s2, s3, size, behind @ ..] = self.bytes else {
            return None;
        };
        let size = usize::from(*size).min(behind.len());
        Some((
            Frame {
                slot: u32::from_be_bytes([*s0, *s1, *s2, *s3]),
                bytes: &behind[..size],
            },
            FrameList {
                count: self.count - 1,
                bytes: &behind[size..],
            },
        ))
    }

    // A section of frames. None is kept, since they stay where they stand.
    pub(crate) fn read(left: &mut Left<'a>) -> Result<FrameList<'a>, FileFault>
        ensures { MatchResult result (λ l. Passes (counted most_frames sent_frame) left.old (frames_of l) left.new) (Fails (counted most_frames sent_frame) left.old) }
    {
        let (count, bytes) = section::<Frame<'a>>(left, MOST_FRAMES, &mut [])?;
        Ok(FrameList { count, bytes })
    }
}

impl<'a> Item<'a> for Frame<'a> {
    ghost use Rattle.linefile.specs.File.{SentFrame, sent_frame};
    ghost use Rattle.linefile.specs.Parsed.{sent_of};

    ghost Sense = { SentFrame };

    ghost sense = { sent_of };

    ghost part = { sent_frame };

    fn read(left: &mut Left<'a>) -> Result<Frame<'a>, FileFault> {
        let slot = u32::from_be_bytes(left.take()?);
        let [size] = left.take::<1>()?;
        let bytes = left.take_slice(usize::from(size))?;
        Ok(Frame { slot, bytes })
    }
}
