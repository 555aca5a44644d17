//! What a door's end makes of frames.
ghost use Rattle.std.specs.Prelude.{◌≡◌, ◌++◌};
ghost use Rattle.ends.specs.States.{door_state};
ghost use Rattle.linefile.specs.Parsed.{frames_of, sent_of};
ghost use Rattle.linereport.specs.Frames.{answers, frame_reply};
ghost use Rattle.linereport.specs.Report.{frame_lines, summed_up};
ghost use Rattle.linewriter.specs.Pages.{written};
ghost use Rattle.linewriter.specs.Counting.{open_answer, totals_of};

use ends::{DoorEnd, OpenRefusal, Opened};
use family::Family;
use framing::LONGEST_PAYLOAD;
use linefile::{Frame, FrameList};
use linewriter::{Page, Totals};
use pads::PadSource;

// Opens a frame, with room for every payload. The payload itself is not told.
fn open<F: Family + Drop, P: PadSource>(
    door: &mut DoorEnd<F>,
    frame: Frame<'_>,
    pads: &P,
) -> Result<Opened, OpenRefusal>
    ensures answer { open_answer result ≡ (frame_reply (P.words pads.now) (door_state F.meaning door.old) (sent_of frame.entry)).answer }
    ensures after { door_state F.meaning door.new ≡ (frame_reply (P.words pads.now) (door_state F.meaning door.old) (sent_of frame.entry)).after }
{
    let mut payload = [0u8; LONGEST_PAYLOAD];
    door.open(frame.slot, frame.bytes, &mut payload, pads)
}

// Opens frames in order: a line for each, and how many there are of each sort.
pub(crate) fn tell_frames<F: Family + Drop, P: PadSource>(
    door: &mut DoorEnd<F>,
    frames: FrameList<'_>,
    pads: &P,
) -> Page
    ensures { written result ≡ frame_lines (frames_of frames.entry) (answers (P.words pads.now) (door_state F.meaning door.old) (frames_of frames.entry)) ++ summed_up (totals_of (answers (P.words pads.now) (door_state F.meaning door.old) (frames_of frames.entry))) }
{
    let mut page = Page::blank();
    let mut totals = Totals::none();
    let mut left = frames;
    while let Some((frame, rest)) = left.split_first() {
        let answer = open(door, frame, pads);
        page.frame_line(frame.slot, &answer).unwrap();
        totals.count(&answer);
        left = rest;
    }
    page.totals_line(&totals).unwrap();
    page
}
