//! Opening a frame under a key.
ghost use Rattle.std.specs.Prelude.{◌≡◌, ◌≤◌, length};
ghost use Rattle.account.specs.Calls.{word};
ghost use Rattle.account.specs.Opening.{payload_under, place_under};
ghost use Rattle.framing.specs.Asked.{Answers, frame_questions, put_in_front, turned_over};
ghost use Rattle.framing.specs.Refusals.{open_refusal};

use crate::reading::Arrived;
use crate::refusals::OpenRefusal;
use crate::tags::{Tag, TagWidth};
use bits::flip_bit;
use family::Family;
use pads::PadSource;

// What was opened: how many bytes the payload has, and the place in payload and tag whose bit was changed on the way, if one was.
// The buffer is the caller's, so that its front's length is told and not a slice.
#[derive(Clone, Copy, Debug, PartialEq, Eq)]
pub struct Opened {
    pub len: usize,
    pub mended: Option<usize>,
}

// Writes a payload, with the bit at `mended` turned over where it is one of the payload's. (Here, where a frame, a tag and a report
// are written, one `copy_from_slice` at the front of a buffer is plainer than a call that they would share.)
fn write_payload(payload: &[u8], mended: Option<usize>, out: &mut [u8])
    requires { length payload.now ≤ length out.old }
    ensures { out.new ≡ put_in_front (turned_over payload.now mended) out.old }
{
    let len = payload.len();
    out[..len].copy_from_slice(payload);
    if let Some(place) = mended {
        flip_bit(&mut out[..len], place);
    }
}

// Opens a frame for a slot at a door: writes its payload, mended where that is allowed, at the front of `out`. Whether the slot
// was opened before is the end's to ask.
// Key, door and slot stay parameters, as where a frame is sealed; the allowance is a number, since an enum would ask
// more of callers.
#[tactic(auto, unfolding(crate::specs::Asked::frame_questions))]
pub fn open_frame<F: Family, P: PadSource>(
    key: &F,
    door: u32,
    allowance: u8,
    slot: u32,
    frame: &[u8],
    out: &mut [u8],
    pads: &P,
) -> Result<Opened, OpenRefusal>
    ensures { Answers open_refusal (frame_questions (F.meaning key.now) door allowance slot frame.now (length out.old) (P.words pads.now)) result
        (λ o. (o.len ≡ length (payload_under (F.meaning key.now) (word (P.words pads.now slot)) door slot frame.now))
        × (o.mended ≡ place_under (F.meaning key.now) (word (P.words pads.now slot)) door slot frame.now)
        × (out.new ≡ put_in_front (payload_under (F.meaning key.now) (word (P.words pads.now slot)) door slot frame.now) out.old))
        (out.new ≡ out.old) }
{
    let arrived = Arrived::read(TagWidth::of(key), frame, out.len())?;
    let word = pads.word(slot)?;
    let expected = Tag::of(key, door, slot, arrived.payload, word)?;
    let mended = arrived.judge(key, allowance, expected)?;
    write_payload(arrived.payload, mended, out);
    Ok(Opened {
        len: arrived.payload.len(),
        mended,
    })
}
