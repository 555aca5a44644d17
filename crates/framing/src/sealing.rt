//! Sealing a payload under a key.
ghost use Rattle.std.specs.Prelude.{◌≡◌, ◌+◌, ◌*◌, ◌^◌, ◌≤◌, ◌++◌, length};
ghost use Rattle.account.specs.Calls.{word};
ghost use Rattle.account.specs.Sealing.{frame_under};
ghost use Rattle.bits.specs.Bytes.{bytes_of};
ghost use Rattle.frames.specs.Frames.{spare, tag_size};
ghost use Rattle.framing.specs.Asked.{Answers, payload_questions, put_in_front};
ghost use Rattle.framing.specs.Refusals.{seal_refusal};

use crate::refusals::SealRefusal;
use crate::tags::{LONGEST_PAYLOAD, Tag, TagWidth};
use family::Family;
use pads::PadSource;

// Writes a frame: the payload, and the tag directly behind it.
fn write_frame(payload: &[u8], tag: Tag, out: &mut [u8])
    requires { length payload.now + tag_size tag.width.bits ≤ length out.old }
    ensures { out.new ≡ put_in_front (payload.now ++ bytes_of (tag_size tag.width.bits) (tag.number * 2 ^ spare tag.width.bits)) out.old }
{
    let len = payload.len();
    out[..len].copy_from_slice(payload);
    tag.write(&mut out[len..]);
}

// Seals a payload for a slot at a door: writes its frame at the front of `out` and tells the frame's length. Whether the slot
// was sealed before is the end's to ask. Key, door and slot stay arguments of their own: only the two public calls, whose form
// stays, and `Tag::of` take them, and a struct of the three would be made anew at each call.
#[tactic(auto, unfolding(crate::specs::Asked::payload_questions))]
pub fn seal_frame<F: Family, P: PadSource>(
    key: &F,
    door: u32,
    slot: u32,
    payload: &[u8],
    out: &mut [u8],
    pads: &P,
) -> Result<usize, SealRefusal>
    ensures { Answers seal_refusal (payload_questions (F.meaning key.now) slot payload.now out.old (P.words pads.now)) result
        (λ size. (size ≡ length (frame_under (F.meaning key.now) (word (P.words pads.now slot)) door slot payload.now))
        × (out.new ≡ put_in_front (frame_under (F.meaning key.now) (word (P.words pads.now slot)) door slot payload.now) out.old))
        (out.new ≡ out.old) }
{
    let len = payload.len();
    if len == 0 || len > LONGEST_PAYLOAD {
        return Err(SealRefusal::PayloadLength);
    }
    let size = len + TagWidth::of(key).bytes();
    if out.len() < size {
        return Err(SealRefusal::NoRoom);
    }
    let word = pads.word(slot)?;
    let tag = Tag::of(key, door, slot, payload, word)?;
    write_frame(payload, tag, out);
    Ok(size)
}
