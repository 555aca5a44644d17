//! Reading a frame that arrives: its parts, and what its syndrome leads to.
ghost use Rattle.std.specs.Prelude.{◌≡◌, ◌≤◌, bit_xor, length};
ghost use Rattle.account.specs.Opening.{judge_questions, read_questions};
ghost use Rattle.bits.specs.Columns.{picked, units};
ghost use Rattle.frames.specs.Findings.{finding, told_place};
ghost use Rattle.frames.specs.Frames.{payload_of, tag_bits, text_size};
ghost use Rattle.frames.specs.Limits.{longest_payload};
ghost use Rattle.framing.specs.Asked.{Answers};
ghost use Rattle.framing.specs.Refusals.{open_refusal};

use crate::refusals::OpenRefusal;
use crate::tags::{BOUND_BITS, LONGEST_PAYLOAD, Tag, TagWidth};
use bits::unit_place;
use family::Family;

// A frame taken apart: its payload and its tag.
#[derive(Clone, Copy)]
pub(crate) struct Arrived<'a> {
    pub payload: &'a [u8],
    pub tag: Tag,
    pub ghost short: { length payload.now ≤ longest_payload },
}

impl<'a> Arrived<'a> {
    // Takes apart a frame whose tag has `width` bits, where there is room for so many bytes.
    pub(crate) fn read(
        width: TagWidth,
        frame: &'a [u8],
        room: usize,
    ) -> Result<Arrived<'a>, OpenRefusal>
        ensures { Answers open_refusal (read_questions width.bits frame.now room) result
            (λ a. (a.payload.now ≡ payload_of width.bits frame.now) × (a.tag.number ≡ picked (tag_bits width.bits frame.now) (units width.bits)) × (length a.payload.now ≤ room))
            (Unit {0}) }
    {
        let size = width.bytes();
        let all = frame.len();
        if all <= size || all > size + LONGEST_PAYLOAD {
            return Err(OpenRefusal::FrameLength);
        }
        let (payload, behind) = frame.split_at(all - size);
        let tag = Tag::read(width, behind).ok_or(OpenRefusal::SpareBits)?;
        if room < payload.len() {
            return Err(OpenRefusal::NoRoom);
        }
        Ok(Arrived { payload, tag })
    }

    // What its syndrome leads to, where this tag is expected: the place to mend, if any, or a refusal. (The allowance is as
    // `open_frame` is handed it. A match, arm by arm as the questions are asked.)
    pub(crate) fn judge<F: Family>(
        &self,
        key: &F,
        allowance: u8,
        expected: Tag,
    ) -> Result<Option<usize>, OpenRefusal>
        requires { text_size (length self.now.payload.now) ≤ (F.meaning key.now).reach }
        ensures { Answers open_refusal (judge_questions allowance (finding (F.meaning key.now).width ((F.meaning key.now).columns (text_size (length self.now.payload.now))) (bit_xor self.now.tag.number expected.number))) result
            (λ o. o ≡ told_place (finding (F.meaning key.now).width ((F.meaning key.now).columns (text_size (length self.now.payload.now))) (bit_xor self.now.tag.number expected.number)) (length self.now.payload.now))
            (Unit {0}) }
    {
        let syndrome = self.tag.number ^ expected.number;
        if syndrome == 0 {
            return Ok(None);
        }
        if allowance != 1 {
            return Err(OpenRefusal::Changed);
        }
        match key.locate(syndrome, BOUND_BITS + 8 * self.payload.len())? {
            Some(place) if place < BOUND_BITS => Err(OpenRefusal::BoundWord),
            Some(place) => Ok(Some(place - BOUND_BITS)),
            None => match unit_place(syndrome, key.width()) {
                Some(place) => Ok(Some(8 * self.payload.len() + place as usize)),
                None => Err(OpenRefusal::Unknown),
            },
        }
    }
}
