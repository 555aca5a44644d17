//! Tags: how they are made of a text, written and read.
ghost use Rattle.std.specs.Prelude.{◌≡◌, ◌≢◌, ◌+◌, ◌*◌, ◌^◌, ◌<◌, ◌≤◌, ◌++◌, length, drop, take, MatchOption, MatchResult};
ghost use Rattle.bits.specs.Bits.{bits, weight};
ghost use Rattle.bits.specs.Bytes.{bytes_of};
ghost use Rattle.bits.specs.Columns.{picked, units};
ghost use Rattle.frames.specs.Frames.{pad_of, spare, tag_of, tag_size, text_size};
ghost use Rattle.frames.specs.Limits.{longest_payload};
ghost use Rattle.framing.specs.Asked.{put_in_front};
ghost use Rattle.pads.specs.Sources.{first_eight};

use arrayvec::ArrayVec;
use bits::hold_bytes;
use family::{Family, OutOfReach};
use pads::first_bits;

// The most bytes of a payload.
pub const LONGEST_PAYLOAD: usize = 119;

// The bound word, which stands before the payload in every text: the door's number and the slot.
pub(crate) const BOUND_BITS: usize = 64;

// How many bits a tag has.
#[derive(Clone, Copy)]
pub(crate) struct TagWidth {
    pub bits: u32,
    pub ghost some: { 0 < bits },
    pub ghost narrow: { bits ≤ 64 },
}

impl TagWidth {
    // That of a key's tags.
    pub(crate) fn of<F: Family>(key: &F) -> TagWidth
        ensures { result.bits ≡ (F.meaning key.now).width }
    {
        TagWidth { bits: key.width() }
    }

    // How many bytes the tag takes.
    #[tactic(auto, unfolding(frames::specs::Frames::tag_size))]
    pub(crate) fn bytes(&self) -> usize
        ensures sized { result ≡ tag_size self.now.bits }
        ensures small { result ≤ 8 }
    {
        self.bits.div_ceil(8) as usize
    }
}

// A tag: a number of so many bits.
#[derive(Clone, Copy)]
pub(crate) struct Tag {
    pub width: TagWidth,
    pub number: u64,
    pub ghost fits: { number < 2 ^ width.bits },
}

impl Tag {
    // The tag of a payload at a door and a slot, under a pad word.
    pub(crate) fn of<F: Family>(
        key: &F,
        door: u32,
        slot: u32,
        payload: &[u8],
        word: u64,
    ) -> Result<Tag, OutOfReach>
        requires { length payload.now ≤ longest_payload }
        ensures { MatchResult result
            (λ t. (text_size (length payload.now) ≤ (F.meaning key.now).reach)
            × (t.width.bits ≡ (F.meaning key.now).width)
            × (t.number ≡ tag_of ((F.meaning key.now).columns (text_size (length payload.now))) (pad_of (F.meaning key.now).width word) door slot payload.now))
            (λ _. (text_size (length payload.now) ≤ (F.meaning key.now).reach → ⊥)) }
    {
        let text = text(door, slot, payload);
        let digest = key.digest(text.as_slice(), BOUND_BITS + 8 * payload.len())?;
        let width = TagWidth::of(key);
        Ok(Tag {
            width,
            number: digest ^ first_bits(word, width.bits),
        })
    }

    // Writes it at the front of `out`.
    pub(crate) fn write(&self, out: &mut [u8])
        requires { tag_size self.now.width.bits ≤ length out.old }
        ensures { out.new ≡ put_in_front (bytes_of (tag_size self.now.width.bits) (self.now.number * 2 ^ spare self.now.width.bits)) out.old }
    {
        let bytes = (self.number << (64 - self.width.bits)).to_be_bytes();
        let size = self.width.bytes();
        out[..size].copy_from_slice(&bytes[..size]);
    }

    // The tag that these bytes are, if no bit behind it is a one.
    #[tactic(auto, unfolding(frames::specs::Frames::tag_size))]
    pub(crate) fn read(width: TagWidth, bytes: &[u8]) -> Option<Tag>
        requires { length bytes.now ≡ tag_size width.bits }
        ensures { MatchOption result (weight (drop width.bits (bits bytes.now)) ≢ 0)
            (λ t. (weight (drop width.bits (bits bytes.now)) ≡ 0) × (t.number ≡ picked (take width.bits (bits bytes.now)) (units width.bits))) }
    {
        hold_bytes(bytes);
        let word = word_of(bytes);
        if word % (1u64 << (64 - width.bits)) != 0 {
            return None;
        }
        Some(Tag {
            width,
            number: word >> (64 - width.bits),
        })
    }
}

// Bytes as the first of eight.
fn word_of(bytes: &[u8]) -> u64
    requires { length bytes.now ≤ 8 }
    ensures { result ≡ first_eight bytes.now }
{
    let mut eight = [0u8; 8];
    let len = bytes.len();
    eight[..len].copy_from_slice(bytes);
    u64::from_be_bytes(eight)
}

// The text of a payload: the bound word, then the payload. There is room for the longest.
#[tactic(auto, using(crate::proofs::Texts::four_bytes))]
fn text(door: u32, slot: u32, payload: &[u8]) -> ArrayVec<u8, 127>
    requires { length payload.now ≤ longest_payload }
    ensures items { result.items ≡ bytes_of 4 door ++ (bytes_of 4 slot ++ payload.now) }
    ensures sized { length result.items ≡ 8 + length payload.now }
{
    let mut text = ArrayVec::new();
    text.try_extend_from_slice(&door.to_be_bytes()).unwrap();
    text.try_extend_from_slice(&slot.to_be_bytes()).unwrap();
    text.try_extend_from_slice(payload).unwrap();
    text
}
