//! The reader's end.
ghost use Rattle.account.specs.Ends.{new_end, seal_reply};
ghost use Rattle.account.specs.Keys.{key_questions};
ghost use Rattle.ends.specs.Refusals.{key_refusal};
ghost use Rattle.ends.specs.Replies.{any_seal_reply, sealed};
ghost use Rattle.ends.specs.States.{reader_state};
ghost use Rattle.framing.specs.Asked.{Answers};
ghost use Rattle.std.specs.Prelude.{◌≡◌, OnErr};

use crate::end::End;
use crate::keys::ServingKey;
use crate::refusals::KeyRefusal;
use family::Family;
use framing::SealRefusal;
use pads::PadSource;

// The role of the end that seals payloads.
#[derive(Drop)]
pub struct Reader;

// Seals payloads, each for a slot above the last.
pub type ReaderEnd<F> = End<F, Reader>;

impl<F: Family + Drop> End<F, Reader> {
    // A reader's end for a door, with its first key. A key that is refused is dropped.
    pub fn new(key: F, door: u32) -> Result<ReaderEnd<F>, KeyRefusal>
        ensures { Answers key_refusal (key_questions (F.meaning key)) result (λ e. reader_state F.meaning e ≡ new_end (F.meaning key) door 0) (Unit {0}) }
    {
        let key = ServingKey::admit(key)?;
        Ok(End::begin(key, door, 0))
    }

    // Seals a payload: writes its frame at the front of `out` and tells the frame's length.
    #[tactic(auto, unfolding(framing::specs::Asked::payload_questions))]
    pub fn seal<P: PadSource>(
        &mut self,
        slot: u32,
        payload: &[u8],
        out: &mut [u8],
        pads: &P,
    ) -> Result<usize, SealRefusal>
        ensures replies { sealed result out.new (reader_state F.meaning self.new) ≡ any_seal_reply (reader_state F.meaning self.old) slot payload.now out.old (P.words pads.now) }
        ensures follows { sealed result out.new (reader_state F.meaning self.new) ≡ seal_reply (reader_state F.meaning self.old) slot payload.now out.old (P.words pads.now) }
        ensures unchanged { OnErr result (self.new ≡ self.old) }
    {
        if slot <= self.last {
            return Err(SealRefusal::SlotSpent);
        }
        let key = self.governing(slot);
        let size = framing::seal_frame(key, self.door, slot, payload, out, pads)?;
        self.last = slot;
        Ok(size)
    }
}
