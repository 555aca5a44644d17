//! The door's end.
ghost use Rattle.account.specs.Ends.{new_end, open_reply};
ghost use Rattle.account.specs.Keys.{door_questions};
ghost use Rattle.ends.specs.Refusals.{door_refusal};
ghost use Rattle.ends.specs.Replies.{any_open_reply, opened};
ghost use Rattle.ends.specs.States.{door_state};
ghost use Rattle.framing.specs.Asked.{Answers};
ghost use Rattle.std.specs.Prelude.{◌≡◌, OnErr};

use crate::end::End;
use crate::keys::ServingKey;
use crate::refusals::DoorRefusal;
use family::Family;
use framing::{OpenRefusal, Opened};
use pads::PadSource;

// The role of the end that opens frames.
#[derive(Drop)]
pub struct Door;

// Opens frames, each for a slot above the last.
pub type DoorEnd<F> = End<F, Door>;

impl<F: Family + Drop> End<F, Door> {
    // A door's end with its first key; with an allowance of 1 it mends one changed bit of a frame, with 0 none. A key that is
    // refused is dropped. The allowance is a number: every byte is answered or refused, and an enum would ask more of callers.
    pub fn new(key: F, door: u32, allowance: u8) -> Result<DoorEnd<F>, DoorRefusal>
        ensures { Answers door_refusal (door_questions (F.meaning key) allowance) result (λ e. door_state F.meaning e ≡ new_end (F.meaning key) door allowance) (Unit {0}) }
    {
        let key = ServingKey::admit(key)?;
        if allowance > 1 {
            return Err(DoorRefusal::Allowance);
        }
        Ok(End::begin(key, door, allowance))
    }

    // Opens a frame: writes its payload at the front of `out`, with a changed bit mended where that is allowed.
    pub fn open<P: PadSource>(
        &mut self,
        slot: u32,
        frame: &[u8],
        out: &mut [u8],
        pads: &P,
    ) -> Result<Opened, OpenRefusal>
        ensures replies { opened result out.new (door_state F.meaning self.new) ≡ any_open_reply (door_state F.meaning self.old) slot frame.now out.old (P.words pads.now) }
        ensures follows { opened result out.new (door_state F.meaning self.new) ≡ open_reply (door_state F.meaning self.old) slot frame.now out.old (P.words pads.now) }
        ensures unchanged { OnErr result (self.new ≡ self.old) }
    {
        if slot <= self.last {
            return Err(OpenRefusal::SlotSpent);
        }
        let key = self.governing(slot);
        let opened = framing::open_frame(key, self.door, self.allowance, slot, frame, out, pads)?;
        self.last = slot;
        Ok(opened)
    }
}
