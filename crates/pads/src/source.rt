//! What a pad source is, and the fault that one answers.
ghost use Rattle.std.specs.Prelude.{◌≡◌, ℕ, Option};
ghost use Rattle.pads.specs.Source.{told, answer};

use thiserror::Error;

// The source does not cover the slot that it was asked for.
#[derive(Clone, Copy, Debug, PartialEq, Eq, Error)]
#[error("the pad source does not cover slot {slot}")]
pub struct PadFault {
    pub slot: u32,
}

impl PadFault {
    // The fault's number among all refusals.
    pub fn number(&self) -> u32
        ensures { result ≡ (told self.now).number }
    {
        10
    }
}

pub trait PadSource {
    // The word of each slot that the source covers; absent for a slot that it does not cover.
    ghost words: { Self → ℕ → Option ℕ };

    fn word(&self, slot: u32) -> Result<u64, PadFault>
        ensures { result ≡ answer (words self.now slot) slot };
}
