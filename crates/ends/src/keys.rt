//! The keys that serve an end.
ghost use Rattle.account.specs.Keys.{key_questions};
ghost use Rattle.ends.specs.Refusals.{key_refusal};
ghost use Rattle.frames.specs.Limits.{needed_reach};
ghost use Rattle.framing.specs.Asked.{Answers};
ghost use Rattle.std.specs.Prelude.{◌≡◌};

use crate::refusals::KeyRefusal;
use family::Family;

// The least width of a key that serves an end.
pub const NEEDED_WIDTH: u32 = 45;

// The reach of every key that serves an end: that of the longest text.
pub const NEEDED_REACH: u32 = 1016;

// A key that an end took, at its creation or when it was appointed: it reaches every text.
#[derive(Drop)]
pub(crate) struct ServingKey<F: Family> {
    pub key: F,
    pub ghost reaches: { (F.meaning key).reach ≡ needed_reach },
}

impl<F: Family + Drop> ServingKey<F> {
    // A key that is refused is dropped.
    pub(crate) fn admit(key: F) -> Result<ServingKey<F>, KeyRefusal>
        ensures { Answers key_refusal (key_questions (F.meaning key)) result (λ s. s.key ≡ key) (Unit {0}) }
    {
        if key.width() < NEEDED_WIDTH {
            return Err(KeyRefusal::TooNarrow);
        }
        if key.reach() != NEEDED_REACH {
            return Err(KeyRefusal::WrongReach);
        }
        Ok(ServingKey { key })
    }
}

// A key that was appointed, and the slot from which it governs.
#[derive(Drop)]
pub(crate) struct PendingKey<F: Family> {
    pub key: ServingKey<F>,
    pub start: u32,
}
