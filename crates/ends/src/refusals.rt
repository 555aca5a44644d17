//! What a creation and a change of keys are refused with: a case for each question, named by what is wrong.
ghost use Rattle.ends.specs.Refusals.{change_refusal, door_refusal, key_refusal};
ghost use Rattle.ends.specs.declared.refusals.ChangeRefusal.TheVariants.{Key as change_key};
ghost use Rattle.ends.specs.declared.refusals.DoorRefusal.TheVariants.{Key as door_key};
ghost use Rattle.std.specs.Prelude.{◌≡◌};

use thiserror::Error;

// A key that cannot serve an end. Each refusal keeps its own table of numbers: a trait would leave the tables as they are, and
// ask every caller for an import.
#[derive(Clone, Copy, Debug, PartialEq, Eq, Error)]
pub enum KeyRefusal {
    #[error("the key has fewer than 45 bits")]
    TooNarrow,
    #[error("the key's reach is not 1016 bits")]
    WrongReach,
}

impl KeyRefusal {
    pub fn number(&self) -> u32
        ensures { result ≡ (key_refusal self.now).number }
    {
        match self {
            KeyRefusal::TooNarrow => 41,
            KeyRefusal::WrongReach => 42,
        }
    }
}

// What is wrong at the creation of a door's end.
#[derive(Clone, Copy, Debug, PartialEq, Eq, Error)]
pub enum DoorRefusal {
    #[error(transparent)]
    Key(KeyRefusal),
    #[error("the allowance is not 0 or 1")]
    Allowance,
}

impl DoorRefusal {
    pub fn number(&self) -> u32
        ensures { result ≡ (door_refusal self.now).number }
    {
        match self {
            DoorRefusal::Key(refusal) => refusal.number(),
            DoorRefusal::Allowance => 43,
        }
    }
}

// By hand, not `#[from]`: the clauses of a creation read which refusal comes of a key's.
impl From<KeyRefusal> for DoorRefusal {
    ghost from_gives = { λ e r. r ≡ door_key e };

    fn from(wrong: KeyRefusal) -> DoorRefusal {
        DoorRefusal::Key(wrong)
    }
}

// What is wrong with a change of keys. `NotYetUsed`: no slot from the next key's start on was done, so the current key is not
// struck; `AlreadyUsed`: one was, so the next key is not withdrawn.
#[derive(Clone, Copy, Debug, PartialEq, Eq, Error)]
pub enum ChangeRefusal {
    #[error("a change of keys is already pending")]
    Pending,
    #[error("the start is not above the last slot done")]
    StartSpent,
    #[error(transparent)]
    Key(KeyRefusal),
    #[error("no change of keys is pending")]
    NonePending,
    #[error("no slot was done yet under the next key")]
    NotYetUsed,
    #[error("a slot was done under the next key")]
    AlreadyUsed,
}

impl ChangeRefusal {
    pub fn number(&self) -> u32
        ensures { result ≡ (change_refusal self.now).number }
    {
        match self {
            ChangeRefusal::Pending => 31,
            ChangeRefusal::StartSpent => 32,
            ChangeRefusal::Key(refusal) => refusal.number(),
            ChangeRefusal::NonePending => 34,
            ChangeRefusal::NotYetUsed => 35,
            ChangeRefusal::AlreadyUsed => 36,
        }
    }
}

// By hand, as above: the clauses of `appoint` read it.
impl From<KeyRefusal> for ChangeRefusal {
    ghost from_gives = { λ e r. r ≡ change_key e };

    fn from(wrong: KeyRefusal) -> ChangeRefusal {
        ChangeRefusal::Key(wrong)
    }
}
