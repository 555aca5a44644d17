//! What sealing and opening refuse with: a case for each question, named by what is wrong.
ghost use Rattle.framing.specs.Refusals.{open_refusal, seal_refusal};
ghost use Rattle.framing.specs.declared.refusals.OpenRefusal.TheVariants.{NoPad as open_no_pad, OutOfReach as open_out_of_reach};
ghost use Rattle.framing.specs.declared.refusals.SealRefusal.TheVariants.{NoPad as seal_no_pad, OutOfReach as seal_out_of_reach};
ghost use Rattle.pads.specs.declared.source.PadFault.{PadFault};
ghost use Rattle.std.specs.Option.{option_map};
ghost use Rattle.std.specs.Prelude.{◌≡◌};

use family::OutOfReach;
use pads::PadFault;
use thiserror::Error;

// `OutOfReach` is a digest's refusal, passed on. No end that was created answers it: its keys reach every text.
#[derive(Clone, Copy, Debug, PartialEq, Eq, Error)]
pub enum SealRefusal {
    #[error("the slot is not above the last one sealed")]
    SlotSpent,
    #[error("the payload does not have 1 to 119 bytes")]
    PayloadLength,
    #[error("the buffer does not hold the frame")]
    NoRoom,
    #[error("the pad source does not cover the slot")]
    NoPad(PadFault),
    #[error("the key does not reach the text")]
    OutOfReach,
}

impl SealRefusal {
    pub fn number(&self) -> u32
        ensures { result ≡ (seal_refusal self.now).number }
    {
        match self {
            SealRefusal::SlotSpent => 11,
            SealRefusal::PayloadLength => 12,
            SealRefusal::NoRoom => 13,
            SealRefusal::NoPad(_) => 14,
            SealRefusal::OutOfReach => OutOfReach.number(),
        }
    }

    // The pad source's fault, as it was answered.
    pub fn fault(&self) -> Option<PadFault>
        ensures { option_map (λ (f : PadFault). f.slot) result ≡ (seal_refusal self.now).slot }
    {
        match self {
            SealRefusal::NoPad(fault) => Some(*fault),
            _ => None,
        }
    }
}

// Each refusal keeps its own `number` and `fault`: a trait would leave both tables, and ask every caller for an import. All four
// `From` are by hand, not `#[from]`, since the clauses read which refusal comes of a fault.
impl From<PadFault> for SealRefusal {
    ghost from_gives = { λ e r. r ≡ seal_no_pad e };

    fn from(unanswered: PadFault) -> SealRefusal {
        SealRefusal::NoPad(unanswered)
    }
}

impl From<OutOfReach> for SealRefusal {
    ghost from_gives = { λ _ r. r ≡ seal_out_of_reach };

    fn from(_refusal: OutOfReach) -> SealRefusal {
        SealRefusal::OutOfReach
    }
}

// `OutOfReach` as above.
#[derive(Clone, Copy, Debug, PartialEq, Eq, Error)]
pub enum OpenRefusal {
    #[error("the slot is not above the last one opened")]
    SlotSpent,
    #[error("the frame is no payload of 1 to 119 bytes with a tag")]
    FrameLength,
    #[error("a bit behind the tag is a one")]
    SpareBits,
    #[error("the buffer does not hold the payload")]
    NoRoom,
    #[error("the pad source does not cover the slot")]
    NoPad(PadFault),
    #[error("the key does not reach the text")]
    OutOfReach,
    #[error("the frame is changed, and no change is allowed")]
    Changed,
    #[error("no single changed bit explains the frame")]
    Unknown,
    #[error("the changed bit would be one that is never sent")]
    BoundWord,
}

impl OpenRefusal {
    pub fn number(&self) -> u32
        ensures { result ≡ (open_refusal self.now).number }
    {
        match self {
            OpenRefusal::SlotSpent => 21,
            OpenRefusal::FrameLength => 22,
            OpenRefusal::SpareBits => 23,
            OpenRefusal::NoRoom => 24,
            OpenRefusal::NoPad(_) => 25,
            OpenRefusal::OutOfReach => OutOfReach.number(),
            OpenRefusal::Changed => 26,
            OpenRefusal::Unknown => 27,
            OpenRefusal::BoundWord => 28,
        }
    }

    // The pad source's fault, as it was answered.
    pub fn fault(&self) -> Option<PadFault>
        ensures { option_map (λ (f : PadFault). f.slot) result ≡ (open_refusal self.now).slot }
    {
        match self {
            OpenRefusal::NoPad(fault) => Some(*fault),
            _ => None,
        }
    }
}

impl From<PadFault> for OpenRefusal {
    ghost from_gives = { λ e r. r ≡ open_no_pad e };

    fn from(unanswered: PadFault) -> OpenRefusal {
        OpenRefusal::NoPad(unanswered)
    }
}

impl From<OutOfReach> for OpenRefusal {
    ghost from_gives = { λ _ r. r ≡ open_out_of_reach };

    fn from(_refusal: OutOfReach) -> OpenRefusal {
        OpenRefusal::OutOfReach
    }
}
