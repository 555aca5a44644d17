//! The parity layer over any family, itself a family.
ghost use Rattle.family.specs.Questions.{Asked};
ghost use Rattle.parity.specs.Layered.{layer_questions, layered};
ghost use Rattle.parity.specs.Refusals.{too_wide_number};
ghost use Rattle.std.specs.Prelude.{◌≡◌, IfErr};
ghost use Rattle.parity.specs.Layers.{layered-lawful};

use crate::ones::{append_parity, text_parity};
use family::{Family, OutOfReach};
use std::fmt;
use thiserror::Error;

// The widest key that leaves room for the parity bit.
const WIDEST_BELOW: u32 = 63;

// A key with a parity bit after each column. That the key below leaves room for it stands in no ghost field: a clone would have to keep
// its width, of which no bound on F says anything, and the type could be named for families alone.
#[derive(Clone, Copy, Drop)]
pub struct Parity<F> {
    below: F,
}

// Why a layer is not laid: the key is 64 bits wide. It comes back as it was.
#[derive(Clone, Copy, Drop, Error)]
#[error("the key is too wide for a parity bit")]
pub struct TooWide<F> {
    pub below: F,
}

// Without the key, which is a secret.
impl<F> fmt::Debug for TooWide<F> {
    fn fmt<W: fmt::Write>(&self, f: &mut fmt::Formatter<W>) -> fmt::Result {
        f.write_str("TooWide")
    }
}

impl<F> TooWide<F> {
    pub fn number(&self) -> u32
        ensures { result ≡ too_wide_number self.now }
    {
        7
    }
}

impl<F: Family> Parity<F> {
    // Lays the layer over a key, or hands the key back.
    pub fn over(below: F) -> Result<Parity<F>, TooWide<F>>
        ensures asked { Asked (layer_questions (F.Family.meaning below)) too_wide_number (λ p. p.below ≡ below) result }
        ensures back { IfErr result (λ e. e.below ≡ below) }
    {
        if below.width() > WIDEST_BELOW {
            return Err(TooWide { below });
        }
        Ok(Parity { below })
    }
}

// A layer that was laid leaves room for its bit. Its type does not say so, and so each method also answers
// for a key below that leaves none, as if there were no layer.
impl<F: Family> Family for Parity<F> {
    ghost meaning = { λ p. layered (F.Family.meaning p.below) };

    ghost lawful = { λ k. layered-lawful (F.Family.meaning k.below) (F.Family.lawful k.below) };

    fn width(&self) -> u32 {
        let width = self.below.width();
        if width > WIDEST_BELOW {
            width
        } else {
            width + 1
        }
    }

    fn reach(&self) -> u32 {
        self.below.reach()
    }

    fn distance(&self) -> u32 {
        if self.below.width() > WIDEST_BELOW {
            self.below.distance()
        } else {
            4
        }
    }

    fn digest(&self, text: &[u8], m: usize) -> Result<u64, OutOfReach> {
        let digest = self.below.digest(text, m)?;
        if self.below.width() > WIDEST_BELOW {
            return Ok(digest);
        }
        Ok(append_parity(digest, text_parity(text, m)))
    }

    fn locate(&self, number: u64, m: usize) -> Result<Option<usize>, OutOfReach> {
        if self.below.width() > WIDEST_BELOW {
            return self.below.locate(number, m);
        }
        let place = self.below.locate(number >> 1, m)?;
        if number.count_ones() % 2 == 1 {
            Ok(place)
        } else {
            Ok(None)
        }
    }
}
