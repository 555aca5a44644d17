//! The digest over the states of a register.
ghost use Rattle.bits.specs.Bits.{bits};
ghost use Rattle.bits.specs.Columns.{picked};
ghost use Rattle.lfsr.specs.Keys.{states};
ghost use Rattle.std.specs.Prelude.{◌≡◌};

use crate::register::Register;
use bits::under_mask;

// The ⊕ of those of the first m states at which the text has a one. A loop over the text's bytes is the form wanted of a digest.
pub fn digest(register: &Register, text: &[u8], m: usize) -> u64
    ensures { result ≡ picked (bits text.now) (states register.now.raw m) }
{
    let mut states = register.states(m);
    let mut digest = 0;
    for byte in text {
        for k in (0..8u32).rev() {
            let Some(state) = states.next() else {
                return digest;
            };
            digest ^= under_mask(state, u64::from(*byte >> k));
        }
    }
    digest
}
