//! Arithmetic modulo a generator. No branch depends on the key or the digest, but in the search for a
//! column and in what admission asks.
ghost use Rattle.std.specs.Prelude.{◌≡◌, ◌-◌, ◌*◌, ◌≤◌, Bool, List, ◌++◌, length, Decides};
ghost use Rattle.bits.specs.Bits.{bits, bits_of};
ghost use Rattle.bits.specs.Columns.{picked, units};
ghost use Rattle.crc.specs.Horner.{completed};
ghost use Rattle.crc.specs.Powers.{crc_columns, times_x};
ghost use Rattle.family.specs.Meaning.{Separate};

use crate::keys::Generator;
use bits::under_mask;
use family::{Orbit, Step};

impl Generator {
    // x * a mod g: shifted, and where the term x^degree comes out, the rest of g in its place.
    pub(crate) fn times_x(&self, a: u64) -> u64
        ensures { result ≡ times_x self.now.raw.degree self.now.raw.coefficients a }
    {
        let shifted = (a << 1) & ((1 << self.raw.degree) - 1);
        shifted ^ under_mask(self.raw.coefficients, a >> (self.raw.degree - 1))
    }

    // Whether the columns at the wanted reach and the unit columns are all different and none zero.
    // They are the powers of x from x^0 on, and x has an inverse, since g has a constant term: a power
    // that comes again comes first at x^0, so it is enough that none after x^0 is 1.
    pub(crate) fn keeps_apart(&self) -> bool
        ensures { Decides result (Separate (crc_columns self.now.raw.degree self.now.raw.coefficients self.now.raw.reach ++ units self.now.raw.degree)) }
    {
        let powers = (self.raw.reach + self.raw.degree) as usize;
        !Orbit::new(self, 1, powers).comes_again()
    }

    // Takes the bits of one byte into a digest, highest first, as far as bits are left of the text.
    fn absorb(&self, byte: u8, digest: u64, left: usize) -> u64
        ensures { (rest : List Bool) → completed self.now.raw.degree self.now.raw.coefficients result (left - 8) rest ≡ completed self.now.raw.degree self.now.raw.coefficients digest left (bits_of 8 byte ++ rest) }
    {
        let mut digest = digest;
        for place in 0..left.min(8) {
            let bit = u64::from(byte >> (7 - place));
            digest = self.times_x(digest) ^ under_mask(self.raw.coefficients, bit);
        }
        digest
    }

    // The digest of the first m bits of a text. A loop over the text's bytes is the form wanted of a digest, here and for registers;
    // `left` is no index, but the number of bits of which the contract of a byte speaks.
    pub(crate) fn digest(&self, text: &[u8], m: usize) -> u64
        requires { m ≤ 8 * length text.now }
        ensures { result ≡ picked (bits text.now) (crc_columns self.now.raw.degree self.now.raw.coefficients m) }
    {
        let mut digest = 0;
        let mut left = m;
        for byte in text {
            digest = self.absorb(*byte, digest, left);
            left = left.saturating_sub(8);
        }
        digest
    }
}

// `times_x` has its own name, since a digest multiplies by x too, and steps along nothing.
impl Step for Generator {
    ghost stepped = { λ g. times_x g.raw.degree g.raw.coefficients };

    fn step(&self, a: u64) -> u64 {
        self.times_x(a)
    }
}
