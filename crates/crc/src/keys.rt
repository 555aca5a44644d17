//! The CRC keys that can exist: their ghost fields hold what admission found.
ghost use Rattle.std.specs.Prelude.{◌≡◌, ◌%◌, ◌^◌, ◌<◌, ◌≤◌, ◌++◌};
ghost use Rattle.bits.specs.Columns.{units};
ghost use Rattle.crc.specs.Crc.{crc};
ghost use Rattle.family.specs.Meaning.{AllDifferent, NoneZero, longest_reach};

use family::RawKey;

// The generator x^degree plus the terms of the coefficients, of a raw key whose numbers are all in
// their ranges.
#[derive(Clone, Copy)]
pub(crate) struct Generator {
    pub(crate) raw: RawKey,
    ghost degree: { (3 ≤ raw.degree) × (raw.degree ≤ 63) },
    ghost small: { raw.coefficients < 2 ^ raw.degree },
    ghost constant: { raw.coefficients % 2 ≡ 1 },
    ghost reach: { (1 ≤ raw.reach) × (raw.reach ≤ longest_reach) },
}

// One admitted key, of a type of its own: its admission promises more than that of the register's keys (that powers are
// remainders), which one shared call could not say. At its reach all columns and unit columns are different, and none is zero.
#[derive(Clone, Copy)]
pub struct CrcKey {
    pub(crate) generator: Generator,
    ghost nonzero: { NoneZero ((crc generator.raw).columns generator.raw.reach ++ units generator.raw.degree) },
    ghost different: { AllDifferent ((crc generator.raw).columns generator.raw.reach ++ units generator.raw.degree) },
}
