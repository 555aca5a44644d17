//! The two ways in which a state of the register becomes a column.
ghost use Rattle.bits.specs.Columns.{units};
ghost use Rattle.family.specs.Meaning.{Meaning, Separate};
ghost use Rattle.family.specs.declared.raw.RawKey.{RawKey};
ghost use Rattle.lfsr.specs.ColumnLaws.{IsColumnOf};
ghost use Rattle.lfsr.specs.KeyLaws.{mac_c_columns, toeplitz_columns};
ghost use Rattle.lfsr.specs.Keys.{evened, mac_c, toeplitz};
ghost use Rattle.std.specs.Prelude.{◌≡◌, ℕ, ◌^◌, ◌<◌, ◌++◌, ◌≢◌, Decides, MatchOption};

use crate::evening::with_even_ones;
use crate::register::Register;

// How a state becomes a column. Digests and places of states become those of columns by the laws.
pub trait Column {
    ghost column: { ℕ → ℕ };

    // How many bits a column has more than its state.
    const EXTRA: u32;

    ghost EXTRA: { ℕ };

    // what a raw key means
    ghost meant: { RawKey → Meaning };

    ghost laws: { IsColumnOf column EXTRA meant };

    fn column(state: u64) -> u64
        requires { state < 2 ^ 63 }
        ensures { result ≡ column state };

    // The state whose column the number is, if there is one.
    fn state(number: u64) -> Option<u64>
        ensures { MatchOption result ((s : ℕ) → column s ≢ number) (λ s. column s ≡ number) };

    // Whether the columns and unit columns, at the reach, are all different and none zero.
    fn differ(register: &Register) -> bool
        ensures { Decides result (Separate ((meant register.now.raw).columns register.now.raw.reach ++ units (meant register.now.raw).width)) };
}

// The state itself, as Toeplitz keys have it.
#[derive(Clone, Copy)]
pub struct Plain;

impl Column for Plain {
    ghost column = { λ s. s };

    const EXTRA: u32 = 0;

    ghost EXTRA = { 0 };

    ghost meant = { toeplitz };

    ghost laws = { toeplitz_columns };

    fn column(state: u64) -> u64 {
        state
    }

    fn state(number: u64) -> Option<u64> {
        Some(number)
    }

    fn differ(register: &Register) -> bool {
        !register.meets_unit() && register.keeps_apart()
    }
}

// The state followed by the bit that makes its ones even, as MAC-C keys have it.
#[derive(Clone, Copy)]
pub struct Evened;

impl Column for Evened {
    ghost column = { evened };

    const EXTRA: u32 = 1;

    ghost EXTRA = { 1 };

    ghost meant = { mac_c };

    ghost laws = { mac_c_columns };

    fn column(state: u64) -> u64 {
        with_even_ones(state)
    }

    fn state(number: u64) -> Option<u64> {
        let state = number >> 1;
        if with_even_ones(state) == number {
            Some(state)
        } else {
            None
        }
    }

    // A column with even ones is no unit column, so it is enough that the states differ.
    fn differ(register: &Register) -> bool {
        register.keeps_apart()
    }
}
