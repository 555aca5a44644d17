//! The bit that makes the ones of a state even.
ghost use Rattle.std.specs.Prelude.{◌≡◌, ◌%◌, ◌^◌, ◌<◌, count_ones};
ghost use Rattle.lfsr.specs.Keys.{evened};

// A state of at most 63 bits, followed by the bit that makes its ones even.
pub fn with_even_ones(state: u64) -> u64
    requires { state < 2 ^ 63 }
    ensures value { result ≡ evened state }
    ensures even { count_ones result % 2 ≡ 0 }
{
    (state << 1) | u64::from(state.count_ones() & 1)
}
