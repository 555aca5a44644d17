//! Choosing without a branch: what depends on a key or a pad takes the same time whatever their bits are.
ghost use Rattle.std.specs.Prelude.{◌≡◌, ◌%◌, if◌then◌else◌, nat_eq};

// The word where the lowest bit of `bits` is one, and 0 where it is not.
pub fn under_mask(word: u64, bits: u64) -> u64
    ensures { result ≡ (if nat_eq (bits % 2) 1 then word else 0) }
{
    word & (bits & 1).wrapping_neg()
}
