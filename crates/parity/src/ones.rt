//! Whether the number of ones is odd, in a text and in a digest. No branch depends on a bit of either.
ghost use Rattle.std.specs.Prelude.{◌≡◌, ◌+◌, ◌*◌, ◌%◌, ◌^◌, ◌<◌, ◌≤◌, length, take, count_ones};
ghost use Rattle.bits.specs.Bits.{bits, weight};

// 1 if the first m bits of a text hold an odd number of ones, and 0 if not: the ⊕ of bytes is odd
// just where the bytes together are.
pub(crate) fn text_parity(text: &[u8], m: usize) -> u32
    requires { m ≤ 8 * length text.now }
    ensures { result ≡ weight (take m (bits text.now)) % 2 }
{
    let whole = &text[..m / 8];
    let mut folded = 0u8;
    for byte in whole {
        folded ^= *byte;
    }
    if m % 8 > 0 {
        folded ^= text[m / 8] >> (8 - m % 8);
    }
    folded.count_ones() % 2
}

// A digest followed by the parity bit of its own ones and those of its text. No call is shared with the bit that MAC-C appends: it
// would be public, and public calls have no precondition.
pub(crate) fn append_parity(digest: u64, parity: u32) -> u64
    requires { (digest < 2 ^ 63) × (parity < 2) }
    ensures { result ≡ digest * 2 + (count_ones digest + parity) % 2 }
{
    (digest << 1) | u64::from((digest.count_ones() + parity) % 2)
}
