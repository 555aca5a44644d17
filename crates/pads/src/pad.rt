//! The pad of a width, cut from a word.
ghost use Rattle.pads.specs.Pad.{pad};
ghost use Rattle.std.specs.Prelude.{◌≡◌};

// The first bits of the word, as many as the width says: none for the width 0, and the whole word from the width 64 on.
pub fn first_bits(word: u64, width: u32) -> u64
    ensures { result ≡ pad width word }
{
    if width == 0 {
        return 0;
    }
    word >> 64u32.saturating_sub(width)
}
