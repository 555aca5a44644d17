//! One bit of a run of bytes, read or turned over. Bit 0 is the highest bit of the first byte.
ghost use Rattle.bits.specs.Bits.{bits, flip, toggle};
ghost use Rattle.std.specs.List.{slice_get};
ghost use Rattle.std.specs.Prelude.{◌≡◌};

// The bit at a place, or nothing past the end.
pub fn read_bit(bytes: &[u8], place: usize) -> Option<bool>
    ensures { result ≡ slice_get (bits bytes.now) place }
{
    let byte = bytes.get(place / 8)?;
    Some((*byte >> (7 - place % 8)) & 1 == 1)
}

// Turns over the bit at a place. A place past the end changes nothing.
pub fn flip_bit(bytes: &mut [u8], place: usize)
    ensures bytes { bytes.new ≡ flip bytes.old place }
    ensures bits { bits bytes.new ≡ toggle (bits bytes.old) place }
{
    let at = place / 8;
    if at < bytes.len() {
        bytes[at] ^= 1 << (7 - place % 8);
    }
}
