//! That bytes are bytes. The contracts speak of slices as lists of numbers; this call gives the fact that each is below 256.
ghost use Rattle.bits.specs.Bits.{Bytes};

// Changes nothing and answers nothing; its contract is what there is to know.
pub fn hold_bytes(slice: &[u8])
    ensures { Bytes slice.now }
{}
