//! How bits and keys are printed.
use bits::read_bit;
use family::Family;
use std::fmt;

// The first `count` bits of a run of bytes, as zeros and ones. The count is of bits, and not the length of the bytes beside it.
#[derive(Clone, Copy)]
pub(crate) struct BitRun<'a> {
    pub(crate) bytes: &'a [u8],
    pub(crate) count: usize,
}

impl fmt::Display for BitRun<'_> {
    fn fmt<W: fmt::Write>(&self, f: &mut fmt::Formatter<W>) -> fmt::Result {
        for place in 0..self.count {
            f.write_str(match read_bit(self.bytes, place) {
                Some(true) => "1",
                Some(false) => "0",
                None => "-",
            })?;
        }
        Ok(())
    }
}

// A key's numbers.
#[derive(Clone, Copy)]
pub(crate) struct Numbers<'a, F>(pub(crate) &'a F);

impl<F: Family> fmt::Display for Numbers<'_, F> {
    fn fmt<W: fmt::Write>(&self, f: &mut fmt::Formatter<W>) -> fmt::Result {
        let width = self.0.width();
        let reach = self.0.reach();
        let distance = self.0.distance();
        write!(f, "width {width}, reach {reach}, distance {distance}")
    }
}
