//! Sections: a count, and so many items behind it.
ghost use Rattle.std.specs.Prelude.{◌≤◌, length, MatchResult};
ghost use Rattle.linefile.specs.File.{Contents, counted, number_field, up_to};
ghost use Rattle.linefile.specs.Layout.{Part};
ghost use Rattle.linefile.specs.Parsed.{Fails, Passes, ReadSection};

use crate::faults::{FileFault, Flaw};
use crate::left::Left;

// What a section has any number of.
pub(crate) trait Item<'a>: Drop {
    // What an item means.
    ghost Sense: { Type 0 };

    ghost sense: { Self → Sense };

    // The part of a file that an item is read of.
    ghost part: { Part Sense Contents };

    fn read(left: &mut Left<'a>) -> Result<Self, FileFault>
        ensures { MatchResult result (λ item. Passes part left.old (sense item) left.new) (Fails part left.old) };
}

// A count of two bytes, up to a limit.
fn count(left: &mut Left<'_>, most: usize) -> Result<usize, FileFault>
    ensures { MatchResult result (λ n. Passes (number_field 2 (up_to most)) left.old n left.new × (n ≤ most)) (Fails (number_field 2 (up_to most)) left.old) }
{
    let place = left.at;
    let count = usize::from(u16::from_be_bytes(left.take()?));
    if count > most {
        return Err(Flaw::OutOfLimits.at(place));
    }
    Ok(count)
}

// A section of at most so many items: how many it has, and the bytes from its first item on. The first items, as many as `kept`
// has room for, are kept there.
pub(crate) fn section<'a, T: Item<'a>>(
    left: &mut Left<'a>,
    most: usize,
    kept: &mut [T],
) -> Result<(usize, &'a [u8]), FileFault>
    ensures { MatchResult result (λ s. ReadSection T.part T.sense most left.old s.0 s.1.now (length kept.old) kept.new left.new) (Fails (counted most T.part) left.old) }
{
    let count = count(left, most)?;
    let bytes = left.bytes;
    for i in 0..count {
        let item = T::read(left)?;
        if i < kept.len() {
            kept[i] = item;
        }
    }
    Ok((count, bytes))
}
