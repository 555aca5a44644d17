//! One changed bit found by its syndrome, and put right. A search beside that of `framing`: it takes any text and small keys, which
//! no frame has.
#![tactic(auto)]

ghost use Rattle.bits.specs.Columns.{place};
ghost use Rattle.family.specs.Admission.{length_questions, reach_number, text_questions};
ghost use Rattle.family.specs.Questions.{Asked};
ghost use Rattle.mending.specs.Mending.{Received, finding as finding_of, mended, syndrome as syndrome_of};
ghost use Rattle.std.specs.Prelude.{◌≡◌};

use bits::{flip_bit, unit_place};
use family::{Family, OutOfReach};
use std::fmt;

// What a syndrome is: zero, the column of a text place, the unit column of a tag place, or none of these.
#[derive(Clone, Copy, Debug, PartialEq, Eq)]
pub enum Finding {
    Clean,
    Text(usize),
    Tag(u32),
    Unknown,
}

// By hand: the derive of messages is for errors, and a finding is none.
impl fmt::Display for Finding {
    fn fmt<W: fmt::Write>(&self, f: &mut fmt::Formatter<W>) -> fmt::Result {
        match self {
            Finding::Clean => f.write_str("no change"),
            Finding::Text(place) => write!(f, "text place {place}"),
            Finding::Tag(place) => write!(f, "tag place {place}"),
            Finding::Unknown => f.write_str("no single place"),
        }
    }
}

// The received tag ⊕ the pad ⊕ the digest of the received text. Text, length, tag and pad stay arguments of their own: only
// `receive` takes them too, which writes the text, so that the two would borrow it by two structs.
pub fn syndrome<F: Family>(
    key: &F,
    text: &[u8],
    m: usize,
    tag: u64,
    pad: u64,
) -> Result<u64, OutOfReach>
    ensures { Asked (text_questions (F.meaning key.now).reach m text.now) reach_number (λ s. s ≡ syndrome_of (F.meaning key.now) m text.now tag pad) result }
{
    let digest = key.digest(text, m)?;
    Ok(tag ^ pad ^ digest)
}

// Looks for the syndrome among the columns of the text, then among the unit columns of the tag.
pub fn find<F: Family>(key: &F, syndrome: u64, m: usize) -> Result<Finding, OutOfReach>
    ensures { Asked (length_questions (F.meaning key.now).reach m) reach_number (λ f. f ≡ finding_of syndrome ((F.meaning key.now).columns m) (F.meaning key.now).width) result }
{
    let column = key.locate(syndrome, m)?;
    if syndrome == 0 {
        return Ok(Finding::Clean);
    }
    if let Some(place) = column {
        return Ok(Finding::Text(place));
    }
    let unit = unit_place(syndrome, key.width());
    Ok(unit.map_or(Finding::Unknown, |place| Finding::Tag(place)))
}

// Turns the bit over that was found changed in the text.
pub fn put_right(text: &mut [u8], finding: Finding)
    ensures { text.new ≡ mended finding text.old }
{
    if let Finding::Text(place) = finding {
        flip_bit(text, place);
    }
}

// What came of a text that arrived: its syndrome, and what that found.
#[derive(Clone, Copy, Debug, PartialEq, Eq)]
pub struct Arrival {
    pub syndrome: u64,
    pub finding: Finding,
}

// Checks a text that arrived with its tag, and puts it right where one changed bit is found in it.
pub fn receive<F: Family>(
    key: &F,
    text: &mut [u8],
    m: usize,
    tag: u64,
    pad: u64,
) -> Result<Arrival, OutOfReach>
    ensures { Asked (text_questions (F.meaning key.now).reach m text.old) reach_number (λ a. Received (F.meaning key.now) m text.old tag pad a text.new) result }
{
    let number = syndrome(key, text, m, tag, pad)?;
    let finding = find(key, number, m)?;
    put_right(text, finding);
    Ok(Arrival {
        syndrome: number,
        finding,
    })
}
