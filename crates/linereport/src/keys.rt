//! The key of a file: admitted, under the parity layer where its kind says so, and handed to a door's end.
ghost use Rattle.std.specs.Prelude.{◌≡◌};
ghost use Rattle.account.specs.Keys.{door_questions};
ghost use Rattle.ends.specs.Refusals.{door_refusal};
ghost use Rattle.family.specs.Questions.{Asked};
ghost use Rattle.framing.specs.Asked.{Answers};
ghost use Rattle.linefile.specs.Parsed.{contents_of};
ghost use Rattle.linereport.specs.Keys.{admitted_questions, laid, raw_of, record_meaning, record_questions};
ghost use Rattle.linereport.specs.Refusals.{key_number};
ghost use Rattle.linereport.specs.Report.{page_under};
ghost use Rattle.linereport.specs.declared.keys.RefusedKey.TheVariants.{NotAdmitted as not_admitted, TooWide as too_wide, NoEnd as no_end};
ghost use Rattle.linewriter.specs.Pages.{written};

use crate::opens::tell_frames;
use crc::CrcKey;
use ends::{DoorEnd, DoorRefusal, NEEDED_REACH};
use family::{AdmissionRefusal, Family, RawKey};
use lfsr::{MacCKey, ToeplitzKey};
use linefile::{KeyFamily, KeyRecord, LineFile};
use linewriter::Page;
use pads::PadBook;
use parity::Parity;

// Why the key of a file serves no door: it is not admitted, too wide for the layer, or no end can be created with it.
#[derive(Clone, Copy)]
pub(crate) enum RefusedKey {
    NotAdmitted(AdmissionRefusal),
    TooWide,
    NoEnd(DoorRefusal),
}

impl RefusedKey {
    pub(crate) fn number(&self) -> u32
        ensures { result ≡ key_number self.now }
    {
        match self {
            RefusedKey::NotAdmitted(refusal) => refusal.number(),
            RefusedKey::TooWide => 7,
            RefusedKey::NoEnd(refusal) => refusal.number(),
        }
    }
}

// These stay by hand: a derive's `From` says nothing of what it gives, and the clauses below read it.
impl From<AdmissionRefusal> for RefusedKey {
    ghost from_gives = { λ e r. r ≡ not_admitted e };

    fn from(refusal: AdmissionRefusal) -> RefusedKey {
        RefusedKey::NotAdmitted(refusal)
    }
}

impl<F: Drop> From<parity::TooWide<F>> for RefusedKey {
    ghost from_gives = { λ _ r. r ≡ too_wide };

    fn from(_refusal: parity::TooWide<F>) -> RefusedKey {
        RefusedKey::TooWide
    }
}

impl From<DoorRefusal> for RefusedKey {
    ghost from_gives = { λ e r. r ≡ no_end e };

    fn from(refusal: DoorRefusal) -> RefusedKey {
        RefusedKey::NoEnd(refusal)
    }
}

// What a file's frames come to at a door's end with this key.
fn tell_under<F: Family + Drop>(key: F, file: &LineFile<'_>) -> Result<Page, DoorRefusal>
    ensures { Answers door_refusal (door_questions (F.meaning key) file.now.key.allowance) result (λ page. written page ≡ page_under (F.meaning key) (contents_of file.now)) (Unit {0}) }
{
    let mut door = DoorEnd::new(key, file.key.door, file.key.allowance)?;
    let pads = PadBook::new(file.pads.as_slice());
    Ok(tell_frames(&mut door, file.frames, &pads))
}

// The same of a key that was admitted, under the parity layer where the file says so.
fn tell_laid<F: Family + Drop>(key: F, file: &LineFile<'_>) -> Result<Page, RefusedKey>
    ensures { Asked (admitted_questions file.now.key.kind.parity (F.Family.meaning key) file.now.key.allowance) key_number (λ page. written page ≡ page_under (laid file.now.key.kind.parity (F.Family.meaning key)) (contents_of file.now)) result }
{
    if file.key.kind.parity {
        let layer = Parity::over(key)?;
        Ok(tell_under(layer, file)?)
    } else {
        Ok(tell_under(key, file)?)
    }
}

// Neither type is of this crate, so that no `From` can say it.
fn raw_key(key: &KeyRecord) -> RawKey
    ensures { result ≡ raw_of key.now }
{
    RawKey {
        degree: u32::from(key.degree),
        coefficients: key.coefficients,
        state: key.state,
        reach: NEEDED_REACH,
    }
}

// What the frames of a file come to under the file's own key.
pub(crate) fn tell_file(file: &LineFile<'_>) -> Result<Page, RefusedKey>
    ensures { Asked (record_questions file.now.key) key_number (λ page. written page ≡ page_under (record_meaning file.now.key) (contents_of file.now)) result }
{
    let raw = raw_key(&file.key);
    // A match, since the three keys are of three types.
    match file.key.kind.family {
        KeyFamily::Crc => tell_laid(CrcKey::admit(raw)?, file),
        KeyFamily::Toeplitz => tell_laid(ToeplitzKey::admit(raw)?, file),
        KeyFamily::MacC => tell_laid(MacCKey::admit(raw)?, file),
    }
}
