//! The key record of a line file.
ghost use Rattle.std.specs.Prelude.{◌≡◌, ◌<◌, ◌≤◌, length, MatchResult};
ghost use Rattle.linefile.specs.File.{a_kind, key_record, key_section};
ghost use Rattle.linefile.specs.Parsed.{Fails, Passes, whole_fields};

use crate::faults::{FileFault, Flaw};
use crate::left::Left;

// How many keys a file has.
const KEY_COUNT: u8 = 1;

// The family of a key.
#[derive(Clone, Copy, Debug, PartialEq, Eq)]
pub enum KeyFamily {
    Crc,
    Toeplitz,
    MacC,
}

// A kind of key: a family, and whether the parity layer lies over it.
#[derive(Clone, Copy, Debug, PartialEq, Eq)]
pub struct Kind {
    pub family: KeyFamily,
    pub parity: bool,
}

// A key as it stands in a file, with its door's number and the door's allowance.
#[derive(Clone, Copy, Debug, PartialEq, Eq)]
pub struct KeyRecord {
    pub kind: Kind,
    pub degree: u8,
    pub coefficients: u64,
    pub state: u64,
    pub door: u32,
    // a number, as the creation of a door's end takes it
    pub allowance: u8,
}

impl TryFrom<u8> for Kind {
    type Error = Flaw;

    ghost try_from_gives = { λ number kind. kind ≡ a_kind number };

    fn try_from(number: u8) -> Result<Kind, Flaw> {
        let (family, parity) = match number {
            1 => (KeyFamily::Crc, false),
            2 => (KeyFamily::Toeplitz, false),
            3 => (KeyFamily::MacC, false),
            17 => (KeyFamily::Crc, true),
            18 => (KeyFamily::Toeplitz, true),
            19 => (KeyFamily::MacC, true),
            _ => return Err(Flaw::Unknown),
        };
        Ok(Kind { family, parity })
    }
}

// The places in a record of the fields behind its first, from the last one back.
const FIELD_PLACES: [usize; 5] = [22, 18, 10, 2, 1];

// The bytes of a key record that lie ahead of the first field that is cut.
fn whole_fields(there: usize) -> usize
    ensures { (result ≡ whole_fields there) × (result ≤ there) }
{
    FIELD_PLACES
        .iter()
        .find(|place| **place <= there)
        .copied()
        .unwrap_or(0)
}

// The first fault of a record that is cut. Its kind is looked at before what follows it.
fn cut_key(left: &Left<'_>) -> FileFault
    requires { length left.now.bytes.now < 23 }
    ensures { Fails key_record left.now result }
{
    let [kind, ..] = left.bytes else {
        return Flaw::CutShort.at(left.at);
    };
    match Kind::try_from(*kind) {
        Err(flaw) => flaw.at(left.at),
        Ok(_) => Flaw::CutShort.at(left.at + whole_fields(left.bytes.len())),
    }
}

// A key record. One pattern names each of its bytes, in the order of the file: that is the form wanted of it.
fn key_record(left: &mut Left<'_>) -> Result<KeyRecord, FileFault>
    ensures { MatchResult result (λ key. Passes key_record left.old key left.new) (Fails key_record left.old) }
{
    let [
        kind,
        degree,
        c0,
        c1,
        c2,
        c3,
        c4,
        c5,
        c6,
        c7,
        s0,
        s1,
        s2,
        s3,
        s4,
        s5,
        s6,
        s7,
        d0,
        d1,
        d2,
        d3,
        allowance,
        rest @ ..,
    ] = left.bytes
    else {
        return Err(cut_key(left));
    };
    let place = left.at;
    let kind = Kind::try_from(*kind).map_err(|flaw| flaw.at(place))?;
    if *allowance > 1 {
        return Err(Flaw::Unknown.at(place + 22));
    }
    *left = Left {
        at: place + 23,
        bytes: rest,
    };
    Ok(KeyRecord {
        kind,
        degree: *degree,
        coefficients: u64::from_be_bytes([*c0, *c1, *c2, *c3, *c4, *c5, *c6, *c7]),
        state: u64::from_be_bytes([*s0, *s1, *s2, *s3, *s4, *s5, *s6, *s7]),
        door: u32::from_be_bytes([*d0, *d1, *d2, *d3]),
        allowance: *allowance,
    })
}

// The count of keys, which can only be one, and the key.
pub(crate) fn key_section(left: &mut Left<'_>) -> Result<KeyRecord, FileFault>
    ensures { MatchResult result (λ key. Passes key_section left.old key left.new) (Fails key_section left.old) }
{
    let place = left.at;
    let [count] = left.take::<1>()?;
    if count != KEY_COUNT {
        return Err(Flaw::OutOfLimits.at(place));
    }
    key_record(left)
}
