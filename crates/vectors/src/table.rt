//! The lines of the table.
//!
//! A line is `block KEY NONCE COUNTER BLOCK` or `word KEY NONCE SLOT WORD`, with one space between its fields. The counter
//! and the slot are decimal, all else is hexadecimal. An empty line, or one that begins with `#`, says nothing.
use crate::hex::from_hex;
use std::str::FromStr;
use thiserror::Error;

#[derive(Clone, Copy)]
pub(crate) struct Entry {
    pub(crate) key: [u8; 32],
    pub(crate) nonce: [u8; 12],
    pub(crate) counter: u32,
    pub(crate) expected: Expected,
}

#[derive(Clone, Copy)]
pub(crate) enum Expected {
    Block([u8; 64]),
    Word(u64),
}

// Which field of a line is missing or cannot be read.
#[derive(Clone, Copy, Debug, Error)]
pub(crate) enum Unread {
    #[error("what it begins with")]
    Kind,
    #[error("its key")]
    Key,
    #[error("its nonce")]
    Nonce,
    #[error("its counter or slot")]
    Counter,
    #[error("the block or word that is expected")]
    Expected,
    #[error("what stands behind its last field")]
    End,
}

pub(crate) fn is_blank(line: &str) -> bool {
    line.is_empty() || line.starts_with('#')
}

impl FromStr for Entry {
    type Err = Unread;

    fn from_str(line: &str) -> Result<Entry, Unread> {
        let mut fields = line.split(' ');
        let kind = fields.next();
        let key = fields.next().and_then(from_hex).ok_or(Unread::Key)?;
        let nonce = fields.next().and_then(from_hex).ok_or(Unread::Nonce)?;
        let counter = fields
            .next()
            .and_then(|field| field.parse::<u32>().ok())
            .ok_or(Unread::Counter)?;
        let expected = read_expected(kind, fields.next())?;
        match fields.next() {
            None => Ok(Entry {
                key,
                nonce,
                counter,
                expected,
            }),
            Some(_) => Err(Unread::End),
        }
    }
}

fn read_expected(kind: Option<&str>, field: Option<&str>) -> Result<Expected, Unread> {
    let expected = match kind {
        Some("block") => field.and_then(from_hex).map(Expected::Block),
        Some("word") => field
            .and_then(from_hex)
            .map(u64::from_be_bytes)
            .map(Expected::Word),
        _ => return Err(Unread::Kind),
    };
    expected.ok_or(Unread::Expected)
}
