//! Keys of distance 4: one changed bit is put right, and two are refused.
use crate::keys::SMALL;
use crate::printing::Numbers;
use crate::sent::Sent;
use crc::CrcKey;
use family::{Family, RawKey};
use lfsr::MacCKey;
use parity::Parity;

const CRC: RawKey = RawKey {
    degree: 4,
    coefficients: 13,
    state: 0,
    reach: 3,
};

// A text of m bits, sent with no pad: a pad changes no syndrome.
fn show_key<F: Family>(rt: &impl Print, key: &F, text: &[u8], m: usize) -> anyhow::Result<()> {
    println!(rt; "  {}", Numbers(key))?;
    let sent = Sent::new(key, text, m, 0)?;
    sent.show_columns(rt)?;
    let singles = sent.singles(sent.bits())?;
    println!(rt;
        "  one bit changed, each of {} in turn: {} put right",
        singles.changes, singles.right
    )?;
    let pairs = sent.pairs()?;
    println!(rt;
        "  two bits changed, each of {} pairs in turn: {} refused",
        pairs.changes, pairs.refused
    )?;
    Ok(())
}

pub(crate) fn show(rt: &impl Print) -> anyhow::Result<()> {
    println!(rt; "")?;
    println!(rt;
        "A CRC key with an even number of terms: degree 4, coefficients 13 (x^4 + x^3 + x^2 + 1), reach 3"
    )?;
    show_key(rt, &CrcKey::admit(CRC)?, &[0b1010_0000], 3)?;
    println!(rt; "")?;
    println!(rt; "The parity layer over the small MAC-C key")?;
    let layered = Parity::over(MacCKey::admit(SMALL)?)?;
    show_key(rt, &layered, &[0b1011_0000], 7)
}
