//! The same job at full size: a text of 1,016 bits under a key of width 64.
use crate::keys::cipher;
use crate::printing::Numbers;
use crate::sent;
use crate::sent::Bit;
use family::{Family, RawKey};
use lfsr::MacCKey;
use mending::Arrival;
use pads::{PadSource, first_bits};

const RAW: RawKey = RawKey {
    degree: 63,
    coefficients: 3,
    state: 0x4d69_6e74_6761_626c,
    reach: 1016,
};

const TEXT: [u8; 127] =
    *b"Badge 0041-7730, Lena Moravec, side entrance, door 12, slot 9021. One wrong bit here, and somebody else would be let in instead";

const M: usize = 1016;

const SLOT: u32 = 9021;

type Sent<'a> = sent::Sent<'a, MacCKey>;

fn send<'a>(rt: &impl Print, key: &'a MacCKey) -> anyhow::Result<Sent<'a>> {
    let pad = first_bits(cipher().word(SLOT)?, key.width());
    let sent = Sent::new(key, &TEXT, M, pad)?;
    let digest = sent.digest;
    let tag = sent.tag();
    println!(rt; "  text of 127 bytes: digest {digest:016x}")?;
    println!(rt; "  pad {pad:016x} from the cipher source, slot {SLOT}: tag {tag:016x}")?;
    Ok(sent)
}

fn change_some(rt: &impl Print, sent: &Sent) -> anyhow::Result<()> {
    for bit in [Bit::Text(0), Bit::Text(507), Bit::Text(1015), Bit::Tag(63)] {
        let Arrival { syndrome, finding } = sent.receive(&[bit])?.arrival;
        println!(rt; "  {bit} changed: syndrome {syndrome:016x}, found at {finding}")?;
    }
    Ok(())
}

fn change_each(rt: &impl Print, sent: &Sent) -> anyhow::Result<()> {
    let of_text = sent.singles(sent.text_bits())?;
    let of_tag = sent.singles(sent.tag_bits())?;
    println!(rt;
        "  each of {} text bits changed in turn: {} put right",
        of_text.changes, of_text.right
    )?;
    println!(rt;
        "  each of {} tag bits changed in turn: {} times the text is left as it was sent",
        of_tag.changes, of_tag.right
    )?;
    Ok(())
}

pub(crate) fn show(rt: &impl Print) -> anyhow::Result<()> {
    let key = MacCKey::admit(RAW)?;
    println!(rt; "")?;
    println!(rt; "A full-size MAC-C key: degree 63, coefficients 3 (x^63 + x + 1), reach 1016")?;
    println!(rt; "  admitted: {}", Numbers(&key))?;
    let sent = send(rt, &key)?;
    change_some(rt, &sent)?;
    change_each(rt, &sent)
}
