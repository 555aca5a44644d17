//! The small key, whose every number can be checked by hand.
use crate::keys::SMALL;
use crate::printing::Numbers;
use crate::sent;
use crate::sent::{Bit, Outcome, Tally};
use family::Family;
use lfsr::MacCKey;
use mending::Arrival;
use pads::{PadBook, PadSource, first_bits};

// The text 1011000: seven bits, and a zero that fills the byte.
const TEXT: [u8; 1] = [0b1011_0000];

const M: usize = 7;

// A pad book with one word, for slot 1. Its first four bits, 0101, are the pad.
const BOOK: [u64; 1] = [0x5000_0000_0000_0000];

type Sent<'a> = sent::Sent<'a, MacCKey>;

// The text under the pad of slot 1.
fn send<'a>(rt: &impl Print, key: &'a MacCKey) -> anyhow::Result<Sent<'a>> {
    let book = PadBook::new(&BOOK);
    let pad = first_bits(book.word(1)?, key.width());
    let sent = Sent::new(key, &TEXT, M, pad)?;
    sent.show_columns(rt)?;
    let text = sent.shown(&TEXT);
    let digest = sent.digest;
    let tag = sent.tag();
    println!(rt;
        "  text {text}: the ones choose columns 9, 5 and 10, so the digest is 9 ⊕ 5 ⊕ 10 = {digest}"
    )?;
    println!(rt; "  pad {pad} from the pad book, slot 1: the tag is {digest} ⊕ {pad} = {tag}")?;
    if let Err(fault) = book.word(2) {
        let number = fault.number();
        println!(rt; "  slot 2 is refused with {number}: {fault}")?;
    }
    Ok(sent)
}

// One bit changed on the way. Where it is one of the tag, the text is left as it is.
fn change(rt: &impl Print, sent: &Sent, bit: Bit) -> anyhow::Result<Outcome> {
    let received = sent.receive(&[bit])?;
    let Arrival { syndrome, finding } = received.arrival;
    let text = sent.shown(received.text.as_slice());
    match bit {
        Bit::Text(_) => {
            let came = sent.shown(received.came.as_slice());
            println!(rt;
                "  {bit} changed: {came} arrives, syndrome {syndrome}, found at {finding}, put right: {text}"
            )?;
        }
        Bit::Tag(_) => {
            let came = received.tag;
            println!(rt;
                "  {bit} changed: tag {came} arrives, syndrome {syndrome}, found at {finding}, text as it was: {text}"
            )?;
        }
    }
    Ok(sent.outcome(&received))
}

fn change_each(rt: &impl Print, sent: &Sent) -> anyhow::Result<()> {
    println!(rt; "")?;
    println!(rt; "Each single bit of text and tag, changed in turn:")?;
    let mut tally = Tally::default();
    for index in sent.bits() {
        tally.count(change(rt, sent, sent.bit(index))?);
    }
    println!(rt;
        "  {} of {} changes end with the text that was sent",
        tally.right, tally.changes
    )?;
    Ok(())
}

// Two changed bits: their columns together are a third column, so a wrong bit is turned over.
fn change_two(rt: &impl Print, sent: &Sent) -> anyhow::Result<()> {
    let received = sent.receive(&[Bit::Text(0), Bit::Text(1)])?;
    let Arrival { syndrome, finding } = received.arrival;
    let came = sent.shown(received.came.as_slice());
    let mended = sent.shown(received.text.as_slice());
    println!(rt; "")?;
    println!(rt; "Why two changed bits are not safe with plain MAC-C (distance 3):")?;
    println!(rt;
        "  text bits 0 and 1 changed: {came} arrives, syndrome 9 ⊕ 3 = {syndrome}, the column of {finding}"
    )?;
    println!(rt;
        "  turning that bit over gives {mended}, which was never sent: to refuse two changes takes distance 4"
    )?;
    Ok(())
}

pub(crate) fn show(rt: &impl Print) -> anyhow::Result<()> {
    let key = MacCKey::admit(SMALL)?;
    println!(rt; "A small MAC-C key: degree 3, coefficients 3 (x^3 + x + 1), state 4, reach 7")?;
    println!(rt; "  admitted: {}", Numbers(&key))?;
    let sent = send(rt, &key)?;
    change_each(rt, &sent)?;
    change_two(rt, &sent)
}
