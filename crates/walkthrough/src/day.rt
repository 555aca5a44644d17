//! A day at a door, told through the library's own calls: each goes through `run`, and its answer is printed.
use crate::keys::cipher;
use bits::flip_bit;
use crc::CrcKey;
use ends::{DoorEnd, ReaderEnd};
use family::RawKey;
use pads::{CipherSource, PadBook, PadSource};
use parity::Parity;
use runs::{Call, Entry, Reply, run};
use std::alloc::AllocError;
use std::{fmt, io};

// A CRC key under the parity layer: width 64, distance 4.
type Key = Parity<CrcKey>;

const DOOR: u32 = 12;

// The pad book of the morning has words for slots 1 to 4.
const BOOK: [u64; 4] = [
    0x9ad2_dce8_cec2_c4d8,
    0x4071_a130_6030_ec3d,
    0x1d09_1505_0dcd_1bcb,
    0x3f56_bf75_9656_b750,
];

// x^63 plus the terms of the coefficients. A key is made here as in the other programs, so that each can be read alone.
fn key(coefficients: u64) -> anyhow::Result<Key> {
    let below = CrcKey::admit(RawKey {
        degree: 63,
        coefficients,
        state: 0,
        reach: 1016,
    })?;
    Ok(Parity::over(below)?)
}

// What a call was answered, in words.
#[derive(Clone, Copy)]
struct InWords<'a>(&'a Reply);

impl fmt::Display for InWords<'_> {
    fn fmt<W: fmt::Write>(&self, f: &mut fmt::Formatter<W>) -> fmt::Result {
        match self.0 {
            Reply::Sealed(Ok(size), _) => write!(f, "sealed in {size} bytes"),
            Reply::Sealed(Err(refusal), _) => write_refusal(f, refusal.number(), refusal),
            Reply::Opened(Ok(opened), _) => {
                let len = opened.len;
                write!(f, "opened, {len} bytes")?;
                match opened.mended {
                    Some(place) => write!(f, ", bit {place} put right"),
                    None => Ok(()),
                }
            }
            Reply::Opened(Err(refusal), _) => write_refusal(f, refusal.number(), refusal),
            Reply::Changed(Ok(())) => f.write_str("done"),
            Reply::Changed(Err(refusal)) => write_refusal(f, refusal.number(), refusal),
        }
    }
}

fn write_refusal<W: fmt::Write>(
    f: &mut fmt::Formatter<W>,
    number: u32,
    why: &impl fmt::Display,
) -> fmt::Result {
    write!(f, "refused with {number}, {why}")
}

// The two ends of the line to the door, and where their day is told.
#[derive(Drop)]
struct Day<'a> {
    rt: &'a HostRuntime,
    reader: ReaderEnd<Key>,
    door: DoorEnd<Key>,
}

impl Day<'_> {
    // Has the calls made in one run, and tells what each was answered.
    fn ask<P: PadSource + Drop>(
        &mut self,
        names: &[&str],
        calls: &mut [Entry<Key, Key, P>],
    ) -> io::Result<()> {
        run(&mut self.reader, &mut self.door, calls);
        for (name, entry) in names.iter().zip(calls.iter()) {
            if let Entry::Told(reply) = entry {
                println!(self.rt; "    {name}: {}", InWords(reply))?;
            }
        }
        Ok(())
    }

    // One call, as a list of calls.
    fn alone<P: PadSource + Drop>(
        &self,
        call: Call<Key, Key, P>,
    ) -> Result<Vec<Entry<Key, Key, P>>, AllocError> {
        let mut calls = Vec::new(self.rt.alloc());
        calls.push(Entry::Asked(call))?;
        Ok(calls)
    }

    // The frame of a badge's number, or no bytes where the slot is refused.
    fn seal<P: PadSource + Drop>(&mut self, slot: u32, pads: P) -> anyhow::Result<Vec<u8>> {
        let heap = self.rt.alloc();
        let mut calls = self.alone(Call::Seal {
            slot,
            payload: b"badge 0041-7730".to_vec(heap)?,
            out: vec![in heap; 0; 32]?,
            pads,
        })?;
        println!(self.rt; "  slot {slot}")?;
        self.ask(&["reader seals"], calls.as_mut_slice())?;
        match calls.pop() {
            Some(Entry::Told(Reply::Sealed(Ok(size), mut out))) => {
                out.truncate(size);
                Ok(out)
            }
            _ => Ok(Vec::new(heap)),
        }
    }

    // The frame arrives, with these bits changed on the way.
    fn open<P: PadSource + Drop>(
        &mut self,
        slot: u32,
        frame: &[u8],
        changed: &[usize],
        pads: P,
    ) -> anyhow::Result<()> {
        let heap = self.rt.alloc();
        let mut frame = frame.to_vec(heap)?;
        for place in changed {
            flip_bit(frame.as_mut_slice(), *place);
        }
        let name = match changed.len() {
            0 => "door opens the frame as it was sent",
            1 => "door opens it with one bit changed",
            _ => "door opens it with two bits changed",
        };
        let mut calls = self.alone(Call::Open {
            slot,
            frame,
            out: vec![in heap; 0; 32]?,
            pads,
        })?;
        self.ask(&[name], calls.as_mut_slice())?;
        Ok(())
    }

    // A change of keys at the reader and then at the door.
    fn change(
        &mut self,
        what: &str,
        at_reader: Call<Key, Key, CipherSource>,
        at_door: Call<Key, Key, CipherSource>,
    ) -> io::Result<()> {
        println!(self.rt; "  {what}")?;
        let mut calls = [Entry::Asked(at_reader), Entry::Asked(at_door)];
        self.ask(&["at the reader", "at the door"], &mut calls)
    }

    fn appoint(&mut self, key: Key, start: u32) -> io::Result<()> {
        let at_reader = Call::AppointReader { key, start };
        let at_door = Call::AppointDoor { key, start };
        self.change("a key is appointed", at_reader, at_door)
    }

    fn strike(&mut self, what: &str) -> io::Result<()> {
        self.change(what, Call::StrikeReader, Call::StrikeDoor)
    }

    fn morning(&mut self) -> anyhow::Result<()> {
        let book = PadBook::new(&BOOK);
        println!(self.rt; "  The morning, with pads from the book:")?;
        let first = self.seal(1, book)?;
        self.open(1, first.as_slice(), &[], book)?;
        let second = self.seal(2, book)?;
        self.open(2, second.as_slice(), &[13], book)?;
        println!(self.rt; "    the same frame once more:")?;
        self.open(2, second.as_slice(), &[], book)?;
        let third = self.seal(3, book)?;
        self.open(3, third.as_slice(), &[13, 40], book)?;
        self.open(3, third.as_slice(), &[], book)?;
        self.seal(5, book)?;
        Ok(())
    }

    fn afternoon(&mut self) -> anyhow::Result<()> {
        println!(self.rt;
            "  The afternoon, with pads from the cipher, and another key from slot 100 on:"
        )?;
        self.appoint(key(33)?, 100)?;
        self.strike("the old key is struck before the new one has worked")?;
        let frame = self.seal(100, cipher())?;
        self.open(100, frame.as_slice(), &[7], cipher())?;
        self.strike("the old key is struck after the new one has worked")?;
        self.appoint(key(15)?, 200)?;
        self.change("it is withdrawn", Call::WithdrawReader, Call::WithdrawDoor)?;
        Ok(())
    }
}

pub(crate) fn show(rt: &HostRuntime) -> anyhow::Result<()> {
    println!(rt; "")?;
    println!(rt;
        "A day at door {DOOR}, under CRC keys of degree 63 with the parity layer (distance 4), one changed bit allowed:"
    )?;
    let first = key(3)?;
    let mut day = Day {
        rt,
        reader: ReaderEnd::new(first, DOOR)?,
        door: DoorEnd::new(first, DOOR, 1)?,
    };
    day.morning()?;
    day.afternoon()?;
    println!(rt;
        "  At the end of the day: last slot sealed {}, last slot opened {}.",
        day.reader.last_slot(),
        day.door.last_slot()
    )?;
    Ok(())
}
