//! From a raw key to the first opened frame: what an integrator writes, for a reader and for its door.
#![tactic(auto)]

use arrayvec::ArrayVec;
use bits::flip_bit;
use crc::CrcKey;
use ends::{DoorEnd, ReaderEnd};
use family::RawKey;
use framing::LONGEST_PAYLOAD;
use pads::CipherSource;
use parity::Parity;

const DOOR: u32 = 42;

const SLOT: u32 = 1;

// Room for the longest frame, and for the longest payload: neither end needs a heap.
type Frame = ArrayVec<u8, 127>;

type Payload = ArrayVec<u8, LONGEST_PAYLOAD>;

// The key as both ends have it; the trials and the walkthrough make theirs, so that this program can be read alone. A key of the top
// level: the parity layer over any family has distance 4.
fn shared_key() -> anyhow::Result<Parity<CrcKey>> {
    let below = CrcKey::admit(RawKey {
        degree: 63,
        coefficients: 3,
        state: 0,
        reach: 1016,
    })?;
    Ok(Parity::over(below)?)
}

// The pads as both ends have them.
fn shared_pads() -> CipherSource {
    CipherSource::new([7; 32], [9; 12])
}

// At the reader: a payload is sealed into a frame.
fn at_the_reader(payload: &[u8]) -> anyhow::Result<Frame> {
    let mut reader = ReaderEnd::new(shared_key()?, DOOR)?;
    let mut frame = Frame::from([0; 127]);
    let len = reader.seal(SLOT, payload, frame.as_mut_slice(), &shared_pads())?;
    frame.truncate(len);
    Ok(frame)
}

// At the door: the frame is opened, and one changed bit is put right.
fn at_the_door(frame: &[u8]) -> anyhow::Result<Payload> {
    let mut door = DoorEnd::new(shared_key()?, DOOR, 1)?;
    let mut payload = Payload::from([0; LONGEST_PAYLOAD]);
    let opened = door.open(SLOT, frame, payload.as_mut_slice(), &shared_pads())?;
    payload.truncate(opened.len);
    Ok(payload)
}

fn main(rt: HostRuntime) -> anyhow::Result<()> {
    let mut frame = at_the_reader(&2026u32.to_be_bytes())?;
    flip_bit(frame.as_mut_slice(), 11); // on the way
    let payload = at_the_door(frame.as_slice())?;
    println!(rt; "sealed {} bytes, opened {}", frame.len(), payload.len())?;
    let badge: [u8; 4] = payload.as_slice().try_into()?;
    println!(rt; "badge {}", u32::from_be_bytes(badge))?;
    Ok(())
}
