//! Trials of the two ends at the edges of their rules.
#![tactic(auto)]

#[cfg(test)]
mod tests {
    use crc::CrcKey;
    use ends::{DoorEnd, ReaderEnd};
    use family::RawKey;
    use pads::PadBook;
    use std::test::Fail;

    const WORDS: [u64; 2] = [2, 0];

    // Made here as in the programs, so that each can be read alone.
    fn key() -> Result<CrcKey, Fail> {
        Ok(CrcKey::admit(RawKey {
            degree: 63,
            coefficients: 3,
            state: 0,
            reach: 1016,
        })?)
    }

    fn reader_of(door: u32) -> Result<ReaderEnd<CrcKey>, Fail> {
        Ok(ReaderEnd::new(key()?, door)?)
    }

    // The length of a payload's frame, or the number that sealing it is refused with.
    fn sealed(slot: u32, payload: &[u8]) -> Result<Result<usize, u32>, Fail> {
        let mut out = [0; 127];
        let answer = reader_of(0)?.seal(slot, payload, &mut out, &PadBook::new(&WORDS));
        Ok(answer.map_err(|refusal| refusal.number()))
    }

    // 119 bytes are sealed, 0 and 120 are refused with 12; a spent slot is refused first, with 11.
    #[test]
    fn payload_lengths(rt: HostRuntime) -> Result<(), Fail> {
        for (slot, len, answer) in [
            (1, 1, Ok(9)),
            (1, 119, Ok(127)),
            (1, 0, Err(12)),
            (1, 120, Err(12)),
            (0, 0, Err(11)),
        ] {
            let payload = vec![in rt.alloc(); 0; len]?;
            assert_eq!(rt;
                sealed(slot, payload.as_slice())?,
                answer,
                "slot {slot}, {len} bytes"
            );
        }
        Ok(())
    }

    // Door 1's frame in slot 2 at door 0: the one bit that would explain it is in the bound word.
    #[test]
    fn frame_of_another_door(rt: HostRuntime) -> Result<(), Fail> {
        let mut reader = reader_of(1)?;
        let mut door = DoorEnd::new(key()?, 0, 1)?;
        let book = PadBook::new(&WORDS);
        let mut frame = [0; 9];
        let size = reader.seal(2, &[0], &mut frame, &book)?;
        assert_eq!(rt; size, 9);
        let mut payload = [7; 1];
        let Err(refusal) = door.open(2, &frame, &mut payload, &book) else {
            return Err(Fail::new("opened"));
        };
        assert_eq!(rt; refusal.number(), 28);
        assert_eq!(rt; payload, [7]);
        assert_eq!(rt; door.last_slot(), 0);
        Ok(())
    }
}
