//! One call of a run.
ghost use Rattle.account.specs.Ends.{reply};
ghost use Rattle.account.specs.Promise.{Proper};
ghost use Rattle.ends.specs.States.{door_state, reader_state};
ghost use Rattle.runs.specs.Calls.{both, call_of, replied, returned};
ghost use Rattle.std.specs.Prelude.{◌≡◌};

use crate::calls::{Call, Reply};
use bits::hold_bytes;
use ends::{DoorEnd, ReaderEnd};
use family::Family;
use pads::PadSource;

// What is handed in as bytes is bytes, and the keys of a family keep the law.
pub fn look_at<F: Family, G: Family, P: PadSource>(call: &Call<F, G, P>)
    ensures { Proper (call_of F.Family.meaning G.Family.meaning P.words call.now) }
{
    match call {
        Call::Seal { payload, .. } => hold_bytes(payload.as_slice()),
        Call::Open { frame, .. } => hold_bytes(frame.as_slice()),
        _ => (),
    }
}

// Makes a call at the end that it is for.
pub fn step<F: Family + Drop, G: Family + Drop, P: PadSource + Drop>(
    reader: &mut ReaderEnd<F>,
    door: &mut DoorEnd<G>,
    call: Call<F, G, P>,
) -> Reply
    ensures { reply (both (reader_state F.Family.meaning reader.old) (door_state G.Family.meaning door.old)) (call_of F.Family.meaning G.Family.meaning P.words call) ≡ replied (returned result) (both (reader_state F.Family.meaning reader.new) (door_state G.Family.meaning door.new)) }
{
    match call {
        Call::Seal {
            slot,
            payload,
            mut out,
            pads,
        } => {
            let answer = reader.seal(slot, payload.as_slice(), out.as_mut_slice(), &pads);
            Reply::Sealed(answer, out)
        }
        Call::Open {
            slot,
            frame,
            mut out,
            pads,
        } => {
            let answer = door.open(slot, frame.as_slice(), out.as_mut_slice(), &pads);
            Reply::Opened(answer, out)
        }
        Call::AppointReader { key, start } => Reply::Changed(reader.appoint(key, start)),
        Call::StrikeReader => Reply::Changed(reader.strike()),
        Call::WithdrawReader => Reply::Changed(reader.withdraw()),
        Call::AppointDoor { key, start } => Reply::Changed(door.appoint(key, start)),
        Call::StrikeDoor => Reply::Changed(door.strike()),
        Call::WithdrawDoor => Reply::Changed(door.withdraw()),
    }
}
