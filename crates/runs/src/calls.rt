//! The calls of a run, and what they are answered. A call owns its bytes and its output buffer, so that a list of calls can be
//! kept and answered in place.
use ends::ChangeRefusal;
use framing::{OpenRefusal, Opened, SealRefusal};

// A call at either end, as data, since a list of calls is kept and answered in place. F is the family of the reader's keys, G that
// of the door's, P the pad source. The cases are those of the account's calls, one for one; two with the end's change inside would
// be fewer here, and a level more at every caller.
#[derive(Drop)]
pub enum Call<F, G, P> {
    Seal {
        slot: u32,
        payload: Vec<u8>,
        out: Vec<u8>,
        pads: P,
    },
    Open {
        slot: u32,
        frame: Vec<u8>,
        out: Vec<u8>,
        pads: P,
    },
    AppointReader {
        key: F,
        start: u32,
    },
    StrikeReader,
    WithdrawReader,
    AppointDoor {
        key: G,
        start: u32,
    },
    StrikeDoor,
    WithdrawDoor,
}

// What a call was answered, with its output buffer.
#[derive(Drop)]
pub enum Reply {
    Sealed(Result<usize, SealRefusal>, Vec<u8>),
    Opened(Result<Opened, OpenRefusal>, Vec<u8>),
    Changed(Result<(), ChangeRefusal>),
}
