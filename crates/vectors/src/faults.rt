//! Why a line of the table could not be compared, told with the line's number.
use crate::table::Unread;
use pads::PadFault;
use thiserror::Error;

#[derive(Clone, Copy, Debug, Error)]
pub(crate) enum LineFault {
    #[error("{0} cannot be read")]
    Unreadable(#[from] Unread),
    #[error("fault {number}, slot {slot} is not covered", number = .0.number(), slot = .0.slot)]
    NoPad(#[from] PadFault),
}

#[derive(Clone, Copy, Debug, Error)]
#[error("line {number}: {fault}")]
pub(crate) struct BadLine {
    pub(crate) number: usize,
    pub(crate) fault: LineFault,
}
