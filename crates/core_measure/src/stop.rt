//! Why a measure ends early, as a plain value.
use disk_trait::Memory;
use media_rows::{ApplyFault, BookFault};

/// Why a measure ends early. What was refused has its number.
#[derive(Clone, Copy)]
pub(crate) enum Stop {
    Refused(u8),
    Memory,
    Outside,
}

impl From<Memory> for Stop {
    fn from(_: Memory) -> Self {
        Stop::Memory
    }
}

/// A refusal of a command, or of a turn.
pub(crate) fn stop_of(fault: BookFault) -> Stop {
    match &fault {
        BookFault::Refused(why) => Stop::Refused(why.number()),
        BookFault::Memory => Stop::Memory,
    }
}

/// A refusal of a change, which has no number.
pub(crate) fn stop_of_apply(fault: ApplyFault) -> Stop {
    match fault {
        ApplyFault::Refused => Stop::Refused(0),
        ApplyFault::Memory => Stop::Memory,
    }
}
