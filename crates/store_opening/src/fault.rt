//! What keeps a library from being made of what was opened.
ghost use Rattle.std.specs.Prelude.{◌≡◌};

use disk_trait::Memory;
use media_journal::JournalFault;

/// What keeps a library from being made of what was opened.
#[derive(Clone, Copy, Debug, PartialEq, Eq)]
pub(crate) enum OpenFault {
    /// The file is no store from this offset on, in bytes.
    Damaged(u64),
    /// There was no memory.
    Memory,
}

impl From<OpenFault> for JournalFault {
    ghost use Rattle.store_opening.specs.Within.{opening_fault};

    ghost from_gives = { λ fault e. e ≡ opening_fault fault };

    fn from(fault: OpenFault) -> Self {
        match fault {
            OpenFault::Damaged(at) => JournalFault::Damaged(at),
            OpenFault::Memory => JournalFault::Memory,
        }
    }
}
