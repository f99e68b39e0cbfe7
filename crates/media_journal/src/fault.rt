//! What the calls of the journal answer but Ok.
ghost use Rattle.std.specs.Prelude.{◌≡◌};

use disk_trait::Failed;
use std::alloc::{AllocError, AllocFailed};

/// Why a device was not formatted.
#[derive(Clone, Copy, Debug, PartialEq, Eq)]
pub enum FormatFault {
    /// Its header is that of a store, and open.
    AlreadyStore,
    /// It is too short for the numbers, or the rows don't fit a half.
    TooSmall,
    /// A call of the device failed.
    Disk,
    /// There was no memory.
    Memory,
}

/// Why a journal was not opened.
#[derive(Clone, Copy, Debug, PartialEq, Eq)]
pub enum JournalFault {
    /// The device has fewer than 20,480 bytes, or its header isn't an open one.
    NotStore,
    /// The file is no store from this offset on, in bytes.
    Damaged(u64),
    /// The file is a store of another form than the one in use. `open_journal` never answers this.
    OldForm,
    /// A call of the device failed.
    Disk,
    /// There was no memory.
    Memory,
}

/// Why a payload was not appended.
#[derive(Clone, Copy, Debug, PartialEq, Eq)]
pub enum AppendFault {
    /// It doesn't fit the room.
    Full,
    /// A call of the device failed.
    Disk,
}

impl From<Failed> for FormatFault {
    ghost use Rattle.media_journal.specs.declared.fault.FormatFault.TheVariants.{Disk};

    ghost from_gives = { λ _ e. e ≡ Disk };

    fn from(_: Failed) -> Self {
        FormatFault::Disk
    }
}

impl From<Failed> for JournalFault {
    ghost use Rattle.media_journal.specs.declared.fault.JournalFault.TheVariants.{Disk};

    ghost from_gives = { λ _ e. e ≡ Disk };

    fn from(_: Failed) -> Self {
        JournalFault::Disk
    }
}

impl From<Failed> for AppendFault {
    ghost use Rattle.media_journal.specs.declared.fault.AppendFault.TheVariants.{Disk};

    ghost from_gives = { λ _ e. e ≡ Disk };

    fn from(_: Failed) -> Self {
        AppendFault::Disk
    }
}

impl From<disk_trait::Memory> for FormatFault {
    ghost use Rattle.media_journal.specs.declared.fault.FormatFault.TheVariants.{Memory};

    ghost from_gives = { λ _ e. e ≡ Memory };

    fn from(_: disk_trait::Memory) -> Self {
        FormatFault::Memory
    }
}

impl From<disk_trait::Memory> for JournalFault {
    ghost use Rattle.media_journal.specs.declared.fault.JournalFault.TheVariants.{Memory};

    ghost from_gives = { λ _ e. e ≡ Memory };

    fn from(_: disk_trait::Memory) -> Self {
        JournalFault::Memory
    }
}

impl From<AllocError> for FormatFault {
    ghost use Rattle.media_journal.specs.declared.fault.FormatFault.TheVariants.{Memory};

    ghost from_gives = { λ _ e. e ≡ Memory };

    fn from(_: AllocError) -> Self {
        FormatFault::Memory
    }
}

impl<T: Drop> From<AllocFailed<T>> for FormatFault {
    ghost use Rattle.media_journal.specs.declared.fault.FormatFault.TheVariants.{Memory};

    ghost from_gives = { λ _ e. e ≡ Memory };

    fn from(_: AllocFailed<T>) -> Self {
        FormatFault::Memory
    }
}

impl From<AllocError> for JournalFault {
    ghost use Rattle.media_journal.specs.declared.fault.JournalFault.TheVariants.{Memory};

    ghost from_gives = { λ _ e. e ≡ Memory };

    fn from(_: AllocError) -> Self {
        JournalFault::Memory
    }
}

impl<T: Drop> From<AllocFailed<T>> for JournalFault {
    ghost use Rattle.media_journal.specs.declared.fault.JournalFault.TheVariants.{Memory};

    ghost from_gives = { λ _ e. e ≡ Memory };

    fn from(_: AllocFailed<T>) -> Self {
        JournalFault::Memory
    }
}

/// Why bytes of a half were not read.
#[derive(Clone, Copy, Debug, PartialEq, Eq)]
pub(crate) enum HalfFault {
    Disk,
    Memory,
}

impl From<Failed> for HalfFault {
    ghost use Rattle.media_journal.specs.declared.fault.HalfFault.TheVariants.{Disk};

    ghost from_gives = { λ _ e. e ≡ Disk };

    fn from(_: Failed) -> Self {
        HalfFault::Disk
    }
}

impl From<AllocError> for HalfFault {
    ghost use Rattle.media_journal.specs.declared.fault.HalfFault.TheVariants.{Memory};

    ghost from_gives = { λ _ e. e ≡ Memory };

    fn from(_: AllocError) -> Self {
        HalfFault::Memory
    }
}

impl From<disk_trait::Memory> for HalfFault {
    ghost use Rattle.media_journal.specs.declared.fault.HalfFault.TheVariants.{Memory};

    ghost from_gives = { λ _ e. e ≡ Memory };

    fn from(_: disk_trait::Memory) -> Self {
        HalfFault::Memory
    }
}

impl From<HalfFault> for JournalFault {
    ghost use Rattle.media_journal.specs.Answers.{as_journal_fault};

    ghost from_gives = { λ fault e. e ≡ as_journal_fault fault };

    fn from(fault: HalfFault) -> Self {
        match fault {
            HalfFault::Disk => JournalFault::Disk,
            HalfFault::Memory => JournalFault::Memory,
        }
    }
}
