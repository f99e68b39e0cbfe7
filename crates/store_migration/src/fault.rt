//! What keeps a store from being migrated.
ghost use Rattle.std.specs.Prelude.{◌≡◌};

use disk_trait::{Failed, Memory};
use media_journal::{AppendFault, JournalFault};

/// What keeps a store from being migrated.
#[derive(Clone, Copy, Debug, PartialEq, Eq)]
pub enum MigrateFault {
    /// The file is no store.
    NotStore,
    /// The file stands for no library from this offset on, in bytes.
    Damaged(u64),
    /// It stands for a library in the form in use already.
    NotOld,
    /// The rows of its library in the form in use have no room in a half.
    Full,
    /// A call of the disk failed.
    Disk,
    /// There was no memory, and nothing has changed.
    Memory,
}

/// What keeps the rows of a library with digests from being made.
#[derive(Clone, Copy, Debug, PartialEq, Eq)]
pub(crate) enum RowsFault {
    /// A read of the disk failed.
    Disk,
    /// There was no memory.
    Memory,
}

impl From<JournalFault> for MigrateFault {
    ghost use Rattle.store_migration.specs.Within.{opening_fault};

    ghost from_gives = { λ fault e. e ≡ opening_fault fault };

    fn from(fault: JournalFault) -> Self {
        match fault {
            JournalFault::NotStore => MigrateFault::NotStore,
            JournalFault::Damaged(at) => MigrateFault::Damaged(at),
            JournalFault::OldForm => MigrateFault::NotOld,
            JournalFault::Disk => MigrateFault::Disk,
            JournalFault::Memory => MigrateFault::Memory,
        }
    }
}

impl From<AppendFault> for MigrateFault {
    ghost use Rattle.store_migration.specs.Within.{writing_fault};

    ghost from_gives = { λ fault e. e ≡ writing_fault fault };

    fn from(fault: AppendFault) -> Self {
        match fault {
            AppendFault::Full => MigrateFault::Full,
            AppendFault::Disk => MigrateFault::Disk,
        }
    }
}

impl From<RowsFault> for MigrateFault {
    ghost use Rattle.store_migration.specs.Within.{rows_fault};

    ghost from_gives = { λ fault e. e ≡ rows_fault fault };

    fn from(fault: RowsFault) -> Self {
        match fault {
            RowsFault::Disk => MigrateFault::Disk,
            RowsFault::Memory => MigrateFault::Memory,
        }
    }
}

impl From<Memory> for MigrateFault {
    ghost use Rattle.store_migration.specs.declared.fault.MigrateFault.TheVariants as faults;

    ghost from_gives = { λ _ e. e ≡ faults.Memory };

    fn from(_: Memory) -> Self {
        MigrateFault::Memory
    }
}

impl From<Failed> for RowsFault {
    ghost use Rattle.store_migration.specs.declared.fault.RowsFault.TheVariants as rows;

    ghost from_gives = { λ _ e. e ≡ rows.Disk };

    fn from(_: Failed) -> Self {
        RowsFault::Disk
    }
}

impl From<Memory> for RowsFault {
    ghost use Rattle.store_migration.specs.declared.fault.RowsFault.TheVariants as rows;

    ghost from_gives = { λ _ e. e ≡ rows.Memory };

    fn from(_: Memory) -> Self {
        RowsFault::Memory
    }
}
