//! What keeps a store from answering.
ghost use Rattle.std.specs.Prelude.{◌≡◌};

use disk_trait::{Failed, Memory};

/// What keeps a store from answering.
#[derive(Clone, Copy, Debug, PartialEq, Eq)]
pub enum StoreFault {
    /// A call of the disk failed. The store is spent, and must be opened again.
    Disk,
    /// There was no memory, and nothing has changed.
    Memory,
}

impl From<Failed> for StoreFault {
    ghost use Rattle.media_store.specs.declared.fault.StoreFault.TheVariants as faults;

    ghost from_gives = { λ _ e. e ≡ faults.Disk };

    fn from(_: Failed) -> Self {
        StoreFault::Disk
    }
}

impl From<Memory> for StoreFault {
    ghost use Rattle.media_store.specs.declared.fault.StoreFault.TheVariants as faults;

    ghost from_gives = { λ _ e. e ≡ faults.Memory };

    fn from(_: Memory) -> Self {
        StoreFault::Memory
    }
}
