//! Why a text gives no rows.
ghost use Rattle.std.specs.Prelude.{◌≡◌};

use disk_trait::Memory;

/// Why a text gives no rows.
#[derive(Debug, Drop, PartialEq, Eq)]
pub enum RowsFault {
    /// The offset of the first row that is no spelling, or that doesn't stand behind the row before it.
    Damaged(u64),
    /// There was no memory for the rows.
    Memory,
}

impl From<Memory> for RowsFault {
    ghost use Rattle.snapshot_rows.specs.declared.fault.RowsFault.TheVariants.{Memory};

    ghost from_gives = { λ _ e. e ≡ Memory };

    fn from(_: Memory) -> RowsFault {
        RowsFault::Memory
    }
}
