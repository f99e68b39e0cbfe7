//! Why there is no edit.
ghost use Rattle.std.specs.Prelude.{◌≡◌};

use disk_trait::Memory;

/// Why a list isn't read, or a flow isn't cut by it. Records are counted from 1, which is the head; 0 is the target.
#[derive(Clone, Copy, Debug, PartialEq, Eq)]
pub enum EditFault {
    /// The list has more than 1,048,576 bytes.
    TooLong,
    /// This record isn't the head, or hasn't the three fields of a row, or its id can't be read.
    BadRow(u64),
    /// This record's range isn't one with both ends, or is never, or its timestamp can't be read.
    BadTime(u64),
    /// This record's flow, or the target, isn't kept.
    NoFlow(u64),
    /// This record's flow is of another format than the target.
    FormatDiffers(u64),
    /// What this record cuts out would come to stand past the limit of timestamps, or of the numbers of samples.
    TooFar(u64),
    /// This record's range would come to stand over that of an earlier one.
    RowsOverlap(u64),
    /// This record's range would come to stand over a segment of the target.
    Occupied(u64),
    /// This record cuts a segment of a flow without a rate.
    NoRate(u64),
    /// There would be more than 1,000 segments.
    TooMany,
    Memory,
}

impl From<Memory> for EditFault {
    ghost use Rattle.range_edit.specs.declared.fault.EditFault.TheVariants.{Memory};

    ghost from_gives = { λ _ e. e ≡ Memory };

    fn from(_: Memory) -> Self {
        EditFault::Memory
    }
}
