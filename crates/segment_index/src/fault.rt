//! Why a segment isn't added.
ghost use Rattle.std.specs.Prelude.{◌≡◌};

use disk_trait::Memory;
use time_range::TimeRange;

/// What adding a segment answers but the new index.
#[derive(Clone, Copy, Debug, PartialEq, Eq)]
pub enum AddFault {
    /// It overlaps a kept segment: the range of the first such by first point.
    Overlap(TimeRange),
    /// There was no memory.
    Memory,
}

impl From<Memory> for AddFault {
    ghost use Rattle.segment_index.specs.declared.fault.AddFault.TheVariants.{Memory};

    ghost from_gives = { λ _ e. e ≡ Memory };

    fn from(_: Memory) -> Self {
        AddFault::Memory
    }
}
