//! Events: what changes make happen, and what waits for a hook.
ghost use Rattle.std.specs.Prelude.{◌≡◌};
ghost use Rattle.media_rows.specs.Formats.{event_number};

use disk_trait::{Duplicate, Listed, Memory};
use std::alloc::Global;
use time_range::TimeRange;

/// What happened to a flow or a source.
#[derive(Clone, Copy, Debug, PartialEq, Eq)]
pub enum EventKind {
    FlowCreated,
    FlowUpdated,
    FlowDeleted,
    SegmentsAdded,
    SegmentsDeleted,
    SourceCreated,
    SourceUpdated,
    SourceDeleted,
}

pub type EventList = Listed<EventKind>;

impl EventKind {
    /// The number of the event in the file: 1 to 8.
    pub fn number(self) -> u8
        ensures { result ≡ event_number self }
    {
        match self {
            EventKind::FlowCreated => 1,
            EventKind::FlowUpdated => 2,
            EventKind::FlowDeleted => 3,
            EventKind::SegmentsAdded => 4,
            EventKind::SegmentsDeleted => 5,
            EventKind::SourceCreated => 6,
            EventKind::SourceUpdated => 7,
            EventKind::SourceDeleted => 8,
        }
    }
}

/// An event that waits for its hook. `hook` is the hook's serial, `subject` the id of a flow or a
/// source, `range` the hull of the segments that were added or deleted.
#[derive(Clone, Copy, Debug, PartialEq, Eq)]
pub struct EventRow {
    pub serial: u64,
    pub hook: u64,
    pub kind: EventKind,
    pub subject: u128,
    pub range: Option<TimeRange>,
    pub moment: u64,
}

pub type EventRowList = Listed<EventRow>;

/// Something that happened in a change, before it goes to hooks. `source` is the flow's source, or
/// the subject itself for an event of a source.
#[derive(Clone, Copy, Debug, PartialEq, Eq)]
pub struct Happened {
    pub kind: EventKind,
    pub subject: u128,
    pub source: u128,
    pub range: Option<TimeRange>,
}

pub type HappenedList = Listed<Happened>;

impl Duplicate for EventKind {
    fn duplicate(&self, _alloc: Global) -> Result<Self, Memory> {
        Ok(*self)
    }
}

impl Duplicate for EventRow {
    fn duplicate(&self, _alloc: Global) -> Result<Self, Memory> {
        Ok(*self)
    }
}

impl Duplicate for Happened {
    fn duplicate(&self, _alloc: Global) -> Result<Self, Memory> {
        Ok(*self)
    }
}
