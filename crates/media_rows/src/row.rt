//! Rows of a snapshot: each kept thing, and the next serial.
use crate::event::EventRow;
use crate::flow::FlowRow;
use crate::hook::HookRow;
use crate::object::ObjectRow;
use crate::request::DeleteRow;
use crate::segment::SegmentRow;
use crate::source::SourceRow;
use disk_trait::{Duplicate, Listed, Memory};
use std::alloc::Global;

/// One row of a snapshot.
#[derive(Drop)]
pub enum Row {
    Source(SourceRow),
    Flow(FlowRow),
    Object(ObjectRow),
    Segment(SegmentRow),
    Request(DeleteRow),
    Hook(HookRow),
    Event(EventRow),
    Numbers { next_serial: u64 },
}

pub type RowList = Listed<Row>;

impl Duplicate for Row {
    fn duplicate(&self, alloc: Global) -> Result<Self, Memory> {
        match self {
            Row::Source(row) => Ok(Row::Source(row.duplicate(alloc)?)),
            Row::Flow(row) => Ok(Row::Flow(row.duplicate(alloc)?)),
            Row::Object(row) => Ok(Row::Object(row.duplicate(alloc)?)),
            Row::Segment(row) => Ok(Row::Segment(row.duplicate(alloc)?)),
            Row::Request(row) => Ok(Row::Request(*row)),
            Row::Hook(row) => Ok(Row::Hook(row.duplicate(alloc)?)),
            Row::Event(row) => Ok(Row::Event(*row)),
            Row::Numbers { next_serial } => Ok(Row::Numbers {
                next_serial: *next_serial,
            }),
        }
    }
}
