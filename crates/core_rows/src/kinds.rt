//! Rows by their kinds.
ghost use Rattle.std.specs.Prelude.{◌≡◌, IfOk, OnOk};
ghost use Rattle.core_rows.specs.Kinds.{joined, kind_of, kinds_of, no_kinds};

use disk_trait::{Duplicate, Memory};
use media_rows::{
    DeleteList, EventRowList, FlowList, HookList, ObjectList, Row, RowList, SegmentList, SourceList,
};
use std::alloc::Global;
use std::marker::Model;

/// The rows of each kind, in their order, and the next serial, where a row has it.
#[derive(Drop)]
pub struct Kinds {
    pub sources: SourceList,
    pub flows: FlowList,
    pub objects: ObjectList,
    pub segments: SegmentList,
    pub requests: DeleteList,
    pub hooks: HookList,
    pub events: EventRowList,
    pub next_serial: Option<u64>,
}

impl Model for Kinds {
    ghost use Rattle.core_rows.specs.Kinds as seen;

    ghost Value = { seen.Kinds };

    ghost view = { λ k. record {
      sources = k.sources;
      flows = k.flows;
      objects = k.objects;
      segments = k.segments;
      requests = k.requests;
      hooks = k.hooks;
      events = k.events;
      next_serial = k.next_serial;
    } };
}

/// Copies of rows, parted by their kinds.
pub fn part_rows(alloc: Global, rows: &RowList) -> Result<Kinds, Memory>
    ensures { IfOk result (λ kinds. kinds ≡ kinds_of rows.now) }
{
    let mut kinds = Kinds::empty(alloc);
    for row in rows.items() {
        kinds.add(alloc, row)?;
    }
    Ok(kinds)
}

impl Kinds {
    fn empty(alloc: Global) -> Kinds
        ensures { result ≡ no_kinds }
    {
        Kinds {
            sources: SourceList::new(alloc),
            flows: FlowList::new(alloc),
            objects: ObjectList::new(alloc),
            segments: SegmentList::new(alloc),
            requests: DeleteList::new(alloc),
            hooks: HookList::new(alloc),
            events: EventRowList::new(alloc),
            next_serial: None,
        }
    }

    /// Adds a copy of a row behind those of its kind. Of next serials the first one stays.
    fn add(&mut self, alloc: Global, row: &Row) -> Result<(), Memory>
        ensures { OnOk result (self.new ≡ joined self.old (kind_of row.now)) }
    {
        match row {
            Row::Source(row) => self.sources.push(row.duplicate(alloc)?),
            Row::Flow(row) => self.flows.push(row.duplicate(alloc)?),
            Row::Object(row) => self.objects.push(row.duplicate(alloc)?),
            Row::Segment(row) => self.segments.push(row.duplicate(alloc)?),
            Row::Request(row) => self.requests.push(row.duplicate(alloc)?),
            Row::Hook(row) => self.hooks.push(row.duplicate(alloc)?),
            Row::Event(row) => self.events.push(row.duplicate(alloc)?),
            Row::Numbers { next_serial } => {
                self.next_serial = self.next_serial.or(Some(*next_serial));
                Ok(())
            }
        }
    }
}
