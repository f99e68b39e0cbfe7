//! Segments as lists: those of a flow, and all of them.
ghost use Rattle.std.specs.Prelude.{◌≡◌, ◌<◌, ◌++◌, IfOk, OnOk};
ghost use Rattle.media_rows.specs.Lists.{in_order};
ghost use Rattle.media_rows.specs.Segments.{segments_of, starts_before};
ghost use Rattle.media_rows.specs.Snapshot.{segment_row_before};
ghost use Rattle.shared_tree.specs.Pairs.{values_of};
ghost use Rattle.segment_book.specs.Within.Flows.{rows_joined};

use crate::SegmentBook;
use crate::pages::few;
use disk_trait::{Duplicate, Memory};
use id_index::all_rows;
use media_rows::{Page, SegmentList, SegmentRow};
use segment_index::SegmentIndex;
use shared_tree::Steps;
use std::alloc::Global;
use std::marker::Brand;
use std::sync::ledger::{Blank, Ledger};
use time_range::TimeRange;

impl SegmentBook {
    /// The segments of a flow by rising first point.
    pub fn flow_rows(&self, alloc: Global, flow: u128) -> Result<SegmentList, Memory>
        ensures { IfOk result
            (λ list. list ≡ in_order starts_before (segments_of flow self.now)) }
    {
        let index = self.index(flow)?;
        let mut list = SegmentList::new(alloc);
        append_rows::<Brand>(alloc, &index, &mut list, Blank::new(1))?;
        Ok(list)
    }

    /// All segments as a snapshot has them: by flow, and those of a flow by rising first point.
    pub fn list(&self, alloc: Global) -> Result<SegmentList, Memory>
        ensures { IfOk result (λ list. list ≡ in_order segment_row_before self.now) }
    {
        self.flows.keys_rise();
        let flows = all_rows(alloc, &self.flows)?;
        let mut list = SegmentList::new(alloc);
        append_flows(alloc, &flows, &mut list)?;
        Ok(list)
    }
}

/// Appends the segments of indexes, one after the other.
fn append_flows(
    alloc: Global,
    flows: &[&SegmentIndex],
    list: &mut SegmentList,
) -> Result<(), Memory>
    ensures { OnOk result (list.new ≡ list.old ++ rows_joined (values_of flows.now)) }
{
    for index in flows {
        append_rows::<Brand>(alloc, *index, list, Blank::new(1))?;
    }
    Ok(())
}

/// Appends all segments of an index. The steps aren't anybody's.
fn append_rows<L: Ledger>(
    alloc: Global,
    index: &SegmentIndex,
    list: &mut SegmentList,
    blank: Blank,
) -> Result<(), Memory>
    requires name { blank.name ≡ L.name }
    requires parts { blank.parts ≡ L.parts }
    requires one { 0 < L.parts }
    ensures { OnOk result (list.new ≡ list.old ++ index.now) }
{
    index.is_in_order();
    let count = few(index)?;
    let mut steps = Steps::<L>::new(blank);
    let mut rows = Vec::with_capacity(alloc, count as usize)?;
    let all = TimeRange::eternity();
    let page = Page {
        after: None,
        limit: count,
        reverse: false,
    };
    index.range(&all, &page, &mut rows, &mut steps);
    append_copies(alloc, &rows, list)
}

/// Appends these segments.
fn append_copies(alloc: Global, rows: &[&SegmentRow], list: &mut SegmentList) -> Result<(), Memory>
    ensures { OnOk result (list.new ≡ list.old ++ values_of rows.now) }
{
    for row in rows {
        list.push(row.duplicate(alloc)?)?;
    }
    Ok(())
}
