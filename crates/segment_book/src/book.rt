//! The book and its public calls.
ghost use Rattle.std.specs.Prelude.{◌≡◌, ◌+◌, ◌++◌, ◌-◌, ◌<◌, ◌^◌, [], ◌∷◌, Contains, IfOk, IsTrue, None, false, length, min, option_map};
ghost use Rattle.media_rows.specs.Lists.{in_order, inserted, placed};
ghost use Rattle.media_rows.specs.Ranges.{has_both_ends};
ghost use Rattle.media_rows.specs.Refusals.{IsChange};
ghost use Rattle.media_rows.specs.Segments.{first_point, hull_of_segments, overlapping, segments_of, starts_before, without_segments};
ghost use Rattle.media_rows.specs.Snapshot.{older};
ghost use Rattle.media_rows.specs.Views.{id_key, shown_segments};
ghost use Rattle.media_rows.specs.declared.refusal.Refusal.TheVariants.{Overlap};
ghost use Rattle.shared_tree.specs.Pairs.{values_of};
ghost use Rattle.segment_index.specs.Answers.{first_met, met_page, page_of};
ghost use Rattle.segment_book.specs.Answers.{are_older, is_flow_met, is_new, meeting_refusal};
ghost use Rattle.segment_book.specs.Within.Flows.{IsIndexFault, flow_rows, with_rows_at};

use crate::pages::{rows_past, shown};
use disk_trait::Memory;
use id_index::{row_at, with_row, without_row};
use media_rows::{BookFault, Page, Refusal, SegmentFilter, SegmentRow, View};
use segment_index::{AddFault, SegmentIndex};
use shared_tree::{Steps, Version};
use std::alloc::Global;
use std::marker::{Brand, Model};
use std::rc::Rc;
use std::sync::ledger::{Blank, Ledger};
use time_range::TimeRange;

/// The segments of all flows, by rising serial. Those of one flow are looked up by first point. A change
/// makes a new book and leaves this one as it is.
#[derive(Drop)]
pub struct SegmentBook {
    /// The segments of each flow, by the flows' ids.
    pub(crate) flows: Version<SegmentIndex>,
    /// How many segments there are.
    count: u64,
}

impl Model for SegmentBook {
    ghost use Rattle.std.specs.Prelude.{List};
    ghost use Rattle.media_rows.specs.declared.segment.SegmentRow.{SegmentRow};
    ghost use Rattle.segment_book.specs.Within.Flows.{AreCountedFlows, segments_in_flows};

    ghost Value = { List SegmentRow };

    ghost view = { λ b. segments_in_flows b.flows };

    ghost invariant = { λ b. AreCountedFlows b.flows b.count };
}

impl SegmentBook {
    /// A book without segments. It takes no memory.
    pub fn empty() -> SegmentBook
        ensures { result ≡ [] }
    {
        SegmentBook {
            flows: Version::empty(),
            count: 0,
        }
    }

    /// The same book once more.
    pub fn share(&self) -> Result<SegmentBook, Memory>
        ensures { IfOk result (λ book. book ≡ self.now) }
    {
        Ok(SegmentBook {
            flows: self.flows.share()?,
            count: self.count,
        })
    }

    /// The number of segments.
    pub fn len(&self) -> u64
        ensures { result ≡ length self.now }
    {
        self.count
    }

    /// The least range that covers all segments of a flow, and never where there are none.
    pub fn hull(&self, flow: u128) -> TimeRange
        ensures { result ≡ hull_of_segments (segments_of flow self.now) }
    {
        self.flows.keys_rise();
        match row_at(&self.flows, flow) {
            Some(index) => index.hull(),
            None => TimeRange::never(),
        }
    }

    /// The number of segments of a flow, or the last value of a `u64` where there are more.
    pub fn flow_len(&self, flow: u128) -> u64
        ensures { result ≡ min (length (segments_of flow self.now)) (2 ^ 64 - 1) }
    {
        self.flows.keys_rise();
        match row_at(&self.flows, flow) {
            Some(index) => index.len(),
            None => 0,
        }
    }

    /// Whether a segment of a flow has a point in a range.
    pub fn is_met(&self, alloc: Global, flow: u128, range: &TimeRange) -> Result<bool, Memory>
        ensures { IfOk result (λ met. met ≡ is_flow_met self.now flow range.now) }
    {
        self.flows.keys_rise();
        match row_at(&self.flows, flow) {
            Some(index) => {
                let rows = met_rows::<Brand>(alloc, index, range, 1, Blank::new(1))?;
                Ok(!rows.is_empty())
            }
            None => Ok(false),
        }
    }

    /// The segments of a flow by first point, as an index of their own.
    pub fn index(&self, flow: u128) -> Result<SegmentIndex, Memory>
        ensures { IfOk result
            (λ index. index ≡ in_order starts_before (segments_of flow self.now)) }
    {
        self.flows.keys_rise();
        index_of(&self.flows, flow)
    }

    /// A page of the segments of a flow that have a point in a range and name an object, where one is asked for.
    /// Where one is, all of the flow's segments in the range are looked at.
    pub fn page(
        &self,
        alloc: Global,
        flow: u128,
        wanted: &SegmentFilter,
        page: &Page,
    ) -> Result<View, Memory>
        ensures { IfOk result (λ view. view ≡ shown_segments page.now
            (overlapping self.now flow wanted.now.range wanted.now.object)) }
    {
        self.flows.keys_rise();
        let index = index_of(&self.flows, flow)?;
        let rows = rows_past::<Brand>(alloc, &index, wanted, page, Blank::new(1))?;
        shown(alloc, &rows, page.limit)
    }

    /// Adds a segment that is bounded at both ends, with a serial of its own. It is refused as `Overlap`
    /// exactly where a segment of its flow overlaps it, with the range of the first such by first point.
    pub fn insert(&self, alloc: Global, row: SegmentRow) -> Result<SegmentBook, BookFault>
        requires bounded { IsTrue (has_both_ends row.segment.range) }
        requires new { IsTrue (is_new self.now row) }
        ensures { IsChange (meeting_refusal self.now row) (inserted older row self.now) result }
    {
        self.flows.keys_rise();
        let count = one_more(self.count)?;
        let flow = row.flow;
        let old = index_of(&self.flows, flow)?;
        match added::<Brand>(alloc, &old, row, Blank::new(1)) {
            Ok(next) => {
                next.is_in_order();
                Ok(SegmentBook {
                    flows: with_row(alloc, &self.flows, flow, next)?,
                    count,
                })
            }
            Err(fault) => Err(fault),
        }
    }

    /// Adds a segment that is bounded at both ends, with a serial above all others: it stands last. It is
    /// refused as `insert` does.
    pub fn add(&self, alloc: Global, row: SegmentRow) -> Result<SegmentBook, BookFault>
        requires bounded { IsTrue (has_both_ends row.segment.range) }
        requires above { IsTrue (are_older self.now row) }
        ensures { IsChange (meeting_refusal self.now row) (self.now ++ row ∷ []) result }
    {
        self.insert(alloc, row)
    }

    /// Leaves out a segment that is kept.
    pub fn remove(&self, alloc: Global, row: &SegmentRow) -> Result<SegmentBook, Memory>
        requires there { Contains self.now row.now }
        ensures { IfOk result (λ book. book ≡ without_segments (row.now ∷ []) self.now) }
    {
        self.flows.keys_rise();
        let index = index_of(&self.flows, row.flow)?.remove(alloc, first_point(row))?;
        index.is_in_order();
        Ok(SegmentBook {
            flows: with_index(alloc, &self.flows, row.flow, index)?,
            count: self.count.saturating_sub(1),
        })
    }
}

/// The first point of a segment, in half nanoseconds.
pub(crate) fn first_point(row: &SegmentRow) -> i128
    ensures { result ≡ first_point row.now }
{
    row.segment.range.low().unwrap_or(0)
}

/// The segments of each flow with these of one, where nothing stands for none.
fn with_index(
    alloc: Global,
    flows: &Version<SegmentIndex>,
    flow: u128,
    index: SegmentIndex,
) -> Result<Version<SegmentIndex>, Memory>
    ensures { IfOk result (λ next. next ≡ with_rows_at (id_key flow) index flows.now) }
{
    if index.len() == 0 {
        without_row(alloc, flows, flow)
    } else {
        with_row(alloc, flows, flow, index)
    }
}

/// How many segments there are with one more. A full count is want of memory.
fn one_more(count: u64) -> Result<u64, Memory>
    ensures { IfOk result (λ more. more ≡ count + 1) }
{
    count.checked_add(1).ok_or(Memory)
}

/// The segments of a flow.
fn index_of(flows: &Version<SegmentIndex>, flow: u128) -> Result<SegmentIndex, Memory>
    ensures { IfOk result (λ index. index ≡ flow_rows flow flows.now) }
{
    match row_at(flows, flow) {
        Some(index) => index.share(),
        None => Ok(SegmentIndex::empty()),
    }
}

/// The first segments of an index that have a point in a range. The steps aren't anybody's.
fn met_rows<'a, L: Ledger>(
    alloc: Global,
    index: &'a SegmentIndex,
    range: &TimeRange,
    limit: usize,
    blank: Blank,
) -> Result<Vec<&'a SegmentRow>, Memory>
    requires name { blank.name ≡ L.name }
    requires parts { blank.parts ≡ L.parts }
    requires one { 0 < L.parts }
    ensures { IfOk result (λ rows. values_of rows.items
        ≡ met_page index.now range.now (page_of None limit false)) }
{
    let mut steps = Steps::<L>::new(blank);
    let mut rows = Vec::with_capacity(alloc, limit)?;
    let page = Page {
        after: None,
        limit: limit as u64,
        reverse: false,
    };
    index.range(range, &page, &mut rows, &mut steps);
    Ok(rows)
}

/// A segment behind a count of its owners.
fn kept(alloc: Global, row: SegmentRow) -> Result<Rc<SegmentRow>, Memory>
    ensures { IfOk result (λ kept. kept.value ≡ row) }
{
    Ok(Rc::new(alloc, row)?)
}

/// The segments of a flow with one more. The steps aren't anybody's.
fn added<L: Ledger>(
    alloc: Global,
    index: &SegmentIndex,
    row: SegmentRow,
    blank: Blank,
) -> Result<SegmentIndex, BookFault>
    requires name { blank.name ≡ L.name }
    requires parts { blank.parts ≡ L.parts }
    requires one { 0 < L.parts }
    requires bounded { IsTrue (has_both_ends row.segment.range) }
    ensures { IsChange (option_map Overlap (first_met index.now row.segment.range))
        (placed starts_before row index.now) result }
{
    let mut steps = Steps::<L>::new(blank);
    match index.add(alloc, kept(alloc, row)?, &mut steps) {
        Ok(next) => Ok(next),
        Err(fault) => Err(book_fault(&fault)),
    }
}

/// The fault of an index as one of a book.
fn book_fault(fault: &AddFault) -> BookFault
    ensures { IsIndexFault fault.now result }
{
    match fault {
        AddFault::Overlap(range) => BookFault::Refused(Refusal::Overlap(*range)),
        AddFault::Memory => BookFault::Memory,
    }
}
