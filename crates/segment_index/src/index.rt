//! The index and its public calls.
ghost use Rattle.std.specs.Prelude.{◌≡◌, ◌+◌, ◌-◌, ◌*◌, ◌^◌, ◌≤◌, ◌++◌, [], IfOk, IsTrue, length, min, option_copied, vec_capacity, vec_len};
ghost use Rattle.std.specs.List.{list_all};
ghost use Rattle.media_rows.specs.Lists.{each_pair, rises};
ghost use Rattle.media_rows.specs.Ranges.{has_both_ends};
ghost use Rattle.media_rows.specs.Segments.{hull_of_segments};
ghost use Rattle.shared_tree.specs.Pairs.{digits, values_of};
ghost use Rattle.segment_index.specs.Answers.{Adds, are_apart_rows, begins_before, is_bounded, met_page, without_start};
ghost use Rattle.segment_index.specs.Within.Keyed.{segment_or};

use crate::AddFault;
use crate::pages::{append_falling, append_rising};
use crate::points::{first_met, first_point, first_segment, last_point, last_segment};
use disk_trait::Memory;
use media_rows::{Page, SegmentRow, range_hull};
use shared_tree::{Steps, Version};
use std::alloc::Global;
use std::marker::{Brand, Model};
use std::rc::Rc;
use std::sync::ledger::{Blank, Ledger};
use time_range::TimeRange;

/// The segments of one flow, no two of which overlap. Contracts see them by rising first point. A change
/// makes a new index and leaves this one as it is. Points are in half nanoseconds.
#[derive(Drop)]
pub struct SegmentIndex {
    rows: Version<SegmentRow>,
}

impl Model for SegmentIndex {
    ghost use Rattle.std.specs.Prelude.{List};
    ghost use Rattle.media_rows.specs.declared.segment.SegmentRow.{SegmentRow};
    ghost use Rattle.shared_tree.specs.Pairs.{values};
    ghost use Rattle.segment_index.specs.Within.Keyed.{IsIndex};

    ghost Value = { List SegmentRow };

    ghost view = { λ i. values i.rows };

    ghost invariant = { λ i. IsIndex i.rows };
}

impl SegmentIndex {
    /// An index without segments. It takes no memory.
    pub fn empty() -> SegmentIndex
        ensures { result ≡ [] }
    {
        SegmentIndex {
            rows: Version::empty(),
        }
    }

    /// The same index once more.
    pub fn share(&self) -> Result<SegmentIndex, Memory>
        ensures { IfOk result (λ index. index ≡ self.now) }
    {
        Ok(SegmentIndex {
            rows: self.rows.share()?,
        })
    }

    /// The number of segments, or the last value of a `u64` where there are more.
    pub fn len(&self) -> u64
        ensures { result ≡ min (length self.now) (2 ^ 64 - 1) }
    {
        self.rows.len()
    }

    /// The least range that covers all segments, and never where there are none.
    pub fn hull(&self) -> TimeRange
        ensures { result ≡ hull_of_segments self.now }
    {
        match first_segment::<Brand>(&self.rows, Blank::new(1)) {
            Some(first) => {
                let last = last_segment::<Brand>(&self.rows, Blank::new(1));
                range_hull(&first.segment.range, &segment_or(last, first).segment.range)
            }
            None => TimeRange::never(),
        }
    }

    /// Appends a page of the segments that have a point in a range. `out` must have room for them.
    pub fn range<'a, L: Ledger>(
        &'a self,
        range: &TimeRange,
        page: &Page,
        out: &mut Vec<&'a SegmentRow>,
        steps: &mut Steps<L>,
    )
        requires room { vec_len out.old + page.now.limit ≤ vec_capacity out.old }
        ensures page { values_of out.new.items ≡ values_of out.old.items
            ++ met_page self.now range.now page.now }
        ensures capacity { vec_capacity out.old ≤ vec_capacity out.new }
        ensures cost { steps.new ≤ steps.old + 6 * (digits (length self.now) + 1)
            + 2 * page.now.limit }
    {
        let limit = page.limit as usize;
        if page.reverse {
            append_falling(&self.rows, range, &page.after, limit, out, steps);
        } else {
            append_rising(&self.rows, range, &page.after, limit, out, steps);
        }
    }

    /// Adds a segment that is bounded at both ends. It is refused exactly where a kept one overlaps it, with
    /// the range of the first such by first point.
    pub fn add<L: Ledger>(
        &self,
        alloc: Global,
        row: Rc<SegmentRow>,
        steps: &mut Steps<L>,
    ) -> Result<SegmentIndex, AddFault>
        requires bounded { IsTrue (has_both_ends row.value.segment.range) }
        ensures answer { Adds self.now row.value result }
        ensures cost { steps.new ≤ steps.old + 6 * (digits (length self.now) + 1) }
    {
        let low = first_point(row.as_ref());
        let high = last_point(row.as_ref());
        match first_met(&self.rows, &low, &high, steps) {
            Some(kept) => Err(AddFault::Overlap(kept.segment.range)),
            None => Ok(SegmentIndex {
                rows: self.rows.with(alloc, low, row)?,
            }),
        }
    }

    /// Leaves out the segment that begins at this point, if there is one.
    pub fn remove(&self, alloc: Global, low: i128) -> Result<SegmentIndex, Memory>
        ensures { IfOk result (λ index. index ≡ without_start low self.now) }
    {
        self.rows.keys_rise();
        Ok(SegmentIndex {
            rows: self.rows.without(alloc, low)?,
        })
    }

    /// A law: segments stand by rising first point, each is bounded and has a point, and no two have one in
    /// common.
    pub fn is_in_order(&self)
        ensures starts { IsTrue (rises begins_before self.now) }
        ensures bounded { IsTrue (list_all is_bounded self.now) }
        ensures disjoint { IsTrue (each_pair are_apart_rows self.now) }
    {
        self.rows.keys_rise();
    }
}

/// A segment, or another one where there is none.
fn segment_or<'a>(row: Option<&'a SegmentRow>, other: &'a SegmentRow) -> &'a SegmentRow
    ensures { result.now ≡ segment_or (option_copied row.entry) other.now }
{
    match row {
        Some(row) => row,
        None => other,
    }
}
