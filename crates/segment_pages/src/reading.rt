//! One page of segments after another.
ghost use Rattle.std.specs.Prelude.{◌≡◌, ◌≤◌, ◌+◌, ◌-◌, IfErr, IfOk, IsSome, None, OnOk, length};
ghost use Rattle.media_rows.specs.Catalog.{flow_of};
ghost use Rattle.segment_pages.specs.Pages.{AreApart, AreApartRanges, IsPageOf, IsRead, RefusesFlow, point_at, question_of};

use library_laws::{pages_have_all, range_answer_is_in_order};
use media_rows::{BookFault, Page, Query, Reply, SegmentFilter, SegmentList, View, range_overlaps};
use std::alloc::Global;
use store_core::Core;
use time_range::TimeRange;

/// The most segments of a page.
pub const MOST_SEGMENTS: u64 = 1_000;

/// Some segments of a flow, by rising first point: the first `count` of these rows. Behind the point `next`, in half
/// nanoseconds, further ones are left to be read; where it is `None`, none is.
#[derive(Drop)]
pub struct SegmentsRead {
    pub rows: SegmentList,
    pub count: usize,
    pub next: Option<i128>,
}

/// Reads some segments of a flow that overlap a range, those of least first point behind `after`: at most as many as a
/// page has, and at least one where one is left. `NoFlow` comes exactly where the flow isn't kept.
pub fn read_segments(
    alloc: Global,
    core: &Core,
    flow: u128,
    range: &TimeRange,
    after: Option<i128>,
) -> Result<SegmentsRead, BookFault>
    ensures read { IfOk result (IsRead core.now.library flow range.now after) }
    ensures kept { OnOk result (IsSome (flow_of flow core.now.library.catalog.flows)) }
    ensures refused { IfErr result (RefusesFlow core.now.library flow) }
{
    core.keeps_good();
    range_answer_is_in_order();
    pages_have_all();
    let (rows, next) = page_behind(alloc, core, flow, range, after)?;
    match next {
        None => Ok(all_of(rows)),
        Some(_) => Ok(all_but_one(rows)),
    }
}

/// A page of segments, and the point of its last one where further ones are left.
fn page_behind(
    alloc: Global,
    core: &Core,
    flow: u128,
    range: &TimeRange,
    after: Option<i128>,
) -> Result<(SegmentList, Option<i128>), BookFault>
    ensures page { IfOk result (λ page. IsPageOf core.now.library flow range.now after page.0 page.1) }
    ensures refused { IfErr result (RefusesFlow core.now.library flow) }
{
    match core.query(alloc, &question_of(flow, range, after))? {
        Reply::Shown(View::Segments(rows, next)) => Ok((rows, next)),
        _ => unreachable!(),
    }
}

/// The question for a page of segments.
fn question_of(flow: u128, range: &TimeRange, after: Option<i128>) -> Query
    ensures { result ≡ question_of flow range.now after }
{
    let wanted = SegmentFilter {
        range: *range,
        object: None,
    };
    let page = Page {
        after,
        limit: MOST_SEGMENTS,
        reverse: false,
    };
    Query::Segments(flow, wanted, page)
}

/// All segments of a page, behind which none is left.
fn all_of(rows: SegmentList) -> SegmentsRead
    ensures { result ≡ record { rows = rows; count = length rows; next = None } }
{
    let count = rows.items().len();
    SegmentsRead {
        rows,
        count,
        next: None,
    }
}

/// The segments of a page but its last one, which is read again: so it is known to begin behind the one before it.
fn all_but_one(rows: SegmentList) -> SegmentsRead
    requires two { 2 ≤ length rows }
    ensures rows { result.rows ≡ rows }
    ensures count { result.count + 1 ≡ length rows }
    ensures next { result.next ≡ point_at rows (length rows - 2) }
    ensures apart { AreApart rows (length rows - 2) }
{
    let items = rows.items();
    let count = items.len() - 1;
    let last = &items[count - 1].segment.range;
    let further = &items[count].segment.range;
    ranges_are_apart(last, further);
    let next = last.low();
    SegmentsRead { rows, count, next }
}

/// Ranges that don't overlap begin at two points, which is told to callers here. It does nothing.
fn ranges_are_apart(first: &TimeRange, second: &TimeRange)
    ensures { AreApartRanges first.now second.now }
{
    // Each call tells its part.
    let _first = first.low();
    let _second = second.low();
    let _overlap = range_overlaps(first, second);
}
