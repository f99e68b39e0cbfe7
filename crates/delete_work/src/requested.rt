//! The segments on which a request works, found page by page.
ghost use Rattle.std.specs.Prelude.{◌≡◌, ◌+◌, ◌-◌, ◌<◌, ◌++◌, IfOk, IfSome, OnOk, Some, filter, length, option_map, slice_get, take};
ghost use Rattle.media_rows.specs.Requests.{step_size};
ghost use Rattle.media_rows.specs.Segments.{first_point};
ghost use Rattle.segment_index.specs.Answers.{met};
ghost use Rattle.shared_tree.specs.Pairs.{values_of};
ghost use Rattle.delete_work.specs.Within.Seeking.{ahead, is_wanted_by, left_behind};

use disk_trait::{Duplicate, Memory};
use media_rows::{DeleteRow, Page, SegmentList, SegmentRow, range_covers};
use segment_index::SegmentIndex;
use shared_tree::Steps;
use std::alloc::Global;
use std::marker::Brand;
use std::sync::ledger::{Blank, Ledger};

/// The most segments that one step removes.
pub(crate) const STEP_SIZE: usize = 32;

/// How many segments are looked at first: a request often takes one alone.
const FIRST_PAGE: usize = 2;

/// How many are looked at together behind them.
const PAGE: usize = 32;

/// The first point of a segment, or 0 where it has none.
pub(crate) fn first_point(row: &SegmentRow) -> i128
    ensures { result ≡ first_point row.now }
{
    row.segment.range.low().unwrap_or(0)
}

/// Whether a request works on a segment.
fn is_wanted(request: &DeleteRow, row: &SegmentRow) -> bool
    ensures { result ≡ is_wanted_by request.now row.now }
{
    range_covers(&request.range, &row.segment.range) && row.serial < request.serial
}

/// The first segments on which a request works: more than one step removes, where there are more.
pub(crate) fn requested<'a>(
    alloc: Global,
    index: &'a SegmentIndex,
    request: &DeleteRow,
) -> Result<Vec<&'a SegmentRow>, Memory>
    ensures { IfOk result (λ list. take (step_size + 1) (values_of list.items)
        ≡ take (step_size + 1) (filter (is_wanted_by request.now) index.now)) }
{
    let mut list = Vec::new(alloc);
    collect::<Brand>(alloc, index, request, &mut list, Blank::new(1))?;
    Ok(list)
}

/// Appends the first segments on which a request works. The steps aren't anybody's.
fn collect<'a, L: Ledger>(
    alloc: Global,
    index: &'a SegmentIndex,
    request: &DeleteRow,
    list: &mut Vec<&'a SegmentRow>,
    blank: Blank,
) -> Result<(), Memory>
    requires name { blank.name ≡ L.name }
    requires parts { blank.parts ≡ L.parts }
    requires one { 0 < L.parts }
    ensures { OnOk result (take (step_size + 1) (values_of list.new.items)
        ≡ take (step_size + 1)
        (values_of list.old.items ++ filter (is_wanted_by request.now) index.now)) }
{
    index.is_in_order();
    let mut steps = Steps::<L>::new(blank);
    let mut after = append_page(alloc, index, request, &None, FIRST_PAGE, list, &mut steps)?;
    'pages: while after.is_some() {
        if STEP_SIZE < list.len() {
            return Ok(());
        }
        after = append_page(alloc, index, request, &after, PAGE, list, &mut steps)?;
    }
    Ok(())
}

/// Appends those segments of a page of so many on which a request works. The answer is the key behind which more
/// may stand, if any may.
fn append_page<'a, L: Ledger>(
    alloc: Global,
    index: &'a SegmentIndex,
    request: &DeleteRow,
    after: &Option<i128>,
    limit: usize,
    list: &mut Vec<&'a SegmentRow>,
    steps: &mut Steps<L>,
) -> Result<Option<i128>, Memory>
    requires some { 0 < limit }
    ensures rows { IfOk result (λ next. values_of list.new.items
        ++ filter (is_wanted_by request.now) (left_behind index.now request.now next)
        ≡ values_of list.old.items
        ++ filter (is_wanted_by request.now) (ahead index.now request.now after.now)) }
    ensures fewer { IfOk result (λ next. IfSome next (λ key.
        length (ahead index.now request.now (Some key))
        < length (ahead index.now request.now after.now))) }
{
    index.is_in_order();
    let page = page_behind(alloc, index, request, after, limit, steps)?;
    append_wanted(request, &page, list)?;
    Ok(next_start(&page, limit))
}

/// The first point of the last segment of a page that has so many.
fn next_start(page: &[&SegmentRow], limit: usize) -> Option<i128>
    requires some { 0 < limit }
    ensures { result ≡ option_map first_point (slice_get (values_of page.now) (limit - 1)) }
{
    if page.len() < limit {
        return None;
    }
    Some(first_point(page[limit - 1]))
}

/// A page of so many of the segments that have a point in a request's range.
fn page_behind<'a, L: Ledger>(
    alloc: Global,
    index: &'a SegmentIndex,
    request: &DeleteRow,
    after: &Option<i128>,
    limit: usize,
    steps: &mut Steps<L>,
) -> Result<Vec<&'a SegmentRow>, Memory>
    ensures { IfOk result (λ page. values_of page.items
        ≡ take limit (ahead index.now request.now after.now)) }
{
    let mut page = Vec::with_capacity(alloc, limit)?;
    let wanted = Page {
        after: *after,
        limit: limit as u64,
        reverse: false,
    };
    index.range(&request.range, &wanted, &mut page, steps);
    Ok(page)
}

/// Appends those of some segments on which a request works.
fn append_wanted<'a>(
    request: &DeleteRow,
    page: &[&'a SegmentRow],
    list: &mut Vec<&'a SegmentRow>,
) -> Result<(), Memory>
    ensures { OnOk result (values_of list.new.items ≡ values_of list.old.items
        ++ filter (is_wanted_by request.now) (values_of page.now)) }
{
    for row in page {
        if is_wanted(request, row) {
            list.push(*row)?;
        }
    }
    Ok(())
}

/// Copies of segments.
pub(crate) fn copies(alloc: Global, rows: &[&SegmentRow]) -> Result<SegmentList, Memory>
    ensures { IfOk result (λ list. list ≡ values_of rows.now) }
{
    let mut list = SegmentList::new(alloc);
    for row in rows {
        list.push(row.duplicate(alloc)?)?;
    }
    Ok(list)
}
