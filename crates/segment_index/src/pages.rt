//! Pages of the segments that have a point in a range, by rising or by falling first points.
ghost use Rattle.std.specs.Prelude.{◌≡◌, ◌+◌, ◌*◌, ◌<◌, ◌≤◌, ◌++◌, ℤ, drop, filter, false, int_le, length, take, take_while, true, vec_capacity, vec_len};
ghost use Rattle.std.specs.List.{prefix_len};
ghost use Rattle.media_rows.specs.Lists.{is_past};
ghost use Rattle.shared_tree.specs.Pairs.{digits, is_up_to, last, values, values_of};
ghost use Rattle.segment_index.specs.Answers.{is_met, met_page, page_of};
ghost use Rattle.segment_index.specs.Within.Keyed.{IsIndex};
ghost use Rattle.segment_index.specs.Within.Walks.{StartsPage, IsInner, StartsReverse, walk_start};

use crate::points::{is_by, last_point};
use media_rows::{SegmentRow, range_overlaps};
use shared_tree::{Steps, Version};
use std::sync::ledger::Ledger;
use time_range::TimeRange;

/// The point behind a page's key, from which its segments begin. None begins at the greatest point.
fn point_behind(after: &Option<i128>) -> i128
    ensures { (p : ℤ) → IsInner p → int_le result p ≡ is_past after.now false p }
{
    match after {
        Some(key) => key.saturating_add(1),
        None => i128::MIN,
    }
}

/// The point before the key of a page in reverse. No segment begins at the least point.
fn point_before(after: &Option<i128>) -> i128
    ensures { (p : ℤ) → IsInner p → int_le p result ≡ is_past after.now true p }
{
    match after {
        Some(key) => key.saturating_sub(1),
        None => i128::MAX,
    }
}

/// The point from which on all segments reach a point: the first point of the last one that begins up to it,
/// where that reaches it.
fn first_reaching<L: Ledger>(rows: &Version<SegmentRow>, point: &i128, steps: &mut Steps<L>) -> i128
    ensures start { result ≡ walk_start point.now (last (filter (is_up_to point.now) rows.now)) }
    ensures cost { steps.new ≤ steps.old + 2 * digits (length rows.now) }
{
    let Some((start, kept)) = rows.at_or_before(*point, steps) else {
        return *point;
    };
    let end = last_point(kept);
    if is_by(point, &end) { start } else { *point }
}

/// Where the walk for a page begins.
fn first_key<L: Ledger>(
    rows: &Version<SegmentRow>,
    range: &TimeRange,
    after: &Option<i128>,
    steps: &mut Steps<L>,
) -> i128
    requires kept { IsIndex rows.now }
    ensures first { StartsPage range.now after.now result rows.now }
    ensures cost { steps.new ≤ steps.old + 2 * digits (length rows.now) }
{
    rows.keys_rise();
    let behind = point_behind(after);
    match range.low() {
        Some(low) => behind.max(first_reaching(rows, &low, steps)),
        None => behind,
    }
}

/// Where the walk for a page in reverse begins.
fn last_key(rows: &Version<SegmentRow>, range: &TimeRange, after: &Option<i128>) -> i128
    requires kept { IsIndex rows.now }
    ensures { StartsReverse range.now after.now result rows.now }
{
    let before = point_before(after);
    match range.high() {
        Some(high) => before.min(high),
        None => before,
    }
}

/// How many segments from the first on have a point in the range.
fn leading_met(range: &TimeRange, rows: &[&SegmentRow]) -> usize
    ensures value { result ≡ prefix_len (λ r. is_met range.now r.now) rows.now }
    ensures within { result ≤ length rows.now }
{
    rows.iter()
        .take_while(|row| range_overlaps(&row.segment.range, range))
        .count()
}

/// Leaves out, from a place on, the first segment that has no point in the range, and all behind it.
fn keep_met(range: &TimeRange, start: usize, out: &mut Vec<&SegmentRow>)
    requires { start ≤ vec_len out.old }
    ensures rows { values_of out.new.items ≡ take start (values_of out.old.items)
        ++ take_while (is_met range.now) (drop start (values_of out.old.items)) }
    ensures capacity { vec_capacity out.new ≡ vec_capacity out.old }
{
    let met = leading_met(range, &out[start..]);
    out.truncate(start + met);
}

/// Appends a page by rising first points: a walk from its key up to the first segment that has no point in the
/// range.
pub(crate) fn append_rising<'a, L: Ledger>(
    rows: &'a Version<SegmentRow>,
    range: &TimeRange,
    after: &Option<i128>,
    limit: usize,
    out: &mut Vec<&'a SegmentRow>,
    steps: &mut Steps<L>,
)
    requires kept { IsIndex rows.now }
    requires room { vec_len out.old + limit ≤ vec_capacity out.old }
    ensures page { values_of out.new.items ≡ values_of out.old.items
        ++ met_page (values rows.now) range.now (page_of after.now limit false) }
    ensures capacity { vec_capacity out.old ≤ vec_capacity out.new }
    ensures cost { steps.new ≤ steps.old + 6 * digits (length rows.now) + limit }
{
    rows.keys_rise();
    let key = first_key(rows, range, after, steps);
    let start = out.len();
    rows.walk_from(key, limit, out, steps);
    keep_met(range, start, out);
}

/// Appends a page by falling first points, likewise.
pub(crate) fn append_falling<'a, L: Ledger>(
    rows: &'a Version<SegmentRow>,
    range: &TimeRange,
    after: &Option<i128>,
    limit: usize,
    out: &mut Vec<&'a SegmentRow>,
    steps: &mut Steps<L>,
)
    requires kept { IsIndex rows.now }
    requires room { vec_len out.old + limit ≤ vec_capacity out.old }
    ensures page { values_of out.new.items ≡ values_of out.old.items
        ++ met_page (values rows.now) range.now (page_of after.now limit true) }
    ensures capacity { vec_capacity out.old ≤ vec_capacity out.new }
    ensures cost { steps.new ≤ steps.old + 4 * digits (length rows.now) + limit }
{
    let key = last_key(rows, range, after);
    let start = out.len();
    rows.walk_back_from(key, limit, out, steps);
    keep_met(range, start, out);
}
