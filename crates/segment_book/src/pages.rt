//! Pages of a flow's segments.
ghost use Rattle.std.specs.Prelude.{◌≡◌, ◌<◌, IfOk, filter, length, take};
ghost use Rattle.media_rows.specs.Lists.{items_past, last_key};
ghost use Rattle.media_rows.specs.Segments.{first_point, names_object};
ghost use Rattle.shared_tree.specs.Pairs.{values_of};
ghost use Rattle.segment_index.specs.Answers.{met};
ghost use Rattle.segment_book.specs.Within.Paging.{IsFront, front_len, last_point_behind, shown_rows};

use crate::book::first_point;
use disk_trait::{Duplicate, Memory, Text};
use media_rows::{Page, SegmentFilter, SegmentList, SegmentRow, View};
use segment_index::SegmentIndex;
use shared_tree::Steps;
use std::alloc::Global;
use std::sync::ledger::{Blank, Ledger};

/// The segments of a flow that lie past a page's key, in its direction, have a point in the range and name the
/// object: at least one more than the page has, where there are so many. Where an object is asked for, all of
/// them are looked at. The steps aren't anybody's.
pub(crate) fn rows_past<'a, L: Ledger>(
    alloc: Global,
    index: &'a SegmentIndex,
    wanted: &SegmentFilter,
    page: &Page,
    blank: Blank,
) -> Result<Vec<&'a SegmentRow>, Memory>
    requires name { blank.name ≡ L.name }
    requires parts { blank.parts ≡ L.parts }
    requires one { 0 < L.parts }
    ensures { IfOk result (λ rows. IsFront page.now.limit (values_of rows.items)
        (items_past first_point page.now
        (filter (names_object wanted.now.object) (met index.now wanted.now.range)))) }
{
    let count = few(index)?;
    let most = front_len(count, &wanted.object, page.limit);
    let front = Page {
        after: page.after,
        limit: most,
        reverse: page.reverse,
    };
    let mut steps = Steps::<L>::new(blank);
    let mut rows = Vec::with_capacity(alloc, most as usize)?;
    index.range(&wanted.range, &front, &mut rows, &mut steps);
    named(alloc, &rows, &wanted.object)
}

/// The number of an index's segments, of which there are fewer than the last value of a `u64`.
pub(crate) fn few(index: &SegmentIndex) -> Result<u64, Memory>
    ensures { IfOk result (λ count. count ≡ length index.now) }
{
    let count = index.len();
    if count == u64::MAX {
        return Err(Memory);
    }
    Ok(count)
}

/// How many segments of so many to look at for a page: all where an object is asked for, and otherwise one more
/// than the page has.
fn front_len(count: u64, object: &Option<Text>, limit: u64) -> u64
    ensures { result ≡ front_len count object.now limit }
{
    match object {
        Some(_) => count,
        None => { if limit < count { limit + 1 } else { count } }
    }
}

/// The segments that name the object, where one is asked for.
fn named<'a>(
    alloc: Global,
    rows: &[&'a SegmentRow],
    object: &Option<Text>,
) -> Result<Vec<&'a SegmentRow>, Memory>
    ensures { IfOk result (λ kept. values_of kept.items
        ≡ filter (names_object object.now) (values_of rows.now)) }
{
    let mut kept = Vec::new(alloc);
    for row in rows {
        if names_object(object, row) {
            kept.push(*row)?;
        }
    }
    Ok(kept)
}

/// Whether a segment names the object, where one is asked for.
fn names_object(object: &Option<Text>, row: &SegmentRow) -> bool
    ensures { result ≡ names_object object.now row.now }
{
    match object {
        Some(object) => row.segment.object.bytes() == object.bytes(),
        None => true,
    }
}

/// The page of the first so many segments, with the key of the next page where there are more.
pub(crate) fn shown(alloc: Global, rows: &[&SegmentRow], limit: u64) -> Result<View, Memory>
    ensures { IfOk result (λ view. view ≡ shown_rows limit (values_of rows.now)) }
{
    let mut list = SegmentList::new(alloc);
    let page = first_rows(rows, limit);
    for row in page {
        list.push(row.duplicate(alloc)?)?;
    }
    Ok(View::Segments(list, key_behind(rows, limit)))
}

/// The first so many segments.
fn first_rows<'a, 'b>(rows: &'b [&'a SegmentRow], limit: u64) -> &'b [&'a SegmentRow]
    ensures { values_of result.now ≡ take limit (values_of rows.now) }
{
    if limit < rows.len() as u64 {
        &rows[..limit as usize]
    } else {
        rows
    }
}

/// The first point of the last of the first so many segments, where there are more.
fn key_behind(rows: &[&SegmentRow], limit: u64) -> Option<i128>
    ensures { result ≡ last_point_behind limit (values_of rows.now) }
{
    if limit < rows.len() as u64 {
        last_start(first_rows(rows, limit))
    } else {
        None
    }
}

/// The first point of the last segment, where there is one.
fn last_start(rows: &[&SegmentRow]) -> Option<i128>
    ensures { result ≡ last_key first_point (values_of rows.now) }
{
    match rows.last() {
        Some(last) => Some(first_point(*last)),
        None => None,
    }
}
