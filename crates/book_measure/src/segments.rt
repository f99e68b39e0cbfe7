//! An index of segments: pages of it, and a segment that is added and removed.
ghost use Rattle.std.specs.Prelude.{◌≡◌, ◌<◌};

use crate::places::Places;
use disk_trait::{Memory, Text};
use good_values::has_both_ends;
use media_rows::{Page, Segment, SegmentRow};
use segment_index::SegmentIndex;
use shared_tree::Steps;
use std::alloc::Global;
use std::rc::Rc;
use std::sync::ledger::{Blank, Ledger};
use time_range::{End, TimeRange, Ts};

/// How many segments a page has at most.
const PAGE: u64 = 100;

/// The nanoseconds from one segment to the next, of which each takes the first half.
const STEP: i128 = 2_000_000_000;

/// An instant, where it is within the limit.
fn instant(nanos: i128) -> Option<Ts> {
    Ts::from_nanos(nanos)
}

/// The range from an instant to another without it, and never where one passes the limit.
fn range(low: i128, high: i128) -> TimeRange {
    match (instant(low), instant(high)) {
        (Some(low), Some(high)) => TimeRange::between(End::Including(low), End::Excluding(high)),
        _ => TimeRange::never(),
    }
}

/// A segment over a range.
fn segment(alloc: Global, range: TimeRange, start: Ts) -> Result<Rc<SegmentRow>, Memory> {
    let row = SegmentRow {
        flow: 1,
        serial: 1,
        segment: Segment {
            object: Text::from_bytes(alloc, b"o")?,
            range,
            ts_offset: start,
            last_duration: None,
            sample_offset: 0,
            sample_count: None,
            key_frames: None,
        },
    };
    Ok(Rc::new(alloc, row)?)
}

/// The index with a segment; one that overlaps another, or is open, finds no memory.
fn with_segment<L: Ledger>(
    alloc: Global,
    index: &SegmentIndex,
    low: i128,
    high: i128,
    steps: &mut Steps<L>,
) -> Result<SegmentIndex, Memory> {
    let Some(start) = instant(0) else {
        return Err(Memory);
    };
    let row = segment(alloc, range(low, high), start)?;
    if !has_both_ends(&row.as_ref().segment.range) {
        return Err(Memory);
    }
    match index.add(alloc, row, steps) {
        Ok(next) => Ok(next),
        Err(_) => Err(Memory),
    }
}

/// Lets an index go.
fn let_go(index: SegmentIndex) {}

/// An index of so many segments.
fn index_of<L: Ledger>(
    alloc: Global,
    size: u64,
    steps: &mut Steps<L>,
) -> Result<SegmentIndex, Memory> {
    let mut index = SegmentIndex::empty();
    for place in 0..size {
        index = with_next(alloc, index, place, steps)?;
    }
    Ok(index)
}

/// The index with the segment of a place.
fn with_next<L: Ledger>(
    alloc: Global,
    index: SegmentIndex,
    place: u64,
    steps: &mut Steps<L>,
) -> Result<SegmentIndex, Memory> {
    let low = i128::from(place) * STEP;
    let made = with_segment(alloc, &index, low, low + STEP / 2, steps);
    let_go(index);
    made
}

/// How many segments stand on a page from a place on.
fn page<L: Ledger>(
    alloc: Global,
    index: &SegmentIndex,
    place: u64,
    steps: &mut Steps<L>,
) -> Result<u64, Memory> {
    let low = i128::from(place) * STEP;
    let wanted = range(low, low + STEP * 1_000_000_000);
    let mut rows: Vec<&SegmentRow> = Vec::with_capacity(alloc, PAGE as usize)?;
    let page = Page {
        after: None,
        limit: PAGE,
        reverse: false,
    };
    index.range(&wanted, &page, &mut rows, steps);
    Ok(rows.len() as u64)
}

/// How many segments stand on pages of an index at random places.
fn pages_of<L: Ledger>(
    alloc: Global,
    index: &SegmentIndex,
    size: u64,
    times: u64,
    steps: &mut Steps<L>,
) -> Result<u64, Memory> {
    let mut places = Places::new(size);
    let mut sum = 0_u64;
    for _time in 0..times {
        sum = sum.wrapping_add(page(alloc, index, places.next(), steps)?);
    }
    Ok(sum)
}

/// How many segments stand on pages at random places.
pub(crate) fn pages<L: Ledger>(
    alloc: Global,
    size: u64,
    times: u64,
    blank: Blank,
) -> Result<u64, Memory>
    requires name { blank.name ≡ L.name }
    requires parts { blank.parts ≡ L.parts }
    requires one { 0 < L.parts }
{
    let mut steps = Steps::<L>::new(blank);
    let index = index_of(alloc, size, &mut steps)?;
    let sum = pages_of(alloc, &index, size, times, &mut steps);
    let_go(index);
    sum
}

/// An index from which a segment was removed again, and how many it had before.
#[derive(Drop)]
struct Undone {
    index: SegmentIndex,
    count: u64,
}

/// The index with a segment behind a place, from which it is removed again.
fn added<L: Ledger>(
    alloc: Global,
    index: SegmentIndex,
    place: u64,
    steps: &mut Steps<L>,
) -> Result<Undone, Memory> {
    let low = i128::from(place) * STEP + STEP / 2;
    let made = with_segment(alloc, &index, low, low + STEP / 4, steps);
    let_go(index);
    removed(alloc, made?, low * 2)
}

/// The index without the segment at a key.
fn removed(alloc: Global, index: SegmentIndex, key: i128) -> Result<Undone, Memory> {
    let count = index.len();
    let without = index.remove(alloc, key);
    let_go(index);
    Ok(Undone {
        index: without?,
        count,
    })
}

/// How many segments an index has once one was added and removed, at random places.
pub(crate) fn adds<L: Ledger>(
    alloc: Global,
    size: u64,
    times: u64,
    blank: Blank,
) -> Result<u64, Memory>
    requires name { blank.name ≡ L.name }
    requires parts { blank.parts ≡ L.parts }
    requires one { 0 < L.parts }
{
    let mut steps = Steps::<L>::new(blank);
    let mut index = index_of(alloc, size, &mut steps)?;
    let mut places = Places::new(size);
    let mut sum = 0_u64;
    for _time in 0..times {
        let Undone { index: next, count } = added(alloc, index, places.next(), &mut steps)?;
        index = next;
        sum = sum.wrapping_add(count);
    }
    let_go(index);
    Ok(sum)
}
