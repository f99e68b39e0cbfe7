//! Pages of segments, each with all its members.
ghost use Rattle.std.specs.Prelude.{IfOk, IsTrue};
ghost use Rattle.std.specs.List.{list_all};
ghost use Rattle.std.specs.Str.{is_utf8};
ghost use Rattle.media_rows.specs.Ids.{is_object_id};
ghost use Rattle.json_replies.specs.Texts.{has_reply_texts};

use disk_trait::{Memory, Text};
use media_rows::{Reply, Segment, SegmentList, SegmentRow, View, is_object_id, print_id};
use std::alloc::Global;
use time_range::{End, TimeRange, Ts};

/// What the addresses of media begin with.
const BASE: &str = "http://127.0.0.1:8080";

/// The nanoseconds of a segment, behind which the next one begins.
const STEP: i128 = 2_000_000_000;

/// The samples of a segment, of which the first is a key frame.
const SAMPLES: u64 = 50;

/// The nanoseconds of the last sample.
const LAST: i128 = 40_000_000;

/// What the addresses begin with, as a text.
pub(crate) fn base_text(alloc: Global) -> Result<Text, Memory>
    ensures { IfOk result (λ base. IsTrue (is_utf8 base)) }
{
    text_of(alloc, BASE)
}

/// Characters as a text.
#[tactic(auto, using(crate::proofs::Texts::is_utf8_text))]
fn text_of(alloc: Global, characters: &str) -> Result<Text, Memory>
    ensures { IfOk result (λ text. IsTrue (is_utf8 text)) }
{
    Text::from_bytes(alloc, characters.as_bytes())
}

/// A page of so many segments, one behind another, as an answer.
pub(crate) fn page(alloc: Global, size: u64) -> Result<Reply, Memory>
    ensures { IfOk result (λ page. IsTrue (has_reply_texts page)) }
{
    Ok(Reply::Shown(View::Segments(rows(alloc, size)?, None)))
}

/// The segments of a page.
fn rows(alloc: Global, size: u64) -> Result<SegmentList, Memory>
    ensures { IfOk result
        (λ rows. IsTrue (list_all (λ row. is_object_id row.segment.object) rows)) }
{
    let mut rows = SegmentList::new(alloc);
    for place in 0..size {
        rows.push(row(alloc, place)?)?;
    }
    Ok(rows)
}

/// The segment at a place of the page.
fn row(alloc: Global, place: u64) -> Result<SegmentRow, Memory>
    ensures { IfOk result (λ row. IsTrue (is_object_id row.segment.object)) }
{
    Ok(SegmentRow {
        flow: 1,
        serial: place,
        segment: Segment {
            object: object(alloc, place)?,
            range: range(place)?,
            ts_offset: instant(-STEP)?,
            last_duration: Some(instant(LAST)?),
            sample_offset: 0,
            sample_count: Some(SAMPLES),
            key_frames: Some(1),
        },
    })
}

/// The object of the segment at a place. The id of a UUID is one of an object.
fn object(alloc: Global, place: u64) -> Result<Text, Memory>
    ensures { IfOk result (λ object. IsTrue (is_object_id object)) }
{
    let object = print_id(alloc, u128::from(place))?;
    if is_object_id(object.bytes()) {
        Ok(object)
    } else {
        Err(Memory)
    }
}

/// The range of the segment at a place. One past the limit of times finds no memory.
fn range(place: u64) -> Result<TimeRange, Memory> {
    let low = i128::from(place) * STEP;
    Ok(TimeRange::between(
        End::Including(instant(low)?),
        End::Excluding(instant(low + STEP)?),
    ))
}

/// An instant in nanoseconds. One past the limit finds no memory.
fn instant(nanos: i128) -> Result<Ts, Memory> {
    match Ts::from_nanos(nanos) {
        Some(instant) => Ok(instant),
        None => Err(Memory),
    }
}
