//! The order of rows in a snapshot, and that of segments in a library.
ghost use Rattle.std.specs.Prelude.{◌≡◌, IfOk};
ghost use Rattle.media_rows.specs.Lists.{in_order, rises};
ghost use Rattle.media_rows.specs.Segments.{low_before};
ghost use Rattle.media_rows.specs.Snapshot.{kind_number, older, place_number, place_point, row_before};

use disk_trait::{Duplicate, Memory};
use media_rows::{Row, SegmentList, SegmentRow};
use std::alloc::Global;

/// Whether each row stands before all later ones.
pub(crate) fn do_rise(rows: &[Row]) -> bool
    ensures { result ≡ rises row_before rows.now }
{
    for index in 1..rows.len() {
        if !is_before(&rows[index - 1], &rows[index]) {
            return false;
        }
    }
    true
}

/// Whether a row stands before another: by kind, then in the order of its kind.
fn is_before(row: &Row, other: &Row) -> bool
    ensures { result ≡ row_before row.now other.now }
{
    if kind(row) != kind(other) {
        return kind(row) < kind(other);
    }
    if number(row) != number(other) {
        return number(row) < number(other);
    }
    is_lower(&point(row), &point(other))
}

/// The number of a row's kind.
fn kind(row: &Row) -> u8
    ensures { result ≡ kind_number row.now }
{
    match row {
        Row::Source(_) => 1,
        Row::Flow(_) => 2,
        Row::Object(_) => 3,
        Row::Segment(_) => 4,
        Row::Request(_) => 5,
        Row::Hook(_) => 6,
        Row::Event(_) => 7,
        Row::Numbers { .. } => 8,
    }
}

/// The number that a row has in the order of its kind.
fn number(row: &Row) -> u128
    ensures { result ≡ place_number row.now }
{
    match row {
        Row::Source(row) => row.id,
        Row::Flow(row) => row.body.id,
        Row::Object(row) => u128::from(row.serial),
        Row::Segment(row) => row.flow,
        Row::Request(row) => u128::from(row.serial),
        Row::Hook(row) => u128::from(row.serial),
        Row::Event(row) => u128::from(row.serial),
        Row::Numbers { .. } => 0,
    }
}

/// The first point of a row that is a segment.
fn point(row: &Row) -> Option<i128>
    ensures { result ≡ place_point row.now }
{
    match row {
        Row::Segment(row) => row.segment.range.low(),
        _ => None,
    }
}

/// Whether a first point stands before another one; one that is missing stands before all others.
fn is_lower(point: &Option<i128>, other: &Option<i128>) -> bool
    ensures { result ≡ low_before point.now other.now }
{
    match (point, other) {
        (_, None) => false,
        (None, Some(_)) => true,
        (Some(point), Some(other)) => point < other,
    }
}

/// Copies of segments by rising serial.
pub(crate) fn by_serial(alloc: Global, rows: &SegmentList) -> Result<SegmentList, Memory>
    ensures { IfOk result (λ list. list ≡ in_order older rows.now) }
{
    let mut copies = copied(alloc, rows.items())?;
    copies.sort_by_key(|row| row.serial)?;
    Ok(SegmentList::from_vec(copies))
}

fn copied(alloc: Global, rows: &[SegmentRow]) -> Result<Vec<SegmentRow>, Memory>
    ensures { IfOk result (λ copies. copies.items ≡ rows.now) }
{
    let mut copies = Vec::with_capacity(alloc, rows.len())?;
    for row in rows {
        copies.push(row.duplicate(alloc)?)?;
    }
    Ok(copies)
}
