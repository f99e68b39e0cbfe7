//! Reads a list of edits. `csv` cuts its text into records.
ghost use Rattle.std.specs.Prelude.{◌≡◌, ◌<◌, ◌≤◌, ◌+◌, ◌∷◌, ◌↔◌, ◌≢◌, ℤ, Option, [], All, Err, IfErr, IfOk, IfSome, IsNone, IsTrue, length};
ghost use Rattle.csv.specs.Records.{fields_of};
ghost use Rattle.media_rows.specs.Ranges.{has_both_ends};
ghost use Rattle.range_edit.specs.Lists.{IsBoundedRow, IsFaultIn, IsListOf, SpellsAt, SpellsBounded, SpellsRow, head_fields, max_list};
ghost use Rattle.range_edit.specs.Within.{HasGiven, IsHeadFault, IsRowFault, SpellsTimes};
ghost use Rattle.time_range.specs.declared.ranges.Span.{Span};

use crate::fault::EditFault;
use crate::list::{EditList, EditRow};
use csv::{ByteRecord, Reader, ReaderBuilder};
use disk_trait::{Listed, same_bytes};
use media_rows::read_id;
use std::alloc::Global;
use time_range::{TimeRange, Ts, read_range, read_ts, values_are_spelled};

/// The most bytes of a list. It is our own rule.
const MAX_LIST: usize = 1_048_576;

/// The three fields of a record.
#[derive(Clone, Copy)]
struct Fields<'r> {
    first: &'r [u8],
    second: &'r [u8],
    third: &'r [u8],
}

/// Reads a list of edits: a head with the names of the fields, and rows of them. The first record that isn't as asked
/// decides, and in it the id comes before the times.
pub fn read_list(alloc: Global, bytes: &[u8]) -> Result<EditList, EditFault>
    ensures rows { IfOk result (IsListOf bytes.now) }
    ensures bounded { IfOk result (All IsBoundedRow) }
    ensures fault { IfErr result (IsFaultIn bytes.now) }
    ensures too_long { (result ≡ Err EditFault.TooLong) ↔ (max_list < length bytes.now) }
{
    if MAX_LIST < bytes.len() {
        return Err(EditFault::TooLong);
    }
    read_records(alloc, bytes)
}

/// Reads the records of a list.
fn read_records(alloc: Global, bytes: &[u8]) -> Result<EditList, EditFault>
    requires short { length bytes.now ≤ MAX_LIST }
    ensures rows { IfOk result (IsListOf bytes.now) }
    ensures fault { IfErr result (IsFaultIn bytes.now) }
    ensures not_long { result ≢ Err EditFault.TooLong }
{
    let reader = read_head(alloc, bytes)?;
    let mut rows = Listed::new(alloc);
    for record in reader.into_byte_records() {
        let Ok(record) = record else {
            return Err(EditFault::Memory);
        };
        rows.push(read_row(&record, next_number(&rows))?)?;
    }
    Ok(rows)
}

/// A reader of a list, which has read the head.
fn read_head(alloc: Global, bytes: &[u8]) -> Result<Reader<&[u8]>, EditFault>
    ensures given { IfOk result (HasGiven bytes.now (head_fields ∷ [])) }
    ensures fault { IfErr result (IsHeadFault bytes.now) }
{
    let mut reader = new_reader(alloc, bytes);
    let mut head = ByteRecord::new(alloc);
    let Ok(found) = reader.read_byte_record(&mut head) else {
        return Err(EditFault::Memory);
    };
    if found && is_head(&head) {
        Ok(reader)
    } else {
        Err(EditFault::BadRow(1))
    }
}

/// A reader of a list from its start.
fn new_reader(alloc: Global, bytes: &[u8]) -> Reader<&[u8]>
    ensures { HasGiven bytes.now [] result }
{
    ReaderBuilder::new()
        .has_headers(false)
        .flexible(true)
        .from_reader(alloc, bytes)
}

/// The number of the record behind the head and these rows.
fn next_number(rows: &EditList) -> u64
    ensures { result ≡ length rows.now + 2 }
{
    rows.items().len() as u64 + 2
}

/// Whether a record is the head.
fn is_head(record: &ByteRecord) -> bool
    ensures { IsTrue result ↔ (fields_of record.now ≡ head_fields) }
{
    match three_fields(record) {
        Some(fields) => {
            same_bytes(fields.first, b"flow")
                && same_bytes(fields.second, b"timerange")
                && same_bytes(fields.third, b"at")
        }
        None => false,
    }
}

/// The fields of a record, where it has three.
fn three_fields(record: &ByteRecord) -> Option<Fields<'_>>
    ensures some { IfSome result (λ fields. fields_of record.now
        ≡ fields.first.now ∷ fields.second.now ∷ fields.third.now ∷ []) }
    ensures none { IsNone result → length (fields_of record.now) ≢ 3 }
{
    if record.len() != 3 {
        return None;
    }
    Some(Fields {
        first: record.get(0)?,
        second: record.get(1)?,
        third: record.get(2)?,
    })
}

/// Reads a row from a record with this number.
fn read_row(record: &ByteRecord, number: u64) -> Result<EditRow, EditFault>
    ensures row { IfOk result (SpellsRow (fields_of record.now)) }
    ensures fault { IfErr result (IsRowFault (fields_of record.now) number) }
{
    let fields = three_fields(record).ok_or(EditFault::BadRow(number))?;
    let flow = read_id(fields.first).ok_or(EditFault::BadRow(number))?;
    match read_times(fields.second, fields.third) {
        Some((range, at)) => Ok(EditRow { flow, range, at }),
        None => Err(EditFault::BadTime(number)),
    }
}

/// The range and the timestamp that two texts spell.
fn read_times(range: &[u8], at: &[u8]) -> Option<(TimeRange, Ts)>
    ensures some { IfSome result (λ times. SpellsTimes range.now at.now times.0 times.1) }
    ensures none { IsNone result → (r : Option Span) (t : ℤ) → ¬ (SpellsTimes range.now at.now r t) }
{
    Some((read_bounded(range)?, read_at(at)?))
}

/// The range that a text spells, where it isn't never and is open at neither end.
fn read_bounded(text: &[u8]) -> Option<TimeRange>
    ensures some { IfSome result (SpellsBounded text.now) }
    ensures none { IsNone result → (range : Option Span) → ¬ (SpellsBounded text.now range) }
{
    values_are_spelled();
    let range = read_range(text).ok()?;
    if has_both_ends(&range) {
        Some(range)
    } else {
        None
    }
}

/// Whether a range isn't never and is open at neither end.
fn has_both_ends(range: &TimeRange) -> bool
    ensures { result ≡ has_both_ends range.now }
{
    range.low().is_some() && range.high().is_some()
}

/// The timestamp that a text spells.
fn read_at(text: &[u8]) -> Option<Ts>
    ensures some { IfSome result (SpellsAt text.now) }
    ensures none { IsNone result → (at : ℤ) → ¬ (SpellsAt text.now at) }
{
    values_are_spelled();
    read_ts(text).ok()
}
