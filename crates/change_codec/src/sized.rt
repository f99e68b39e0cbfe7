//! Rows: a kind, the length of the fields in 4 bytes, and the fields.
ghost use Rattle.std.specs.Prelude.{◌≡◌, ◌∷◌, ◌++◌, [], IfOk};
ghost use Rattle.disk_trait.specs.Forms.{form_in_use};
ghost use Rattle.field_codec.specs.Laws.{Lawful};
ghost use Rattle.field_codec.specs.Reading.{GivesField};
ghost use Rattle.change_codec.specs.Rows.{WritesIfSpelled, row_spelling, sized};

use crate::field::Field;
use crate::objects::read_sized_object;
use crate::writable::Writable;
use disk_trait::{Memory, Text};
use field_codec::{BadField, Cursor, ReadFault, write_u32};
use media_rows::Row;
use std::alloc::Global;

#[tactic(auto, unfolding(crate::specs::Rows::row_spelling))]
pub(crate) fn read_row(alloc: Global, input: &mut Cursor, form: u8) -> Result<Row, ReadFault>
    ensures { GivesField (row_spelling form) input.old input.new result }
{
    let left = input.left();
    match input.first() {
        Some(1) => Ok(Row::Source(read_sized(alloc, input)?)),
        Some(2) => Ok(Row::Flow(read_sized(alloc, input)?)),
        Some(3) => Ok(Row::Object(read_sized_object(alloc, input, form)?)),
        Some(4) => Ok(Row::Segment(read_sized(alloc, input)?)),
        Some(5) => Ok(Row::Request(read_sized(alloc, input)?)),
        Some(6) => Ok(Row::Hook(read_sized(alloc, input)?)),
        Some(7) => Ok(Row::Event(read_sized(alloc, input)?)),
        Some(8) => Ok(Row::Numbers {
            next_serial: read_sized(alloc, input)?,
        }),
        _ => Err(BadField { left })?,
    }
}

/// Writes a row where it has a spelling, and tells whether it has.
pub(crate) fn write_row(alloc: Global, row: &Row, out: &mut Text) -> Result<bool, Memory>
    ensures { IfOk result (WritesIfSpelled (row_spelling form_in_use) out.old row.now out.new) }
{
    match row {
        Row::Source(row) => write_sized(alloc, 1, row, out),
        Row::Flow(row) => write_sized(alloc, 2, row, out),
        Row::Object(row) => write_sized(alloc, 3, row, out),
        Row::Segment(row) => write_sized(alloc, 4, row, out),
        Row::Request(row) => write_sized(alloc, 5, row, out),
        Row::Hook(row) => write_sized(alloc, 6, row, out),
        Row::Event(row) => write_sized(alloc, 7, row, out),
        Row::Numbers { next_serial } => write_sized(alloc, 8, next_serial, out),
    }
}

/// Reads fields behind their length. The fields are read without regard to it, and it is compared
/// with what they took.
fn read_sized<T: Field>(alloc: Global, input: &mut Cursor) -> Result<T, ReadFault>
    requires { Lawful T.spelling }
    ensures { GivesField (sized T.spelling) input.old input.new result }
{
    let left = input.left();
    let size = input.u32_field()?;
    let fields = input.rest();
    let value = T::read_from(alloc, input)?;
    if fields.len() - input.left() != size as usize {
        return Err(ReadFault::Bad(BadField { left }));
    }
    Ok(value)
}

/// Writes a kind, and the fields behind their length, where they have a spelling that isn't too long, and
/// tells whether they have.
fn write_sized<T: Writable>(
    alloc: Global,
    kind: u8,
    value: &T,
    out: &mut Text,
) -> Result<bool, Memory>
    requires { Lawful T.spelling }
    ensures { IfOk result
        (WritesIfSpelled (sized T.spelling) (out.old ++ kind ∷ []) value.now out.new) }
{
    if !value.can_write() {
        return Ok(false);
    }
    let mut fields = Text::new(alloc);
    value.write_to(alloc, &mut fields)?;
    let bytes = fields.bytes();
    if bytes.len() > u32::MAX as usize {
        return Ok(false);
    }
    out.push(kind)?;
    write_u32(out, bytes.len() as u32)?;
    out.append(bytes)?;
    Ok(true)
}
