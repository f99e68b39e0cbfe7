//! The rows of objects, whose digest stands in form 2 alone.
ghost use Rattle.std.specs.Prelude.{◌≡◌, ◌∷◌, OnOk};
ghost use Rattle.disk_trait.specs.Forms.{form_in_use};
ghost use Rattle.field_codec.specs.Reading.{GivesField, WritesValue};
ghost use Rattle.change_codec.specs.Rows.{digest_in, object_row_spelling, sized, state_spelling};

use crate::field::Field;
use disk_trait::{FORM_IN_USE, Memory, Text};
use field_codec::{BadField, Cursor, ReadFault};
use media_rows::{Digest, ObjectRow, ObjectState};
use std::alloc::Global;

impl Field for ObjectState {
    ghost spelling = { state_spelling form_in_use };

    fn read_from(alloc: Global, input: &mut Cursor) -> Result<ObjectState, ReadFault> {
        read_state(alloc, input, FORM_IN_USE)
    }

    #[tactic(auto, unfolding(crate::specs::Rows::state_spelling))]
    fn write_to(&self, alloc: Global, out: &mut Text) -> Result<(), Memory> {
        match self {
            ObjectState::Allocated => out.push(0)?,
            ObjectState::Stored {
                start_block,
                length,
                digest,
            } => {
                out.push(1)?;
                start_block.write_to(alloc, out)?;
                length.write_to(alloc, out)?;
                write_digest(alloc, digest, out)?;
            }
        }
        Ok(())
    }
}

impl Field for ObjectRow {
    ghost spelling = { object_row_spelling form_in_use };

    fn read_from(alloc: Global, input: &mut Cursor) -> Result<ObjectRow, ReadFault> {
        read_object(alloc, input, FORM_IN_USE)
    }

    #[tactic(auto, unfolding(crate::specs::Rows::object_row_spelling))]
    fn write_to(&self, alloc: Global, out: &mut Text) -> Result<(), Memory> {
        self.serial.write_to(alloc, out)?;
        self.id.write_to(alloc, out)?;
        self.state.write_to(alloc, out)?;
        self.idle_since.write_to(alloc, out)?;
        Ok(())
    }
}

/// Reads an object's row as a form has it, behind its length: the fields without regard to it, and
/// then it is compared with what they took.
pub(crate) fn read_sized_object(
    alloc: Global,
    input: &mut Cursor,
    form: u8,
) -> Result<ObjectRow, ReadFault>
    ensures { GivesField (sized (object_row_spelling form)) input.old input.new result }
{
    let left = input.left();
    let size = input.u32_field()?;
    let fields = input.rest();
    let value = read_object(alloc, input, form)?;
    if fields.len() - input.left() != size as usize {
        return Err(ReadFault::Bad(BadField { left }));
    }
    Ok(value)
}

#[tactic(auto, unfolding(crate::specs::Rows::object_row_spelling))]
fn read_object(alloc: Global, input: &mut Cursor, form: u8) -> Result<ObjectRow, ReadFault>
    ensures { GivesField (object_row_spelling form) input.old input.new result }
{
    let (serial, id) = Field::read_from(alloc, input)?;
    Ok(ObjectRow {
        serial,
        id,
        state: read_state(alloc, input, form)?,
        idle_since: Field::read_from(alloc, input)?,
    })
}

#[tactic(auto, unfolding(crate::specs::Rows::state_spelling))]
fn read_state(alloc: Global, input: &mut Cursor, form: u8) -> Result<ObjectState, ReadFault>
    ensures { GivesField (state_spelling form) input.old input.new result }
{
    let left = input.left();
    match input.first() {
        Some(0) => Ok(ObjectState::Allocated),
        Some(1) => Ok(ObjectState::Stored {
            start_block: Field::read_from(alloc, input)?,
            length: Field::read_from(alloc, input)?,
            digest: read_digest(alloc, input, form)?,
        }),
        _ => Err(BadField { left })?,
    }
}

/// Reads a digest, where the form has one.
fn read_digest(alloc: Global, input: &mut Cursor, form: u8) -> Result<Option<Digest>, ReadFault>
    ensures { GivesField (digest_in form) input.old input.new result }
{
    if form == 2 {
        Ok(Some(Field::read_from(alloc, input)?))
    } else {
        Ok(None)
    }
}

/// Writes a digest, where there is one.
fn write_digest(alloc: Global, digest: &Option<Digest>, out: &mut Text) -> Result<(), Memory>
    requires { (digest_in form_in_use).asks digest.now }
    ensures { OnOk result (WritesValue (digest_in form_in_use) out.old digest.now out.new) }
{
    match digest {
        Some(digest) => digest.write_to(alloc, out),
        None => Ok(()),
    }
}
