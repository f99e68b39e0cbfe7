//! Lists: the number of the items in 4 bytes, and the items.
ghost use Rattle.std.specs.Prelude.{◌≡◌, OnOk, length};
ghost use Rattle.std.specs.List.{AllByRecursion};
ghost use Rattle.field_codec.specs.Spelling.{items};
ghost use Rattle.field_codec.specs.Leaves.{listed};
ghost use Rattle.field_codec.specs.Reading.{GivesField, WritesValue};

use crate::field::Field;
use disk_trait::{Listed, Memory, Text};
use field_codec::{Cursor, ReadFault, write_u32};
use std::alloc::Global;

impl<T: Field> Field for Listed<T> {
    ghost spelling = { listed T.spelling };

    fn read_from(alloc: Global, input: &mut Cursor) -> Result<Listed<T>, ReadFault> {
        let count = input.u32_field()?;
        read_items(alloc, count, input)
    }

    fn write_to(&self, alloc: Global, out: &mut Text) -> Result<(), Memory> {
        let items = self.items();
        write_u32(out, items.len() as u32)?;
        write_items(alloc, items, out)?;
        Ok(())
    }
}

/// Reads so many items. The list grows with what is read, and not with the count.
fn read_items<T: Field>(
    alloc: Global,
    count: u32,
    input: &mut Cursor,
) -> Result<Listed<T>, ReadFault>
    ensures { GivesField (items T.spelling count) input.old input.new result }
{
    let mut list = Listed::new(alloc);
    for _ in 0..count {
        list.push(T::read_from(alloc, input)?)?;
    }
    Ok(list)
}

fn write_items<T: Field>(alloc: Global, list: &[T], out: &mut Text) -> Result<(), Memory>
    requires { AllByRecursion T.spelling.asks list.now }
    ensures { OnOk result (WritesValue (items T.spelling (length list.now)) out.old list.now out.new) }
{
    for item in list {
        item.write_to(alloc, out)?;
    }
    Ok(())
}
