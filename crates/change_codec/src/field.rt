//! One trait for every value that stands in a change or a row, so that options and lists of them are
//! read and written once.
ghost use Rattle.std.specs.Prelude.{◌≡◌, OnOk};
ghost use Rattle.field_codec.specs.Spelling.{Spelling, pair, optional};
ghost use Rattle.field_codec.specs.Leaves.{u64_spelling, u128_spelling, bool_spelling, ts_spelling, text_spelling, range_spelling};
ghost use Rattle.field_codec.specs.Reading.{GivesField, WritesValue};

use disk_trait::{Memory, Text};
use field_codec::{
    BadField, Cursor, ReadFault, write_bool, write_range, write_text, write_ts, write_u64,
    write_u128,
};
use std::alloc::Global;
use time_range::{TimeRange, Ts};

/// A value with a spelling.
pub(crate) trait Field: Drop + Sized {
    ghost spelling: { Spelling Self };

    /// Reads the value at the front.
    fn read_from(alloc: Global, input: &mut Cursor) -> Result<Self, ReadFault>
        ensures { GivesField spelling input.old input.new result };

    /// Writes the value at the end. After an error the text is any.
    fn write_to(&self, alloc: Global, out: &mut Text) -> Result<(), Memory>
        requires { spelling.asks self.now }
        ensures { OnOk result (WritesValue spelling out.old self.now out.new) };
}

impl Field for u64 {
    ghost spelling = { u64_spelling };

    fn read_from(_alloc: Global, input: &mut Cursor) -> Result<u64, ReadFault> {
        Ok(input.u64_field()?)
    }

    fn write_to(&self, _alloc: Global, out: &mut Text) -> Result<(), Memory> {
        write_u64(out, *self)
    }
}

impl Field for u128 {
    ghost spelling = { u128_spelling };

    fn read_from(_alloc: Global, input: &mut Cursor) -> Result<u128, ReadFault> {
        Ok(input.u128_field()?)
    }

    fn write_to(&self, _alloc: Global, out: &mut Text) -> Result<(), Memory> {
        write_u128(out, *self)
    }
}

impl Field for bool {
    ghost spelling = { bool_spelling };

    fn read_from(_alloc: Global, input: &mut Cursor) -> Result<bool, ReadFault> {
        Ok(input.bool_field()?)
    }

    fn write_to(&self, _alloc: Global, out: &mut Text) -> Result<(), Memory> {
        write_bool(out, *self)
    }
}

impl Field for Ts {
    ghost spelling = { ts_spelling };

    fn read_from(_alloc: Global, input: &mut Cursor) -> Result<Ts, ReadFault> {
        Ok(input.ts_field()?)
    }

    fn write_to(&self, _alloc: Global, out: &mut Text) -> Result<(), Memory> {
        write_ts(out, *self)
    }
}

impl Field for TimeRange {
    ghost spelling = { range_spelling };

    fn read_from(_alloc: Global, input: &mut Cursor) -> Result<TimeRange, ReadFault> {
        Ok(input.range_field()?)
    }

    fn write_to(&self, alloc: Global, out: &mut Text) -> Result<(), Memory> {
        write_range(alloc, out, self)
    }
}

impl Field for Text {
    ghost spelling = { text_spelling };

    fn read_from(alloc: Global, input: &mut Cursor) -> Result<Text, ReadFault> {
        input.text_field(alloc)
    }

    #[tactic(auto, unfolding(field_codec::specs::Leaves::text_spelling))]
    fn write_to(&self, alloc: Global, out: &mut Text) -> Result<(), Memory> {
        write_text(alloc, out, self)
    }
}

impl<A: Field, B: Field> Field for (A, B) {
    ghost spelling = { pair A.spelling B.spelling };

    fn read_from(alloc: Global, input: &mut Cursor) -> Result<(A, B), ReadFault> {
        let first = A::read_from(alloc, input)?;
        let second = B::read_from(alloc, input)?;
        Ok((first, second))
    }

    fn write_to(&self, alloc: Global, out: &mut Text) -> Result<(), Memory> {
        let (first, second) = self;
        first.write_to(alloc, out)?;
        second.write_to(alloc, out)?;
        Ok(())
    }
}

impl<T: Field> Field for Option<T> {
    ghost spelling = { optional T.spelling };

    fn read_from(alloc: Global, input: &mut Cursor) -> Result<Option<T>, ReadFault> {
        let left = input.left();
        match input.first() {
            Some(0) => Ok(None),
            Some(1) => Ok(Some(T::read_from(alloc, input)?)),
            _ => Err(BadField { left })?,
        }
    }

    fn write_to(&self, alloc: Global, out: &mut Text) -> Result<(), Memory> {
        match self {
            None => out.push(0)?,
            Some(value) => {
                out.push(1)?;
                value.write_to(alloc, out)?;
            }
        }
        Ok(())
    }
}
