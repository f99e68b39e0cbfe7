//! Reading the fields of some bytes one after the other, with the place of each fault.
ghost use Rattle.std.specs.Prelude.{◌≡◌, ◌≤◌, length, IfOk, OnErr, IsErrOf};
ghost use Rattle.field_codec.specs.Leaves.{u8_spelling, u64_spelling, u128_spelling, bool_spelling, ts_spelling, text_spelling, range_spelling};
ghost use Rattle.field_codec.specs.Spelling.{Spelling};
ghost use Rattle.field_codec.specs.Laws.{Lawful};
ghost use Rattle.field_codec.specs.Reading.{Finds};
ghost use Rattle.field_codec.specs.Answers.{Takes, IsFaultAt, OnBad};

use crate::cursor::Cursor;
use crate::fault::{BadField, CodecFault, ReadFault};
use disk_trait::Text;
use std::alloc::Global;
use std::marker::Model;
use time_range::{TimeRange, Ts};

/// A value that is read without memory.
trait Plain: Drop + Sized {
    ghost spelling: { Spelling Self };

    /// Takes the value from the front.
    fn take(cursor: &mut Cursor) -> Result<Self, BadField>
        ensures { Finds spelling cursor.old cursor.new result };
}

impl Plain for u8 {
    ghost spelling = { u8_spelling };

    fn take(cursor: &mut Cursor) -> Result<u8, BadField> {
        cursor.u8_field()
    }
}

impl Plain for u64 {
    ghost spelling = { u64_spelling };

    fn take(cursor: &mut Cursor) -> Result<u64, BadField> {
        cursor.u64_field()
    }
}

impl Plain for u128 {
    ghost spelling = { u128_spelling };

    fn take(cursor: &mut Cursor) -> Result<u128, BadField> {
        cursor.u128_field()
    }
}

impl Plain for Ts {
    ghost spelling = { ts_spelling };

    fn take(cursor: &mut Cursor) -> Result<Ts, BadField> {
        cursor.ts_field()
    }
}

impl Plain for bool {
    ghost spelling = { bool_spelling };

    fn take(cursor: &mut Cursor) -> Result<bool, BadField> {
        cursor.bool_field()
    }
}

impl Plain for TimeRange {
    ghost spelling = { range_spelling };

    fn take(cursor: &mut Cursor) -> Result<TimeRange, BadField> {
        cursor.range_field()
    }
}

/// Some bytes, and those of them that are not read yet. A call that answers an error leaves both as
/// they were; `Bad` is an offset in all of the bytes.
#[derive(Drop)]
pub struct Fields<'a> {
    bytes: &'a [u8],
    rest: &'a [u8],
}

impl<'a> Model for Fields<'a> {
    ghost use Rattle.std.specs.Prelude.{◌≤◌, length};
    ghost use Rattle.field_codec.specs.Answers.{Unread};

    ghost Value = { Unread };

    ghost view = { λ f. record { bytes = f.bytes.now; rest = f.rest.now } };

    ghost invariant = { λ f. length f.rest.now ≤ length f.bytes.now };
}

impl<'a> Fields<'a> {
    /// Begins at the first byte, with all of them unread.
    pub fn new(bytes: &'a [u8]) -> Fields<'a>
        ensures bytes { result.bytes ≡ bytes.now }
        ensures unread { result.rest ≡ bytes.now }
    {
        Fields { bytes, rest: bytes }
    }

    /// The bytes that are not read yet.
    fn unread(&self) -> &'a [u8]
        ensures { result.now ≡ self.now.rest }
    {
        self.rest
    }

    /// The next field, by its lawful spelling.
    fn next_field<T: Plain>(&mut self) -> Result<T, CodecFault>
        requires { Lawful T.spelling }
        ensures ok { IfOk result (λ value. Takes T.spelling self.old value self.new) }
        ensures bad { OnBad result (IsFaultAt T.spelling self.old) }
        ensures err { OnErr result (self.new ≡ self.old) }
        ensures never_memory { IsErrOf result CodecFault.Memory → ⊥ }
    {
        let rest = self.unread();
        let mut cursor = Cursor::new(rest);
        match T::take(&mut cursor) {
            Ok(value) => {
                self.rest = cursor.rest();
                Ok(value)
            }
            Err(field) => Err(CodecFault::Bad(self.bytes.len() - field.left)),
        }
    }

    /// A number of 1 byte.
    #[tactic(auto, using(crate::proofs::Numbers::u8_lawful))]
    pub fn u8_field(&mut self) -> Result<u8, CodecFault>
        ensures ok { IfOk result (λ value. Takes u8_spelling self.old value self.new) }
        ensures bad { OnBad result (IsFaultAt u8_spelling self.old) }
        ensures err { OnErr result (self.new ≡ self.old) }
        ensures never_memory { IsErrOf result CodecFault.Memory → ⊥ }
    {
        self.next_field()
    }

    /// A number of 8 bytes.
    #[tactic(auto, using(crate::proofs::Numbers::u64_lawful))]
    pub fn u64_field(&mut self) -> Result<u64, CodecFault>
        ensures ok { IfOk result (λ value. Takes u64_spelling self.old value self.new) }
        ensures bad { OnBad result (IsFaultAt u64_spelling self.old) }
        ensures err { OnErr result (self.new ≡ self.old) }
        ensures never_memory { IsErrOf result CodecFault.Memory → ⊥ }
    {
        self.next_field()
    }

    /// An id, of 16 bytes.
    #[tactic(auto, using(crate::proofs::Numbers::u128_lawful))]
    pub fn id_field(&mut self) -> Result<u128, CodecFault>
        ensures ok { IfOk result (λ value. Takes u128_spelling self.old value self.new) }
        ensures bad { OnBad result (IsFaultAt u128_spelling self.old) }
        ensures err { OnErr result (self.new ≡ self.old) }
        ensures never_memory { IsErrOf result CodecFault.Memory → ⊥ }
    {
        self.next_field()
    }

    /// A timestamp: its nanoseconds in 16 bytes, two's complement.
    #[tactic(auto, using(crate::proofs::RangeLaws::ts_lawful))]
    pub fn ts_field(&mut self) -> Result<Ts, CodecFault>
        ensures ok { IfOk result (λ value. Takes ts_spelling self.old value self.new) }
        ensures bad { OnBad result (IsFaultAt ts_spelling self.old) }
        ensures err { OnErr result (self.new ≡ self.old) }
        ensures never_memory { IsErrOf result CodecFault.Memory → ⊥ }
    {
        self.next_field()
    }

    /// A mark: 0 or 1.
    #[tactic(auto, using(crate::proofs::LeafLaws::bool_lawful))]
    pub fn bool_field(&mut self) -> Result<bool, CodecFault>
        ensures ok { IfOk result (λ value. Takes bool_spelling self.old value self.new) }
        ensures bad { OnBad result (IsFaultAt bool_spelling self.old) }
        ensures err { OnErr result (self.new ≡ self.old) }
        ensures never_memory { IsErrOf result CodecFault.Memory → ⊥ }
    {
        self.next_field()
    }

    /// A range: 0 for never, or 1 and two ends that hold a point.
    #[tactic(auto, using(crate::proofs::RangeLaws::range_lawful))]
    pub fn range_field(&mut self) -> Result<TimeRange, CodecFault>
        ensures ok { IfOk result (λ value. Takes range_spelling self.old value self.new) }
        ensures bad { OnBad result (IsFaultAt range_spelling self.old) }
        ensures err { OnErr result (self.new ≡ self.old) }
        ensures never_memory { IsErrOf result CodecFault.Memory → ⊥ }
    {
        self.next_field()
    }

    /// A text: the number of its bytes in 4 bytes, and these.
    pub fn text_field(&mut self, alloc: Global) -> Result<Text, CodecFault>
        ensures ok { IfOk result (λ value. Takes text_spelling self.old value self.new) }
        ensures bad { OnBad result (IsFaultAt text_spelling self.old) }
        ensures err { OnErr result (self.new ≡ self.old) }
    {
        let rest = self.unread();
        let mut cursor = Cursor::new(rest);
        match cursor.text_field(alloc) {
            Ok(value) => {
                self.rest = cursor.rest();
                Ok(value)
            }
            Err(ReadFault::Bad(field)) => Err(CodecFault::Bad(self.bytes.len() - field.left)),
            Err(ReadFault::Memory) => Err(CodecFault::Memory),
        }
    }
}
