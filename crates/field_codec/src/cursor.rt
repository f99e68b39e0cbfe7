//! Reading one field after another from the front of some bytes.
ghost use Rattle.std.specs.Prelude.{◌≡◌, length, OnErr, OnOk};
ghost use Rattle.field_codec.specs.Leaves.{u8_spelling, u32_spelling, u64_spelling, u128_spelling, bool_spelling, ts_spelling, text_spelling, end_spelling, range_spelling};
ghost use Rattle.field_codec.specs.Reading.{Finds, GivesField, TakesFirst};

use crate::fault::{BadField, ReadFault};
use disk_trait::{Text, numbers};
use std::alloc::Global;
use std::marker::Model;
use time_range::{End, TimeRange, Ts};

/// The bytes that are not read yet. A field that can't be read is left unread, and so it is where there
/// is no memory for it.
#[derive(Drop)]
pub struct Cursor<'a> {
    rest: &'a [u8],
}

impl<'a> Model for Cursor<'a> {
    ghost use Rattle.std.specs.Prelude.{List, ℕ};

    ghost Value = { List ℕ };

    ghost view = { λ c. c.rest.now };
}

impl<'a> Cursor<'a> {
    /// Begins at the first byte.
    pub fn new(bytes: &'a [u8]) -> Cursor<'a>
        ensures { result ≡ bytes.now }
    {
        Cursor { rest: bytes }
    }

    /// How many bytes are left.
    pub fn left(&self) -> usize
        ensures { result ≡ length self.now }
    {
        self.rest.len()
    }

    /// The bytes that are left.
    pub fn rest(&self) -> &'a [u8]
        ensures { result.now ≡ self.now }
    {
        self.rest
    }

    /// The next byte, where there is one.
    pub fn first(&mut self) -> Option<u8>
        ensures { TakesFirst self.old self.new result }
    {
        match self.rest {
            [first, rest @ ..] => {
                self.rest = rest;
                Some(*first)
            }
            [] => None,
        }
    }

    /// What was read from a place on. Where it is a fault, the cursor goes back there.
    fn or_back_to<T: Drop>(
        &mut self,
        start: &'a [u8],
        found: Result<T, BadField>,
    ) -> Result<T, BadField>
        ensures same { result ≡ found }
        ensures ok { OnOk result (self.new ≡ self.old) }
        ensures err { OnErr result (self.new ≡ start.now) }
    {
        if found.is_err() {
            self.rest = start;
        }
        found
    }

    /// A number of 1 byte.
    #[tactic(auto, unfolding(crate::specs::Leaves::u8_spelling))]
    pub fn u8_field(&mut self) -> Result<u8, BadField>
        ensures field { Finds u8_spelling self.old self.new result }
        ensures err { OnErr result (self.new ≡ self.old) }
    {
        self.first().ok_or(BadField { left: 0 })
    }

    /// A number of 4 bytes, as a length or a count.
    #[tactic(auto, using(crate::proofs::ReadingLaws::u32_found), unfolding(crate::specs::Leaves::u32_spelling))]
    pub fn u32_field(&mut self) -> Result<u32, BadField>
        ensures field { Finds u32_spelling self.old self.new result }
        ensures err { OnErr result (self.new ≡ self.old) }
    {
        if self.rest.len() < 4 {
            return Err(BadField {
                left: self.rest.len(),
            });
        }
        let (front, rest) = self.rest.split_at(4);
        self.rest = rest;
        Ok(numbers::read_u32(front))
    }

    /// A number of 8 bytes.
    #[tactic(auto, using(crate::proofs::ReadingLaws::u64_found), unfolding(crate::specs::Leaves::u64_spelling))]
    pub fn u64_field(&mut self) -> Result<u64, BadField>
        ensures field { Finds u64_spelling self.old self.new result }
        ensures err { OnErr result (self.new ≡ self.old) }
    {
        if self.rest.len() < 8 {
            return Err(BadField {
                left: self.rest.len(),
            });
        }
        let (front, rest) = self.rest.split_at(8);
        self.rest = rest;
        Ok(numbers::read_u64(front))
    }

    /// An id, or the bits of a timestamp, of 16 bytes.
    #[tactic(auto, using(crate::proofs::ReadingLaws::u128_found), unfolding(crate::specs::Leaves::u128_spelling))]
    pub fn u128_field(&mut self) -> Result<u128, BadField>
        ensures field { Finds u128_spelling self.old self.new result }
        ensures err { OnErr result (self.new ≡ self.old) }
    {
        if self.rest.len() < 16 {
            return Err(BadField {
                left: self.rest.len(),
            });
        }
        let (front, rest) = self.rest.split_at(16);
        self.rest = rest;
        Ok(numbers::read_u128(front))
    }

    /// A mark: 0 or 1.
    pub fn bool_field(&mut self) -> Result<bool, BadField>
        ensures field { Finds bool_spelling self.old self.new result }
        ensures err { OnErr result (self.new ≡ self.old) }
    {
        let start = self.rest;
        let found = self.read_mark();
        self.or_back_to(start, found)
    }

    /// Reads a mark. After a fault any bytes are left.
    #[tactic(auto, unfolding(crate::specs::Leaves::u8_spelling, crate::specs::Leaves::bool_spelling))]
    fn read_mark(&mut self) -> Result<bool, BadField>
        ensures { Finds bool_spelling self.old self.new result }
    {
        let left = self.left();
        match self.first() {
            Some(0) => Ok(false),
            Some(1) => Ok(true),
            _ => Err(BadField { left }),
        }
    }

    /// A timestamp: its nanoseconds in 16 bytes, two's complement.
    pub fn ts_field(&mut self) -> Result<Ts, BadField>
        ensures field { Finds ts_spelling self.old self.new result }
        ensures err { OnErr result (self.new ≡ self.old) }
    {
        let start = self.rest;
        let found = self.read_ts();
        self.or_back_to(start, found)
    }

    /// Reads a timestamp. After a fault any bytes are left.
    #[tactic(auto, unfolding(crate::specs::Leaves::ts_spelling))]
    fn read_ts(&mut self) -> Result<Ts, BadField>
        ensures { Finds ts_spelling self.old self.new result }
    {
        let left = self.left();
        let bits = self.u128_field()?;
        Ts::from_nanos(bits.cast_signed()).ok_or(BadField { left })
    }

    /// A text: the number of its bytes in 4 bytes, and these.
    #[tactic(auto, using(crate::proofs::ReadingLaws::text_found, crate::proofs::ReadingLaws::text_short), unfolding(crate::specs::Leaves::text_spelling))]
    pub fn text_field(&mut self, alloc: Global) -> Result<Text, ReadFault>
        ensures field { GivesField text_spelling self.old self.new result }
        ensures err { OnErr result (self.new ≡ self.old) }
    {
        let left = self.left();
        if left < 4 {
            return Err(ReadFault::Bad(BadField { left }));
        }
        let (front, behind) = self.rest.split_at(4);
        let size = numbers::read_u32(front) as usize;
        if behind.len() < size {
            return Err(ReadFault::Bad(BadField { left }));
        }
        let (bytes, rest) = behind.split_at(size);
        let text = Text::from_bytes(alloc, bytes)?;
        self.rest = rest;
        Ok(text)
    }

    /// An end of a range: 0 open, 1 and a timestamp that is in the range, 2 and one that is not.
    pub fn end_field(&mut self) -> Result<End, BadField>
        ensures field { Finds end_spelling self.old self.new result }
        ensures err { OnErr result (self.new ≡ self.old) }
    {
        let start = self.rest;
        let found = self.read_end();
        self.or_back_to(start, found)
    }

    /// Reads an end. After a fault any bytes are left.
    #[tactic(auto, unfolding(crate::specs::Leaves::end_spelling))]
    fn read_end(&mut self) -> Result<End, BadField>
        ensures { Finds end_spelling self.old self.new result }
    {
        let left = self.left();
        match self.first() {
            Some(0) => Ok(End::Unbounded),
            Some(1) => Ok(End::Including(self.ts_field()?)),
            Some(2) => Ok(End::Excluding(self.ts_field()?)),
            _ => Err(BadField { left }),
        }
    }

    /// A range: 0 for never, or 1 and two ends that hold a point.
    pub fn range_field(&mut self) -> Result<TimeRange, BadField>
        ensures field { Finds range_spelling self.old self.new result }
        ensures err { OnErr result (self.new ≡ self.old) }
    {
        let start = self.rest;
        let found = self.read_range();
        self.or_back_to(start, found)
    }

    /// Reads a range. After a fault any bytes are left.
    #[tactic(auto, unfolding(crate::specs::Leaves::range_spelling))]
    fn read_range(&mut self) -> Result<TimeRange, BadField>
        ensures { Finds range_spelling self.old self.new result }
    {
        let left = self.left();
        match self.first() {
            Some(0) => Ok(TimeRange::never()),
            Some(1) => {
                let low = self.end_field()?;
                let high = self.end_field()?;
                let range = TimeRange::between(low, high);
                if range.is_never() {
                    return Err(BadField { left });
                }
                Ok(range)
            }
            _ => Err(BadField { left }),
        }
    }
}
