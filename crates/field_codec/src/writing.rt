//! Writing one field at the end of a text. Where there is no memory for it, the text is left as it was.
ghost use Rattle.std.specs.Prelude.{◌≡◌, ◌++◌, ◌∷◌, [], OnErr, OnOk, take};
ghost use Rattle.std.specs.Int.{w128, cast_unsigned};
ghost use Rattle.time_range.specs.Points.{IsRange};
ghost use Rattle.time_range.specs.Ends.{IsEndWithin};
ghost use Rattle.field_codec.specs.Leaves.{IsShort, u8_spelling, u32_spelling, u64_spelling, u128_spelling, bool_spelling, ts_spelling, text_spelling, end_spelling, range_spelling};
ghost use Rattle.field_codec.specs.Spelling.{pair};
ghost use Rattle.field_codec.specs.Reading.{WritesValue};

use disk_trait::numbers::{u32_bytes, u64_bytes, u128_bytes};
use disk_trait::{Memory, Text};
use std::alloc::Global;
use std::mem::replace;
use time_range::{End, TimeRange, Ts};

/// A number of 1 byte.
#[tactic(auto, unfolding(crate::specs::Leaves::u8_spelling))]
pub fn write_u8(out: &mut Text, number: u8) -> Result<(), Memory>
    ensures ok { OnOk result (WritesValue u8_spelling out.old number out.new) }
    ensures err { OnErr result (out.new ≡ out.old) }
{
    out.push(number)
}

/// A number of 4 bytes.
#[tactic(auto, unfolding(crate::specs::Leaves::u32_spelling))]
pub fn write_u32(out: &mut Text, number: u32) -> Result<(), Memory>
    ensures ok { OnOk result (WritesValue u32_spelling out.old number out.new) }
    ensures err { OnErr result (out.new ≡ out.old) }
{
    out.append(&u32_bytes(number))
}

/// A number of 8 bytes.
#[tactic(auto, unfolding(crate::specs::Leaves::u64_spelling))]
pub fn write_u64(out: &mut Text, number: u64) -> Result<(), Memory>
    ensures ok { OnOk result (WritesValue u64_spelling out.old number out.new) }
    ensures err { OnErr result (out.new ≡ out.old) }
{
    out.append(&u64_bytes(number))
}

/// A number of 16 bytes.
#[tactic(auto, unfolding(crate::specs::Leaves::u128_spelling))]
pub fn write_u128(out: &mut Text, number: u128) -> Result<(), Memory>
    ensures ok { OnOk result (WritesValue u128_spelling out.old number out.new) }
    ensures err { OnErr result (out.new ≡ out.old) }
{
    out.append(&u128_bytes(number))
}

/// A mark: 0 or 1.
#[tactic(auto, unfolding(crate::specs::Leaves::u8_spelling, crate::specs::Leaves::bool_spelling))]
pub fn write_bool(out: &mut Text, mark: bool) -> Result<(), Memory>
    ensures ok { OnOk result (WritesValue bool_spelling out.old mark out.new) }
    ensures err { OnErr result (out.new ≡ out.old) }
{
    write_u8(out, u8::from(mark))
}

/// The bits of a timestamp in two's complement.
fn bits_of(ts: Ts) -> u128
    ensures { result ≡ cast_unsigned w128 ts }
{
    ts.nanos().cast_unsigned()
}

/// A timestamp: its nanoseconds in 16 bytes, two's complement.
pub fn write_ts(out: &mut Text, ts: Ts) -> Result<(), Memory>
    ensures ok { OnOk result (WritesValue ts_spelling out.old ts out.new) }
    ensures err { OnErr result (out.new ≡ out.old) }
{
    // Tells that it is within the limit of timestamps.
    let _nanos = ts.nanos();
    write_u128(out, bits_of(ts))?;
    Ok(())
}

/// A text: the number of its bytes in 4 bytes, and these.
#[tactic(auto, using(crate::proofs::WritingLaws::taken_back))]
pub fn write_text(alloc: Global, out: &mut Text, text: &Text) -> Result<(), Memory>
    requires { IsShort text.now }
    ensures ok { OnOk result (WritesValue text_spelling out.old text.now out.new) }
    ensures err { OnErr result (out.new ≡ out.old) }
{
    let before = out.bytes().len();
    let bytes = text.bytes();
    out.append(&u32_bytes(bytes.len() as u32))?;
    match out.append(bytes) {
        Ok(()) => Ok(()),
        Err(fault) => {
            cut_back(alloc, out, before);
            Err(fault)
        }
    }
}

/// An end of a range: 0 open, 1 and a timestamp that is in the range, 2 and one that is not.
#[tactic(auto, unfolding(crate::specs::Leaves::end_spelling))]
pub fn write_end(alloc: Global, out: &mut Text, end: End) -> Result<(), Memory>
    requires { IsEndWithin end }
    ensures ok { OnOk result (WritesValue end_spelling out.old end out.new) }
    ensures err { OnErr result (out.new ≡ out.old) }
{
    match end {
        End::Unbounded => out.push(0),
        End::Including(ts) => write_kind_and_ts(alloc, out, 1, ts),
        End::Excluding(ts) => write_kind_and_ts(alloc, out, 2, ts),
    }
}

/// A kind and a timestamp.
#[tactic(auto, using(crate::proofs::WritingLaws::taken_back))]
fn write_kind_and_ts(alloc: Global, out: &mut Text, kind: u8, ts: Ts) -> Result<(), Memory>
    ensures ok { OnOk result (WritesValue ts_spelling (out.old ++ kind ∷ []) ts out.new) }
    ensures err { OnErr result (out.new ≡ out.old) }
{
    let before = out.bytes().len();
    out.push(kind)?;
    match write_ts(out, ts) {
        Ok(()) => Ok(()),
        Err(fault) => {
            cut_back(alloc, out, before);
            Err(fault)
        }
    }
}

/// A range: 0 for never, or 1 and its two ends.
#[tactic(auto, using(crate::proofs::WritingLaws::taken_back))]
pub fn write_range(alloc: Global, out: &mut Text, range: &TimeRange) -> Result<(), Memory>
    ensures ok { OnOk result (WritesValue range_spelling out.old range.now out.new) }
    ensures err { OnErr result (out.new ≡ out.old) }
{
    // Tells what is true of each range.
    let _known = has_points(range);
    let before = out.bytes().len();
    match range.ends() {
        None => out.push(0),
        Some((low, high)) => {
            out.push(1)?;
            match write_ends(alloc, out, low, high) {
                Ok(()) => Ok(()),
                Err(fault) => {
                    cut_back(alloc, out, before);
                    Err(fault)
                }
            }
        }
    }
}

/// Two ends of a range.
#[tactic(auto, using(crate::proofs::WritingLaws::taken_back, crate::proofs::WritingLaws::both_wrote))]
fn write_ends(alloc: Global, out: &mut Text, low: End, high: End) -> Result<(), Memory>
    requires low { IsEndWithin low }
    requires high { IsEndWithin high }
    ensures ok { OnOk result (WritesValue (pair end_spelling end_spelling) out.old (low, high) out.new) }
    ensures err { OnErr result (out.new ≡ out.old) }
{
    let before = out.bytes().len();
    write_end(alloc, out, low)?;
    match write_end(alloc, out, high) {
        Ok(()) => Ok(()),
        Err(fault) => {
            cut_back(alloc, out, before);
            Err(fault)
        }
    }
}

/// What is true of each range, gathered from its calls: its ends are in order and within the limit.
/// The answer is that it has a point.
fn has_points(range: &TimeRange) -> bool
    ensures { IsRange range.now }
{
    // Each call tells its part.
    let _low = range.low();
    let _high = range.high();
    !range.is_never()
}

/// Leaves of a text its first bytes, so many. It takes no memory.
pub fn cut_back(alloc: Global, out: &mut Text, length: usize)
    ensures { out.new ≡ take length out.old }
{
    let mut bytes = replace(out, Text::new(alloc)).into_vec();
    bytes.truncate(length);
    *out = Text::from_vec(bytes);
}
