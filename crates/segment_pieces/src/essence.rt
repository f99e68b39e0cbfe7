//! The rate of a flow, as its essence parameters tell it.
ghost use Rattle.std.specs.Prelude.{◌≡◌, IfOk, option_map, option_and_then};
ghost use Rattle.serde_json.specs.View.{view};
ghost use Rattle.segment_pieces.specs.Fractions.{is_of_rate, is_rate};
ghost use Rattle.segment_pieces.specs.Rates.{denominator_in, frame_rate, number_in, rate_in, rate_of, rate_with, sample_rate, value_in};

use crate::rate::Rate;
use disk_trait::{Memory, Text};
use serde_json::Value;
use std::alloc::Global;

/// The greatest number of a rate.
const MOST_OF_RATE: u64 = 1_000_000_000;

/// The rate that a flow's essence parameters tell (`frame_rate`, or else `sample_rate`), where they tell one.
pub fn rate_of(alloc: Global, essence: Option<&Text>) -> Result<Option<Rate>, Memory>
    ensures { IfOk result (λ rate. rate ≡ rate_of (option_map (λ text. text.now) essence.entry)) }
{
    let Some(text) = essence else {
        return Ok(None);
    };
    match read_value(alloc, text.bytes())? {
        Some(value) => Ok(rate_in(&value)),
        None => Ok(None),
    }
}

/// The JSON value that bytes spell.
fn read_value(alloc: Global, bytes: &[u8]) -> Result<Option<Value>, Memory>
    ensures { IfOk result (λ found. option_map view found ≡ value_in bytes.now) }
{
    match Value::from_slice(alloc, bytes) {
        Ok(value) => Ok(Some(value)),
        Err(error) => {
            if error.is_memory() {
                Err(Memory)
            } else {
                Ok(None)
            }
        }
    }
}

/// The rate that an essence value tells.
fn rate_in(value: &Value) -> Option<Rate>
    ensures { result ≡ rate_in (view value.now) }
{
    match frame_rate(value.get("frame_rate")) {
        Some(rate) => Some(rate),
        None => sample_rate(value.get("sample_rate")),
    }
}

/// A frame rate: its numerator over its denominator.
fn frame_rate(value: Option<&Value>) -> Option<Rate>
    ensures { result ≡ option_and_then frame_rate (option_map (λ v. view v.now) value.entry) }
{
    let value = value?;
    let numerator = value.get("numerator")?.as_u64()?;
    let denominator = denominator_in(value.get("denominator"))?;
    rate_with(numerator, denominator)
}

/// The number of a denominator, which is 1 where it is absent.
fn denominator_in(value: Option<&Value>) -> Option<u64>
    ensures { result ≡ denominator_in (option_map (λ v. view v.now) value.entry) }
{
    match value {
        Some(value) => value.as_u64(),
        None => Some(1),
    }
}

/// A sample rate: its number over 1.
fn sample_rate(value: Option<&Value>) -> Option<Rate>
    ensures { result ≡ option_and_then sample_rate (option_map (λ v. view v.now) value.entry) }
{
    rate_with(value?.as_u64()?, 1)
}

/// The rate of two numbers, where both are from 1 to the greatest.
fn rate_with(numerator: u64, denominator: u64) -> Option<Rate>
    ensures { result ≡ rate_with numerator denominator }
{
    if is_rate(numerator, denominator) {
        Some(Rate {
            numerator,
            denominator,
        })
    } else {
        None
    }
}

/// Whether both numbers are from 1 to the greatest.
fn is_rate(numerator: u64, denominator: u64) -> bool
    ensures { result ≡ is_rate numerator denominator }
{
    is_of_rate(numerator) && is_of_rate(denominator)
}

fn is_of_rate(number: u64) -> bool
    ensures { result ≡ is_of_rate number }
{
    1 <= number && number <= MOST_OF_RATE
}
