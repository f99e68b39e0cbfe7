//! Times in bodies, each a text.
ghost use Rattle.std.specs.Prelude.{◌≡◌, true};
ghost use Rattle.serde_json.specs.View.{view};
ghost use Rattle.media_rows.specs.Ranges.{has_both_ends};
ghost use Rattle.json_bodies.specs.Segments.{bounded, offset, duration, is_not_negative};

use crate::fault::{Breach, RuleFault};
use crate::rules::Rule;
use serde_json::Value;
use std::alloc::Global;
use time_range::{TimeRange, Ts, read_range, read_ts};

/// A timerange that is bounded at both ends and isn't never.
#[derive(Drop)]
pub(crate) struct BoundedRule;

impl Rule<TimeRange> for BoundedRule {
    ghost gives = { λ _. bounded };

    ghost is_good = { λ _. has_both_ends };

    fn read(&self, _alloc: Global, value: &Value) -> Result<TimeRange, RuleFault> {
        let Some(text) = value.as_str() else {
            return Err(RuleFault::Breach(Breach::WrongKind));
        };
        match read_range(text.as_bytes()) {
            Ok(range) if has_both_ends(&range) => Ok(range),
            _ => Err(RuleFault::Breach(Breach::BadTimerange)),
        }
    }
}

/// Whether a range isn't never and is open at neither end.
fn has_both_ends(range: &TimeRange) -> bool
    ensures { result ≡ has_both_ends range.now }
{
    range.low().is_some() && range.high().is_some()
}

/// A timestamp.
#[derive(Drop)]
pub(crate) struct OffsetRule;

impl Rule<Ts> for OffsetRule {
    ghost gives = { λ _. offset };

    ghost is_good = { λ _ _. true };

    fn read(&self, _alloc: Global, value: &Value) -> Result<Ts, RuleFault> {
        let Some(text) = value.as_str() else {
            return Err(RuleFault::Breach(Breach::WrongKind));
        };
        match read_ts(text.as_bytes()) {
            Ok(time) => Ok(time),
            Err(_) => Err(RuleFault::Breach(Breach::BadTimerange)),
        }
    }
}

/// A timestamp that isn't below zero.
#[derive(Drop)]
pub(crate) struct DurationRule;

impl Rule<Ts> for DurationRule {
    ghost gives = { λ _. duration };

    ghost is_good = { λ _ _. true };

    fn read(&self, _alloc: Global, value: &Value) -> Result<Ts, RuleFault> {
        let Some(text) = value.as_str() else {
            return Err(RuleFault::Breach(Breach::WrongKind));
        };
        match read_ts(text.as_bytes()) {
            Ok(time) if is_not_negative(time) => Ok(time),
            _ => Err(RuleFault::Breach(Breach::BadTimerange)),
        }
    }
}

fn is_not_negative(time: Ts) -> bool
    ensures { result ≡ is_not_negative time }
{
    0 <= time.nanos()
}
