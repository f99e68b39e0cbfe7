//! Samples of a segment, counted without looking at each.
ghost use Rattle.std.specs.Prelude.{◌≡◌, ◌<◌, ◌^◌, ◌↔◌, ℕ, pos, ◌+ℤ◌, ◌≤ℤ◌, IfSome, IsTrue};
ghost use Rattle.time_range.specs.Points.{IsEnd, IsNanos, high_of, instant};
ghost use Rattle.media_rows.specs.Ranges.{has_both_ends};
ghost use Rattle.segment_pieces.specs.Samples.{StandBefore, count_within, sample_nanos, sample_point};

use crate::ranges::first_instant;
use crate::rate::Rate;
use time_range::TimeRange;

/// Nanoseconds of a second.
const SECOND: u128 = 1_000_000_000;

/// How many samples stand at most so many nanoseconds after the first one.
fn count_until(rate: &Rate, nanos: i128) -> u128
    requires { nanos ≤ℤ pos (2 ^ 80) }
    ensures { (k : ℕ) → (k < result) ↔ (pos (sample_nanos rate.now k) ≤ℤ nanos) }
{
    if nanos < 0 {
        return 0;
    }
    let span = u128::from(rate.denominator) * SECOND;
    u128::from(rate.numerator) * nanos.unsigned_abs() / span + 1
}

/// How many samples stand up to a point, where the first one stands at an instant.
fn count_to_point(rate: &Rate, first: i128, point: i128) -> u128
    requires first { IsNanos first }
    requires point { IsEnd point }
    ensures { (k : ℕ) → (k < result) ↔ (instant (first +ℤ pos (sample_nanos rate.now k)) ≤ℤ point) }
{
    count_until(rate, point.div_euclid(2) - first)
}

/// How many samples of a segment of this range stand before a part of it.
pub(crate) fn count_before(rate: &Rate, range: &TimeRange, part: &TimeRange) -> u128
    requires { IsTrue (has_both_ends part.now) }
    ensures { StandBefore rate.now range.now part.now result }
{
    let Some(low) = part.low() else {
        unreachable!()
    };
    count_to_point(rate, first_instant(range), low - 1)
}

/// How many samples of a segment of this range stand up to the end of a part of it.
fn count_to_end(rate: &Rate, range: &TimeRange, part: &TimeRange) -> u128
    requires { IsTrue (has_both_ends part.now) }
    ensures { (k : ℕ) → (k < result)
        ↔ IfSome (high_of part.now) (λ high. sample_point rate.now range.now k ≤ℤ high) }
{
    let Some(high) = part.high() else {
        unreachable!()
    };
    count_to_point(rate, first_instant(range), high)
}

/// How many of the first samples of a segment of this range stand within a part of it.
pub(crate) fn count_within(rate: &Rate, range: &TimeRange, part: &TimeRange, count: u64) -> u64
    requires { IsTrue (has_both_ends part.now) }
    ensures { result ≡ count_within rate.now range.now part.now count }
{
    let before = count_before(rate, range, part);
    let to_end = count_to_end(rate, range, part);
    to_end.min(u128::from(count)).saturating_sub(before) as u64
}
