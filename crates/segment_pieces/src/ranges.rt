//! Ranges as values: their parts, moved, and their first instants.
ghost use Rattle.std.specs.Prelude.{◌≡◌, ◌↔◌, IfSome, IsSome};
ghost use Rattle.time_range.specs.Points.{IsNanos, IsRange, StaysWithin};
ghost use Rattle.segment_pieces.specs.Pieces.{meet, moved};
ghost use Rattle.segment_pieces.specs.Samples.{first_instant};

use time_range::{TimeRange, Ts};

/// The points that are in both ranges.
pub(crate) fn meet(left: &TimeRange, right: &TimeRange) -> TimeRange
    ensures { result ≡ meet left.now right.now }
{
    range_is_sound(left);
    range_is_sound(right);
    let both = left.meet(right);
    range_is_sound(&both);
    both
}

/// A range moved by so many nanoseconds; `None` exactly where an end passes the limit.
pub fn moved(range: &TimeRange, by: Ts) -> Option<TimeRange>
    ensures within { IsSome result ↔ StaysWithin range.now by }
    ensures value { IfSome result (λ other. other ≡ moved by range.now) }
{
    range_is_sound(range);
    let other = range.shift(by)?;
    range_is_sound(&other);
    Some(other)
}

/// The instant of the first point of a range, in nanoseconds, and 0 where it has none.
pub(crate) fn first_instant(range: &TimeRange) -> i128
    ensures value { result ≡ first_instant range.now }
    ensures within { IsNanos result }
{
    // The call tells that the end is within the limit.
    let _low = range.low();
    range.low_instant().unwrap_or(0)
}

/// What is true of each range, gathered from its calls: its ends are in order and within the limit.
fn range_is_sound(range: &TimeRange)
    ensures { IsRange range.now }
{
    // Each call tells its part.
    let _low = range.low();
    let _high = range.high();
    let _never = range.is_never();
}
