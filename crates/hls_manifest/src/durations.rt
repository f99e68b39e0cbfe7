//! Durations of segments, in nanoseconds.
ghost use Rattle.std.specs.Prelude.{◌≡◌, ◌≤◌, Some};
ghost use Rattle.time_range.specs.Points.{IsHigh, IsLow, IsNanos, high_instant, high_of, low_instant, low_of};
ghost use Rattle.hls_manifest.specs.Entries.{nanos_between};
ghost use Rattle.hls_manifest.specs.Playlists.{longest, rounded};

use time_range::TimeRange;

/// The nanoseconds of a second.
pub(crate) const SECOND: u128 = 1_000_000_000;

/// The duration of a range; 0 where an end is open, and for never.
pub(crate) fn duration_of(range: &TimeRange) -> u128
    ensures value { result ≡ nanos_between (low_of range.now) (high_of range.now) }
    ensures longest { result ≤ longest }
{
    match (range.low(), range.high()) {
        (Some(low), Some(high)) => nanos_between(low, high),
        _ => 0,
    }
}

/// The nanoseconds from the instant of a first point to that of a last one.
fn nanos_between(low: i128, high: i128) -> u128
    requires low { IsLow low }
    requires high { IsHigh high }
    ensures value { result ≡ nanos_between (Some low) (Some high) }
    ensures longest { result ≤ longest }
{
    (high_instant(high) - low_instant(low)).unsigned_abs()
}

/// The instant of a first point: half of it, rounded down.
fn low_instant(low: i128) -> i128
    requires { IsLow low }
    ensures value { result ≡ low_instant low }
    ensures within { IsNanos result }
{
    low.div_euclid(2)
}

/// The instant of a last point: half of it, rounded up.
fn high_instant(high: i128) -> i128
    requires { IsHigh high }
    ensures value { result ≡ high_instant high }
    ensures within { IsNanos result }
{
    (high + 1).div_euclid(2)
}

/// A duration in whole seconds, rounded to the nearest, halves up.
pub(crate) fn rounded(nanos: u128) -> u64
    requires { nanos ≤ longest }
    ensures { result ≡ rounded nanos }
{
    ((nanos + SECOND / 2) / SECOND) as u64
}
