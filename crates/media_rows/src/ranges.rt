//! Tests on ranges, by the definitions that the library's rules cite and by points.
ghost use Rattle.std.specs.Prelude.{◌≡◌, ◌↔◌, IsTrue, Option};
ghost use Rattle.time_range.specs.Points.{Covers, IsRange, Overlap};
ghost use Rattle.media_rows.specs.Ranges.{covers, hull, overlaps};
ghost use Rattle.time_range.specs.declared.ranges.Span.{Span};

use time_range::TimeRange;

/// Whether some point is in both ranges.
pub fn range_overlaps(left: &TimeRange, right: &TimeRange) -> bool
    ensures test { result ≡ overlaps left.now right.now }
    ensures points { IsTrue result ↔ Overlap left.now right.now }
{
    range_is_sound(left);
    range_is_sound(right);
    left.overlaps(right)
}

/// Whether each point of the inner range is in the outer one.
pub fn range_covers(outer: &TimeRange, inner: &TimeRange) -> bool
    ensures test { result ≡ covers outer.now inner.now }
    ensures points { IsTrue result ↔ Covers outer.now inner.now }
{
    range_is_sound(outer);
    range_is_sound(inner);
    outer.covers(inner)
}

/// The least range that covers both.
pub fn range_hull(left: &TimeRange, right: &TimeRange) -> TimeRange
    ensures value { result ≡ hull left.now right.now }
    ensures left { Covers result left.now }
    ensures right { Covers result right.now }
    ensures least { (range : Option Span) → Covers range left.now → Covers range right.now
        → Covers range result }
{
    range_is_sound(left);
    range_is_sound(right);
    let both = left.hull(right);
    range_is_sound(&both);
    both
}

/// What is true of each range, gathered from its calls: its ends are in order and within the limit.
fn range_is_sound(range: &TimeRange)
    ensures { IsRange range.now }
{
    // Each call tells its part.
    let _low = range.low();
    let _high = range.high();
    let _never = range.is_never();
}
