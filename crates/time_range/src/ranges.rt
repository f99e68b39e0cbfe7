//! Timeranges: sets of points between two ends, or no point at all.
ghost use Rattle.std.specs.Prelude.{◌≡◌, ℤ, pos, ◌+ℤ◌, ◌≤ℤ◌, ◌↔◌, Option, IsTrue, IsFalse, IsSome, IsNone, IfSome};
ghost use Rattle.std.specs.Option.{option_map};
ghost use Rattle.time_range.specs.Points.{instant, From, UpTo, IsLow, IsHigh, Has, Overlap, Covers, IsFirst, IsLast, IsBounded, low_of, high_of, low_instant, high_instant, StaysWithin, eternity};
ghost use Rattle.time_range.specs.Ends.{low_point, high_point, span_between, Above, Below, Between, IsEndWithin, ReachesDown, ReachesUp};
ghost use Rattle.time_range.specs.Spelling.{low_end, high_end};
ghost use Rattle.time_range.specs.declared.ranges.Span.{Span};

use crate::ends::{
    End, earlier, high_end, highest, instant_of, is_high, is_low, is_ordered, later, low_end,
    lowest, moved, reaches_down, reaches_up,
};
use crate::stamp::Ts;
use std::marker::Model;

/// The first and the last point of a range, in half nanoseconds; `None` is an open end.
#[derive(Clone, Copy, Debug, PartialEq, Eq)]
pub struct Span {
    pub low: Option<i128>,
    pub high: Option<i128>,
}

impl Span {
    fn has_both_ends(self) -> bool
        ensures { IsTrue result ↔ (IsSome self.low × IsSome self.high) }
    {
        self.low.is_some() && self.high.is_some()
    }

    /// Whether each end stands no further in than the other's.
    fn reaches_over(self, inner: Span) -> bool
        ensures { IsTrue result
            ↔ (ReachesDown self.low inner.low × ReachesUp self.high inner.high) }
    {
        reaches_down(self.low, inner.low) && reaches_up(self.high, inner.high)
    }
}

/// A set of points of the time line: never, or all points from a low end to a high end.
#[derive(Clone, Copy, Debug, PartialEq, Eq)]
pub struct TimeRange {
    span: Option<Span>,
}

impl Model for TimeRange {
    ghost use Rattle.std.specs.Prelude.{Option, MatchOption};
    ghost use Rattle.time_range.specs.declared.ranges.Span.{Span};
    ghost use Rattle.time_range.specs.Points.{IsSpan};

    ghost Value = { Option Span };

    ghost view = { λ r. r.span };

    ghost inverse = { λ s. record { span = s } };

    ghost invariant = { λ r. MatchOption r.span (Unit {0}) IsSpan };
}

impl TimeRange {
    /// The points from a low end to a high end: never exactly where no point lies between.
    pub fn between(low: End, high: End) -> TimeRange
        ensures points { Between low high result }
        ensures never { (result ≡ None) ↔ ((p : ℤ) → ¬ (Above low p × Below high p)) }
        ensures value { result ≡ span_between (low_point low) (high_point high) }
    {
        TimeRange::spanning(low.low_point(), high.high_point())
    }

    /// The points from one point to another.
    fn spanning(low: Option<i128>, high: Option<i128>) -> TimeRange
        requires low { IfSome low IsLow }
        requires high { IfSome high IsHigh }
        ensures points { (p : ℤ) → Has result p ↔ (From low p × UpTo high p) }
        ensures never { (result ≡ None) ↔ ((p : ℤ) → ¬ (From low p × UpTo high p)) }
        ensures value { result ≡ span_between low high }
    {
        if is_ordered(low, high) {
            TimeRange {
                span: Some(Span { low, high }),
            }
        } else {
            TimeRange::never()
        }
    }

    /// The range without a point.
    pub fn never() -> TimeRange
        ensures never { result ≡ None }
        ensures points { (p : ℤ) → ¬ Has result p }
    {
        TimeRange { span: None }
    }

    /// The range of all points.
    pub fn eternity() -> TimeRange
        ensures points { (p : ℤ) → Has result p }
        ensures value { result ≡ eternity }
    {
        TimeRange::spanning(None, None)
    }

    /// Whether the range has no point.
    pub fn is_never(&self) -> bool
        ensures never { IsTrue result ↔ (self.now ≡ None) }
        ensures none { IsTrue result → (p : ℤ) → ¬ Has self.now p }
        ensures some { IsFalse result → (p : ℤ) × Has self.now p }
    {
        self.span.is_none()
    }

    /// Whether the range is open at neither end. Never is bounded.
    pub fn is_bounded(&self) -> bool
        ensures bounded { IsTrue result ↔ IsBounded self.now }
        ensures ends { IsTrue result → IfSome self.now (λ s. IsSome s.low × IsSome s.high) }
    {
        match self.span {
            Some(span) => span.has_both_ends(),
            None => true,
        }
    }

    /// The first point, in half nanoseconds; `None` where the low end is open, and for never.
    pub fn low(&self) -> Option<i128>
        ensures value { result ≡ low_of self.now }
        ensures first { IfSome result (IsFirst self.now) }
        ensures within { IfSome result IsLow }
    {
        self.span?.low
    }

    /// The last point, in half nanoseconds; `None` where the high end is open, and for never.
    pub fn high(&self) -> Option<i128>
        ensures value { result ≡ high_of self.now }
        ensures last { IfSome result (IsLast self.now) }
        ensures within { IfSome result IsHigh }
    {
        self.span?.high
    }

    /// The instant of the first point, in nanoseconds: of the gap after an instant, that instant.
    pub fn low_instant(&self) -> Option<i128>
        ensures { result ≡ option_map low_instant (low_of self.now) }
    {
        Some(self.low()?.div_euclid(2))
    }

    /// The instant of the last point, in nanoseconds: of the gap before an instant, that instant.
    pub fn high_instant(&self) -> Option<i128>
        ensures { result ≡ option_map high_instant (high_of self.now) }
    {
        Some((self.high()? + 1).div_euclid(2))
    }

    /// The low and the high end; `None` for never. An end that stands at an open gap excludes the
    /// instant beside it.
    pub fn ends(&self) -> Option<(End, End)>
        ensures never { IsNone result ↔ (self.now ≡ None) }
        ensures points { IfSome result (λ ends. Between ends.0 ends.1 self.now) }
        ensures value { IfSome self.now
            (λ s. result ≡ Some (low_end s.low, high_end s.high)) }
        ensures within { IfSome result (λ ends. IsEndWithin ends.0 × IsEndWithin ends.1) }
    {
        let span = self.span?;
        Some((low_end(span.low), high_end(span.high)))
    }

    /// Whether some point is in both ranges.
    pub fn overlaps(&self, other: &TimeRange) -> bool
        ensures { IsTrue result ↔ Overlap self.now other.now }
    {
        !self.meet(other).is_never()
    }

    /// Whether each point of the other range is in this one.
    pub fn covers(&self, other: &TimeRange) -> bool
        ensures { IsTrue result ↔ Covers self.now other.now }
    {
        match (self.span, other.span) {
            (_, None) => true,
            (None, Some(_)) => false,
            (Some(outer), Some(inner)) => outer.reaches_over(inner),
        }
    }

    /// Whether the instant is in the range.
    pub fn contains(&self, t: Ts) -> bool
        ensures { IsTrue result ↔ Has self.now (instant t) }
    {
        match self.span {
            Some(span) => {
                let point = Some(instant_of(t));
                span.reaches_over(Span {
                    low: point,
                    high: point,
                })
            }
            None => false,
        }
    }

    /// The points that are in both ranges.
    pub fn meet(&self, other: &TimeRange) -> TimeRange
        ensures { (p : ℤ) → Has result p ↔ (Has self.now p × Has other.now p) }
    {
        match (self.span, other.span) {
            (Some(a), Some(b)) => {
                TimeRange::spanning(later(a.low, b.low), earlier(a.high, b.high))
            }
            _ => TimeRange::never(),
        }
    }

    /// The least range that covers both.
    pub fn hull(&self, other: &TimeRange) -> TimeRange
        ensures left { Covers result self.now }
        ensures right { Covers result other.now }
        ensures least { (range : Option Span) →
            Covers range self.now → Covers range other.now → Covers range result }
    {
        match (self.span, other.span) {
            (None, _) => *other,
            (_, None) => *self,
            (Some(a), Some(b)) => {
                TimeRange::spanning(lowest(a.low, b.low), highest(a.high, b.high))
            }
        }
    }

    /// Both ends moved by a distance; `None` exactly where an end passes the limit.
    pub fn shift(&self, by: Ts) -> Option<TimeRange>
        ensures within { IsSome result ↔ StaysWithin self.now by }
        ensures points { IfSome result
            (λ moved. (p : ℤ) → Has moved (p +ℤ instant by) ↔ Has self.now p) }
    {
        let Some(span) = self.span else {
            return Some(TimeRange::never());
        };
        let low = moved(span.low, by);
        let high = moved(span.high, by);
        if is_low(low) && is_high(high) {
            Some(TimeRange::spanning(low, high))
        } else {
            None
        }
    }
}
