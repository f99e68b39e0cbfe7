//! The ends of a range: as a client says them, and as points.
ghost use Rattle.std.specs.Prelude.{◌≡◌, ℤ, pos, ◌+ℤ◌, ◌-ℤ◌, ◌≤ℤ◌, ◌<ℤ◌, ◌↔◌, Option, IsTrue, IfSome};
ghost use Rattle.std.specs.Option.{option_map};
ghost use Rattle.time_range.specs.Points.{instant, From, UpTo, IsLow, IsHigh, IsEnd};
ghost use Rattle.time_range.specs.Spelling.{low_end, high_end};
ghost use Rattle.time_range.specs.Ends.{low_point, high_point, are_ordered, Above, Below, IsEndWithin, ReachesDown, ReachesUp};

use crate::stamp::{LIMIT, Ts};

/// One end of a range: open, at a timestamp whose instant is in the range, or at one whose instant
/// is left out.
#[derive(Clone, Copy, Debug, PartialEq, Eq)]
pub enum End {
    Unbounded,
    Including(Ts),
    Excluding(Ts),
}

impl End {
    /// The first point from this low end on.
    pub(crate) fn low_point(self) -> Option<i128>
        ensures value { result ≡ low_point self }
        ensures points { (p : ℤ) → From result p ↔ Above self p }
        ensures low { IfSome result IsLow }
    {
        match self {
            End::Unbounded => None,
            End::Including(t) => Some(instant_of(t)),
            End::Excluding(t) => Some(instant_of(t) + 1),
        }
    }

    /// The last point up to this high end.
    pub(crate) fn high_point(self) -> Option<i128>
        ensures value { result ≡ high_point self }
        ensures points { (p : ℤ) → UpTo result p ↔ Below self p }
        ensures high { IfSome result IsHigh }
    {
        match self {
            End::Unbounded => None,
            End::Including(t) => Some(instant_of(t)),
            End::Excluding(t) => Some(instant_of(t) - 1),
        }
    }
}

/// The point of a timestamp.
pub(crate) fn instant_of(t: Ts) -> i128
    ensures value { result ≡ instant t }
    ensures low { IsLow result }
    ensures high { IsHigh result }
{
    2 * t.nanos()
}

/// Whether some point lies from the low end to the high end.
pub(crate) fn is_ordered(low: Option<i128>, high: Option<i128>) -> bool
    ensures value { result ≡ are_ordered low high }
    ensures ordered { IsTrue result ↔ IfSome low (λ a. IfSome high (λ b. a ≤ℤ b)) }
{
    match (low, high) {
        (Some(a), Some(b)) => a <= b,
        _ => true,
    }
}

/// Whether a low end stands at no later point than another.
pub(crate) fn reaches_down(outer: Option<i128>, inner: Option<i128>) -> bool
    ensures { IsTrue result ↔ ReachesDown outer inner }
{
    match (outer, inner) {
        (None, _) => true,
        (Some(_), None) => false,
        (Some(a), Some(b)) => a <= b,
    }
}

/// Whether a high end stands at no earlier point than another.
pub(crate) fn reaches_up(outer: Option<i128>, inner: Option<i128>) -> bool
    ensures { IsTrue result ↔ ReachesUp outer inner }
{
    match (outer, inner) {
        (None, _) => true,
        (Some(_), None) => false,
        (Some(a), Some(b)) => b <= a,
    }
}

/// The later of two low ends: the points from both on.
pub(crate) fn later(a: Option<i128>, b: Option<i128>) -> Option<i128>
    requires left { IfSome a IsLow }
    requires right { IfSome b IsLow }
    ensures points { (p : ℤ) → From result p ↔ (From a p × From b p) }
    ensures low { IfSome result IsLow }
{
    if reaches_down(a, b) { b } else { a }
}

/// The earlier of two high ends: the points up to both.
pub(crate) fn earlier(a: Option<i128>, b: Option<i128>) -> Option<i128>
    requires left { IfSome a IsHigh }
    requires right { IfSome b IsHigh }
    ensures points { (p : ℤ) → UpTo result p ↔ (UpTo a p × UpTo b p) }
    ensures high { IfSome result IsHigh }
{
    if reaches_up(a, b) { b } else { a }
}

/// The lowest of two low ends.
pub(crate) fn lowest(a: Option<i128>, b: Option<i128>) -> Option<i128>
    requires left { IfSome a IsLow }
    requires right { IfSome b IsLow }
    ensures left { ReachesDown result a }
    ensures right { ReachesDown result b }
    ensures least { (low : Option ℤ) →
        ReachesDown low a → ReachesDown low b → ReachesDown low result }
    ensures low { IfSome result IsLow }
{
    if reaches_down(a, b) { a } else { b }
}

/// The highest of two high ends.
pub(crate) fn highest(a: Option<i128>, b: Option<i128>) -> Option<i128>
    requires left { IfSome a IsHigh }
    requires right { IfSome b IsHigh }
    ensures left { ReachesUp result a }
    ensures right { ReachesUp result b }
    ensures least { (high : Option ℤ) →
        ReachesUp high a → ReachesUp high b → ReachesUp high result }
    ensures high { IfSome result IsHigh }
{
    if reaches_up(a, b) { a } else { b }
}

/// An end moved by a distance.
pub(crate) fn moved(point: Option<i128>, by: Ts) -> Option<i128>
    requires { IfSome point IsEnd }
    ensures { result ≡ option_map (λ p. p +ℤ instant by) point }
{
    Some(point? + instant_of(by))
}

/// Whether a range may begin there.
pub(crate) fn is_low(point: Option<i128>) -> bool
    ensures { IsTrue result ↔ IfSome point IsLow }
{
    point.is_none_or(|p| -2 * LIMIT <= p && p <= 2 * LIMIT + 1)
}

/// Whether a range may end there.
pub(crate) fn is_high(point: Option<i128>) -> bool
    ensures { IsTrue result ↔ IfSome point IsHigh }
{
    point.is_none_or(|p| -2 * LIMIT - 1 <= p && p <= 2 * LIMIT)
}

/// The end that a low point stands for: its instant, or the gap after one.
pub(crate) fn low_end(low: Option<i128>) -> End
    requires { IfSome low IsLow }
    ensures points { (p : ℤ) → From low p ↔ Above result p }
    ensures value { result ≡ low_end low }
    ensures within { IsEndWithin result }
{
    let Some(point) = low else {
        return End::Unbounded;
    };
    let half = point.div_euclid(2);
    if 2 * half == point {
        End::Including(Ts::from_valid_nanos(half))
    } else {
        End::Excluding(Ts::from_valid_nanos(half))
    }
}

/// The end that a high point stands for: its instant, or the gap before one.
pub(crate) fn high_end(high: Option<i128>) -> End
    requires { IfSome high IsHigh }
    ensures points { (p : ℤ) → UpTo high p ↔ Below result p }
    ensures value { result ≡ high_end high }
    ensures within { IsEndWithin result }
{
    let Some(point) = high else {
        return End::Unbounded;
    };
    let half = point.div_euclid(2);
    if 2 * half == point {
        End::Including(Ts::from_valid_nanos(half))
    } else {
        End::Excluding(Ts::from_valid_nanos(half + 1))
    }
}
