//! The parts of a timestamp's and a range's text, what they mean, and the parts that are printed.
ghost use Rattle.std.specs.Prelude.{◌≡◌, ◌<◌, ◌^◌, ◌↔◌, IsSome, IfSome};
ghost use Rattle.time_range.specs.Points.{IsNanos, IsRange};
ghost use Rattle.time_range.specs.Spelling.{IsStampWithin, IsWithin, ts_value, meant_end, Means, range_text, SpellsRange, canonical_ts, bracket_of, stamp_of, middle_of, canonical_range};
ghost use Rattle.time_range.specs.Ends.{Between};

use crate::ends::End;
use crate::ranges::TimeRange;
use crate::stamp::Ts;

/// Nanoseconds in a second.
const SECOND: u32 = 1_000_000_000;

/// The parts of a timestamp's text: a sign, whole seconds, and nanoseconds below a second.
#[derive(Clone, Copy)]
pub(crate) struct TsParts {
    pub(crate) negative: bool,
    pub(crate) seconds: u64,
    pub(crate) nanos: u32,
}

/// A bracket beside an end: a round one leaves the end's instant out.
#[derive(Clone, Copy)]
pub(crate) enum Bracket {
    Square,
    Round,
}

/// What stands between the brackets of a range's text.
#[derive(Clone, Copy)]
pub(crate) enum Middle {
    Empty,
    Single(TsParts),
    /// `_`, with a timestamp before it, behind it, or both.
    Split(Option<TsParts>, Option<TsParts>),
}

/// The parts of a range's text.
#[derive(Clone, Copy)]
pub(crate) struct RangeParts {
    pub(crate) left: Option<Bracket>,
    pub(crate) middle: Middle,
    pub(crate) right: Option<Bracket>,
}

impl TsParts {
    /// The parts that are printed for a timestamp.
    pub(crate) fn of(t: Ts) -> TsParts
        ensures { result ≡ canonical_ts t }
    {
        let size = t.nanos().unsigned_abs();
        TsParts {
            negative: t.nanos() < 0,
            seconds: (size / u128::from(SECOND)) as u64,
            nanos: (size % u128::from(SECOND)) as u32,
        }
    }

    /// The timestamp that the parts mean; `None` past the limit.
    pub(crate) fn ts(self) -> Option<Ts>
        ensures within { IsSome result ↔ IsNanos (ts_value self) }
        ensures value { IfSome result (λ t. t ≡ ts_value self) }
    {
        let size = i128::from(self.seconds) * i128::from(SECOND) + i128::from(self.nanos);
        Ts::from_nanos(if self.negative { -size } else { size })
    }
}

/// The end that a timestamp and the bracket beside it mean; `None` past the limit.
fn meant_end(bracket: Option<Bracket>, stamp: Option<TsParts>) -> Option<End>
    ensures within { IsSome result ↔ IsStampWithin stamp }
    ensures value { IfSome result (λ end. end ≡ meant_end bracket stamp) }
{
    let Some(parts) = stamp else {
        return Some(End::Unbounded);
    };
    let t = parts.ts()?;
    Some(match bracket {
        Some(Bracket::Round) => End::Excluding(t),
        _ => End::Including(t),
    })
}

/// The bracket that is printed beside an end.
fn bracket_of(end: &End) -> Option<Bracket>
    ensures { result ≡ bracket_of end.now }
{
    match *end {
        End::Unbounded => None,
        End::Including(_) => Some(Bracket::Square),
        End::Excluding(_) => Some(Bracket::Round),
    }
}

/// The timestamp that is printed for an end.
fn stamp_of(end: &End) -> Option<TsParts>
    ensures { result ≡ stamp_of end.now }
{
    let (End::Including(t) | End::Excluding(t)) = *end else {
        return None;
    };
    Some(TsParts::of(t))
}

impl Middle {
    /// What is printed between the brackets of two ends.
    fn between(low: &End, high: &End) -> Middle
        ensures { result ≡ middle_of low.now high.now }
    {
        if let End::Including(a) = *low
            && let End::Including(b) = *high
            && a == b
        {
            return Middle::Single(TsParts::of(a));
        }
        Middle::Split(stamp_of(low), stamp_of(high))
    }
}

impl RangeParts {
    /// The parts that are printed for a range.
    pub(crate) fn of(range: &TimeRange) -> RangeParts
        ensures value { result ≡ canonical_range range.now }
        ensures spells { SpellsRange (range_text result) range.now }
    {
        match range.ends() {
            None => RangeParts {
                left: Some(Bracket::Round),
                middle: Middle::Empty,
                right: Some(Bracket::Round),
            },
            Some((low, high)) => RangeParts {
                left: bracket_of(&low),
                middle: Middle::between(&low, &high),
                right: bracket_of(&high),
            },
        }
    }

    /// The range that the parts mean; `None` where a timestamp passes the limit.
    pub(crate) fn range(self) -> Option<TimeRange>
        ensures within { IsSome result ↔ IsWithin self.middle }
        ensures meant { IfSome result (Means self) }
        ensures range { IfSome result IsRange }
    {
        match self.middle {
            Middle::Empty => Some(TimeRange::never()),
            Middle::Single(at) => self.between(Some(at), Some(at)),
            Middle::Split(first, second) => self.between(first, second),
        }
    }

    fn between(self, first: Option<TsParts>, second: Option<TsParts>) -> Option<TimeRange>
        ensures within { IsSome result ↔ (IsStampWithin first × IsStampWithin second) }
        ensures meant { IfSome result
            (Between (meant_end self.left first) (meant_end self.right second)) }
        ensures range { IfSome result IsRange }
    {
        let low = meant_end(self.left, first)?;
        let high = meant_end(self.right, second)?;
        Some(TimeRange::between(low, high))
    }
}
