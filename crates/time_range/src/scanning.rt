//! Reading a text byte by byte: what has been read so far, and which byte may follow.
ghost use Rattle.std.specs.Prelude.{◌≡◌, Option, ℕ, IfOk, IfErr, Some, None};
ghost use Rattle.time_range.specs.Within.Scanning.{run, StopsAt, capped, digit_of, stamp_read, left_bracket, right_bracket, after_bracket, longer, closed, range_read};

use crate::spelling::{Bracket, Middle, RangeParts, TsParts};

/// What has been read of a text with which some spelling begins.
pub(crate) trait Scan: Copy {
    ghost next: { Self → ℕ → Option Self };

    /// What has been read with one more byte; `None` where no spelling goes on so.
    fn next(self, byte: u8) -> Option<Self>
        ensures { result ≡ next self byte };
}

/// Reads a whole text. The error is the place of the first byte with which no spelling goes on.
pub(crate) fn scan_all<S: Scan>(start: S, text: &[u8]) -> Result<S, usize>
    ensures ok { IfOk result (λ scan. run S.next start text.now ≡ Some scan) }
    ensures err { IfErr result (StopsAt S.next start text.now) }
{
    let mut scan = start;
    for (at, byte) in text.iter().enumerate() {
        match scan.next(*byte) {
            Some(next) => scan = next,
            None => return Err(at),
        }
    }
    Ok(scan)
}

/// The value of a digit.
fn digit(byte: u8) -> Option<u8>
    ensures { result ≡ digit_of byte }
{
    match byte {
        b'0'..=b'9' => Some(byte - b'0'),
        _ => None,
    }
}

/// What has been read of a timestamp. Seconds past `u64::MAX`, which pass the limit, count as that.
#[derive(Clone, Copy)]
pub(crate) enum TsScan {
    Start,
    Signed,
    Seconds { negative: bool, seconds: u64 },
    Colon { negative: bool, seconds: u64 },
    Nanos(TsParts),
}

impl Scan for TsScan {
    ghost use Rattle.time_range.specs.Within.Scanning.{ts_next, capped};

    ghost next = { ts_next capped };

    fn next(self, byte: u8) -> Option<TsScan> {
        match self {
            TsScan::Start if byte == b'-' => Some(TsScan::Signed),
            TsScan::Start => Some(TsScan::Seconds {
                negative: false,
                seconds: u64::from(digit(byte)?),
            }),
            TsScan::Signed => Some(TsScan::Seconds {
                negative: true,
                seconds: u64::from(digit(byte)?),
            }),
            TsScan::Seconds { negative, seconds } if byte == b':' => {
                Some(TsScan::Colon { negative, seconds })
            }
            // A digit never follows a leading zero.
            TsScan::Seconds { negative, seconds } if seconds > 0 => {
                let digit = u64::from(digit(byte)?);
                let seconds = seconds.saturating_mul(10).saturating_add(digit);
                Some(TsScan::Seconds { negative, seconds })
            }
            TsScan::Colon { negative, seconds } => {
                let nanos = u32::from(digit(byte)?);
                Some(TsScan::Nanos(TsParts {
                    negative,
                    seconds,
                    nanos,
                }))
            }
            // A tenth digit never follows.
            TsScan::Nanos(parts) if 0 < parts.nanos && parts.nanos < 100_000_000 => {
                let nanos = 10 * parts.nanos + u32::from(digit(byte)?);
                Some(TsScan::Nanos(TsParts {
                    negative: parts.negative,
                    seconds: parts.seconds,
                    nanos,
                }))
            }
            _ => None,
        }
    }
}

impl TsScan {
    /// The parts of what has been read, where it is a whole timestamp.
    pub(crate) fn parts(self) -> Option<TsParts>
        ensures { result ≡ stamp_read self }
    {
        match self {
            TsScan::Nanos(parts) => Some(parts),
            _ => None,
        }
    }
}

/// What has been read of a range.
#[derive(Clone, Copy)]
pub(crate) enum RangeScan {
    /// At most a left bracket.
    Left(Option<Bracket>),
    /// A part of the first timestamp.
    First(Option<Bracket>, TsScan),
    /// All up to `_`.
    Mark(Option<Bracket>, Option<TsParts>),
    /// A part of the second timestamp.
    Second(Option<Bracket>, Option<TsParts>, TsScan),
    /// All up to a right bracket.
    Right(RangeParts),
}

fn left_bracket(byte: u8) -> Option<Bracket>
    ensures { result ≡ left_bracket byte }
{
    match byte {
        b'[' => Some(Bracket::Square),
        b'(' => Some(Bracket::Round),
        _ => None,
    }
}

fn right_bracket(byte: u8) -> Option<Bracket>
    ensures { result ≡ right_bracket byte }
{
    match byte {
        b']' => Some(Bracket::Square),
        b')' => Some(Bracket::Round),
        _ => None,
    }
}

impl Scan for RangeScan {
    ghost use Rattle.time_range.specs.Within.Scanning.{range_next, capped};

    ghost next = { range_next capped };

    fn next(self, byte: u8) -> Option<RangeScan> {
        match self.longer(byte) {
            Some(scan) => Some(scan),
            // What stands before a right bracket is a whole range.
            None => closed(self.parts()?, byte),
        }
    }
}

/// A right bracket behind a range that has none yet.
fn closed(parts: RangeParts, byte: u8) -> Option<RangeScan>
    ensures { result ≡ closed parts byte }
{
    if parts.right.is_some() {
        return None;
    }
    let right = Some(right_bracket(byte)?);
    Some(RangeScan::Right(RangeParts {
        left: parts.left,
        middle: parts.middle,
        right,
    }))
}

impl RangeScan {
    /// The first byte behind the left bracket.
    fn begun(left: Option<Bracket>, byte: u8) -> Option<RangeScan>
        ensures { result ≡ after_bracket capped left byte }
    {
        if byte == b'_' {
            Some(RangeScan::Mark(left, None))
        } else {
            Some(RangeScan::First(left, TsScan::Start.next(byte)?))
        }
    }

    /// What has been read with one more byte that is no right bracket.
    fn longer(self, byte: u8) -> Option<RangeScan>
        ensures { result ≡ longer capped self byte }
    {
        match self {
            RangeScan::Left(None) => match left_bracket(byte) {
                Some(bracket) => Some(RangeScan::Left(Some(bracket))),
                None => RangeScan::begun(None, byte),
            },
            RangeScan::Left(left) => RangeScan::begun(left, byte),
            RangeScan::First(left, first) if byte == b'_' => {
                Some(RangeScan::Mark(left, Some(first.parts()?)))
            }
            RangeScan::First(left, first) => Some(RangeScan::First(left, first.next(byte)?)),
            RangeScan::Mark(left, first) => {
                Some(RangeScan::Second(left, first, TsScan::Start.next(byte)?))
            }
            RangeScan::Second(left, first, second) => {
                Some(RangeScan::Second(left, first, second.next(byte)?))
            }
            RangeScan::Right(_) => None,
        }
    }

    /// The parts of what has been read, where it is a whole range.
    pub(crate) fn parts(self) -> Option<RangeParts>
        ensures { result ≡ range_read self }
    {
        let (left, middle) = match self {
            RangeScan::Left(left) => (left, Middle::Empty),
            RangeScan::First(left, first) => (left, Middle::Single(first.parts()?)),
            RangeScan::Mark(left, first) => (left, Middle::Split(first, None)),
            RangeScan::Second(left, first, second) => {
                (left, Middle::Split(first, Some(second.parts()?)))
            }
            RangeScan::Right(parts) => return Some(parts),
        };
        Some(RangeParts {
            left,
            middle,
            right: None,
        })
    }
}
