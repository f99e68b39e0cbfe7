//! Clips.
ghost use Rattle.std.specs.Prelude.{◌≡◌, ◌↔◌, IfSome, IsSome};
ghost use Rattle.time_range.specs.Points.{IsNanos};
ghost use Rattle.segment_pieces.specs.Pieces.{shift_to};

use crate::ranges::first_instant;
use crate::rate::Rate;
use time_range::{TimeRange, Ts};

/// A range of a flow, which is moved by a shift, and the rate of the flow, where it has one.
#[derive(Clone, Copy)]
pub struct Clip {
    pub range: TimeRange,
    pub shift: Ts,
    pub rate: Option<Rate>,
}

/// By how much a range is moved, so that its first instant comes to stand at another; `None` exactly where that is no
/// timestamp.
pub fn shift_to(at: Ts, range: &TimeRange) -> Option<Ts>
    ensures within { IsSome result ↔ IsNanos (shift_to at range.now) }
    ensures value { IfSome result (λ shift. shift ≡ shift_to at range.now) }
{
    Ts::from_nanos(at.nanos() - first_instant(range))
}
