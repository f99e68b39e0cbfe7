//! Ends of ranges.
ghost use Rattle.std.specs.Prelude.{◌≡◌};
ghost use Rattle.media_rows.specs.Ranges.{has_both_ends, is_eternity};

use media_rows::range_covers;
use time_range::TimeRange;

/// Whether a range is open at neither end and isn't never.
#[tactic(auto, using(crate::proofs::Ends::both_ends))]
pub fn has_both_ends(range: &TimeRange) -> bool
    ensures { result ≡ has_both_ends range.now }
{
    range.low().is_some() && range.high().is_some()
}

/// Whether a range has all points.
#[tactic(auto, using(crate::proofs::Ends::all_points))]
pub fn is_eternity(range: &TimeRange) -> bool
    ensures { result ≡ is_eternity range.now }
{
    range_covers(range, &TimeRange::eternity())
}
