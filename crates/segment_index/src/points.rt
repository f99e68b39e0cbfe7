//! The first and the last point of a segment, in half nanoseconds, and looks at kept segments by them.
ghost use Rattle.std.specs.Prelude.{◌≡◌, ◌+◌, ◌*◌, ◌≤◌, ◌≤ℤ◌, IsTrue, Some, filter, int_le, length, option_copied, ◌<◌};
ghost use Rattle.media_rows.specs.Ranges.{has_both_ends};
ghost use Rattle.shared_tree.specs.Pairs.{digits, first, is_above, is_up_to, last, values};
ghost use Rattle.segment_index.specs.Answers.{met};
ghost use Rattle.segment_index.specs.Within.Keyed.{IsIndex, IsKeyed, beginning_by, last_point, reaching, row_of, span};

use media_rows::SegmentRow;
use shared_tree::{Steps, Version};
use std::cmp::Ordering;
use std::sync::ledger::{Blank, Ledger};

/// The first point of a segment that is bounded at both ends.
pub(crate) fn first_point(row: &SegmentRow) -> i128
    requires { IsTrue (has_both_ends row.now.segment.range) }
    ensures { IsKeyed (result, row.now) }
{
    row.segment.range.low().unwrap_or(0)
}

/// The last point of a segment, or 0 where it has none.
pub(crate) fn last_point(row: &SegmentRow) -> i128
    ensures { result ≡ last_point row.now }
{
    row.segment.range.high().unwrap_or(0)
}

/// Whether a point stands at or before another.
pub(crate) fn is_by(point: &i128, other: &i128) -> bool
    ensures { result ≡ int_le point.now other.now }
{
    point.cmp(other) != Ordering::Greater
}

/// The last segment that begins up to a point, where it reaches the point.
pub(crate) fn last_reaching<'a, L: Ledger>(
    rows: &'a Version<SegmentRow>,
    point: &i128,
    steps: &mut Steps<L>,
) -> Option<&'a SegmentRow>
    ensures row { option_copied result
        ≡ row_of (reaching point.now (last (filter (is_up_to point.now) rows.now))) }
    ensures cost { steps.new ≤ steps.old + 2 * digits (length rows.now) }
{
    let (_, kept) = rows.at_or_before(*point, steps)?;
    if is_by(point, &last_point(kept)) {
        Some(kept)
    } else {
        None
    }
}

/// The first segment that begins behind a point, where it begins by another one.
fn first_beginning<'a, L: Ledger>(
    rows: &'a Version<SegmentRow>,
    point: &i128,
    by: &i128,
    steps: &mut Steps<L>,
) -> Option<&'a SegmentRow>
    ensures row { option_copied result
        ≡ row_of (beginning_by by.now (first (filter (is_above point.now) rows.now))) }
    ensures cost { steps.new ≤ steps.old + 2 * digits (length rows.now) }
{
    let (start, kept) = rows.after(*point, steps)?;
    if is_by(&start, by) { Some(kept) } else { None }
}

/// The first segment that has a point between these two.
pub(crate) fn first_met<'a, L: Ledger>(
    rows: &'a Version<SegmentRow>,
    low: &i128,
    high: &i128,
    steps: &mut Steps<L>,
) -> Option<&'a SegmentRow>
    requires kept { IsIndex rows.now }
    requires ordered { low.now ≤ℤ high.now }
    ensures row { option_copied result
        ≡ first (met (values rows.now) (span (Some low.now) (Some high.now))) }
    ensures cost { steps.new ≤ steps.old + 4 * digits (length rows.now) }
{
    rows.keys_rise();
    match last_reaching(rows, low, steps) {
        Some(kept) => Some(kept),
        None => first_beginning(rows, low, high, steps),
    }
}

/// The first segment, if there is one. The steps aren't anybody's.
pub(crate) fn first_segment<L: Ledger>(
    rows: &Version<SegmentRow>,
    blank: Blank,
) -> Option<&SegmentRow>
    requires kept { IsIndex rows.now }
    requires name { blank.name ≡ L.name }
    requires parts { blank.parts ≡ L.parts }
    requires one { 0 < L.parts }
    ensures { option_copied result ≡ row_of (first rows.now) }
{
    let mut steps = Steps::<L>::new(blank);
    match rows.after(i128::MIN, &mut steps) {
        Some((_, row)) => Some(row),
        None => None,
    }
}

/// The last segment, if there is one. The steps aren't anybody's.
pub(crate) fn last_segment<L: Ledger>(
    rows: &Version<SegmentRow>,
    blank: Blank,
) -> Option<&SegmentRow>
    requires kept { IsIndex rows.now }
    requires name { blank.name ≡ L.name }
    requires parts { blank.parts ≡ L.parts }
    requires one { 0 < L.parts }
    ensures { option_copied result ≡ row_of (last rows.now) }
{
    let mut steps = Steps::<L>::new(blank);
    match rows.at_or_before(i128::MAX, &mut steps) {
        Some((_, row)) => Some(row),
        None => None,
    }
}
