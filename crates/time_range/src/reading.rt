//! Reading the text of timestamps and ranges.
ghost use Rattle.std.specs.Prelude.{◌≡◌, ℤ, Option, IfOk};
ghost use Rattle.time_range.specs.Spelling.{SpellsTs, SpellsRange};
ghost use Rattle.std.specs.Result.{result_ok};
ghost use Rattle.time_range.specs.Spelled.{ts_in, TsInIsSpelled, range_in, RangeInIsSpelled};
ghost use Rattle.time_range.specs.Prefixes.{FailsAt};
ghost use Rattle.time_range.specs.Answers.{IfSpelling, OnTooLarge, IsTsText, SpellsTsPast, IsRangeText, SpellsRangePast, HasSamePoints};
ghost use Rattle.time_range.specs.declared.ranges.Span.{Span};

use crate::fault::RangeFault;
use crate::ranges::TimeRange;
use crate::scanning::{RangeScan, TsScan, scan_all};
use crate::stamp::Ts;

/// Reads a timestamp: an optional `-`, whole seconds, `:` and nanoseconds, without leading zeros.
pub fn read_ts(text: &[u8]) -> Result<Ts, RangeFault>
    ensures ok { IfOk result (SpellsTs text.now) }
    ensures value { result_ok result ≡ ts_in text.now }
    ensures only { IfOk result (λ t. (nanos : ℤ) → SpellsTs text.now nanos → nanos ≡ t) }

    // The text is no timestamp's; the place is how much of it some timestamp's text begins with.
    ensures spelling { IfSpelling result (FailsAt IsTsText text.now) }
    ensures too_large { OnTooLarge result (SpellsTsPast text.now) }
{
    let scan = match scan_all(TsScan::Start, text) {
        Ok(scan) => scan,
        Err(at) => return Err(RangeFault::Spelling(at)),
    };
    let Some(parts) = scan.parts() else {
        return Err(RangeFault::Spelling(text.len()));
    };
    parts.ts().ok_or(RangeFault::TooLarge)
}

/// Reads a range: a bracket at either side, a timestamp, `_` and a second timestamp, each of which
/// may be missing.
pub fn read_range(text: &[u8]) -> Result<TimeRange, RangeFault>
    ensures ok { IfOk result (SpellsRange text.now) }
    ensures value { result_ok result ≡ range_in text.now }
    ensures only { IfOk result
        (λ r. (other : Option Span) → SpellsRange text.now other → HasSamePoints other r) }

    // The text is no range's; the place is how much of it some range's text begins with.
    ensures spelling { IfSpelling result (FailsAt IsRangeText text.now) }
    ensures too_large { OnTooLarge result (SpellsRangePast text.now) }
{
    let scan = match scan_all(RangeScan::Left(None), text) {
        Ok(scan) => scan,
        Err(at) => return Err(RangeFault::Spelling(at)),
    };
    let Some(parts) = scan.parts() else {
        return Err(RangeFault::Spelling(text.len()));
    };
    parts.range().ok_or(RangeFault::TooLarge)
}

/// A law: the functions that stand for the readers in clauses of other crates give exactly what a
/// text spells within the limit.
pub fn values_are_spelled()
    ensures ts { TsInIsSpelled }
    ensures range { RangeInIsSpelled }
{}
