//! What is said of the samples of a piece.
ghost use Rattle.std.specs.Prelude.{◌≡◌, ◌↔◌, ◌≢◌, Err, IfErr, IfOk, IfSome, IsNone, IsTrue, false, true};
ghost use Rattle.media_rows.specs.Ranges.{has_both_ends, reaches_up};
ghost use Rattle.segment_pieces.specs.Pieces.{HasSamples, IsCutOut, IsWholeOf, NeedsRate, NumberPast, NumberPastIf, is_cut, kept_last, part_of};
ghost use Rattle.segment_pieces.specs.Within.Sampling.{with_sampling};

use crate::clip::Clip;
use crate::piece::{PieceFault, is_cut};
use crate::rate::Rate;
use crate::samples::{count_before, count_within};
use media_rows::Segment;
use time_range::{TimeRange, Ts};

/// What is said of the samples of a segment.
#[derive(Clone, Copy)]
pub(crate) struct Sampling {
    pub(crate) last_duration: Option<Ts>,
    pub(crate) sample_offset: u64,
    pub(crate) sample_count: Option<u64>,
    pub(crate) key_frames: Option<u64>,
}

/// What is said of the samples of the piece that has this part of a segment.
pub(crate) fn sampling_of(
    clip: &Clip,
    segment: &Segment,
    part: &TimeRange,
) -> Result<Sampling, PieceFault>
    requires part { part.now ≡ part_of clip.now segment.now }
    requires bounded { IsTrue (has_both_ends part.now) }
    ensures whole { IfOk result (λ sampling. is_cut clip.now segment.now ≡ false
        → IsWholeOf segment.now (with_sampling sampling segment.now)) }
    ensures cut { IfOk result (λ sampling. is_cut clip.now segment.now ≡ true
        → HasSamples clip.now.rate part.now segment.now (with_sampling sampling segment.now)) }
    ensures no_rate { (result ≡ Err PieceFault.NoRate) ↔ NeedsRate clip.now segment.now }
    ensures too_far { (result ≡ Err PieceFault.TooFar)
        ↔ ((is_cut clip.now segment.now ≡ true) × NumberPastIf clip.now.rate part.now segment.now) }
    ensures no_more { IfErr result (λ fault. fault ≢ PieceFault.Memory) }
{
    if !is_cut(clip, segment) {
        return Ok(whole_sampling(segment));
    }
    match &clip.rate {
        Some(rate) => cut_sampling(rate, segment, part).ok_or(PieceFault::TooFar),
        None => Err(PieceFault::NoRate),
    }
}

/// What is said of the samples of a whole segment.
fn whole_sampling(segment: &Segment) -> Sampling
    ensures { IsWholeOf segment.now (with_sampling result segment.now) }
{
    Sampling {
        last_duration: segment.last_duration,
        sample_offset: segment.sample_offset,
        sample_count: segment.sample_count,
        key_frames: segment.key_frames,
    }
}

/// What is said of the samples of a part of a segment; `None` where the number of its first one is past 64 bits.
fn cut_sampling(rate: &Rate, segment: &Segment, part: &TimeRange) -> Option<Sampling>
    requires { IsTrue (has_both_ends part.now) }
    ensures some { IfSome result
        (λ sampling. IsCutOut rate.now part.now segment.now (with_sampling sampling segment.now)) }
    ensures none { IsNone result ↔ NumberPast rate.now part.now segment.now }
{
    let before = count_before(rate, &segment.range, part);
    if before > u128::from(u64::MAX - segment.sample_offset) {
        return None;
    }
    Some(Sampling {
        last_duration: kept_last(segment, part),
        sample_offset: segment.sample_offset + before as u64,
        sample_count: match segment.sample_count {
            Some(count) => Some(count_within(rate, &segment.range, part, count)),
            None => None,
        },
        key_frames: None,
    })
}

/// The duration of the last sample, where a part goes up to the segment's high end.
fn kept_last(segment: &Segment, part: &TimeRange) -> Option<Ts>
    ensures { result ≡ kept_last part.now segment.now }
{
    if reaches_up(part.high(), segment.range.high()) {
        segment.last_duration
    } else {
        None
    }
}

/// Whether a high end stands at no earlier point than another.
fn reaches_up(outer: Option<i128>, inner: Option<i128>) -> bool
    ensures { result ≡ reaches_up outer inner }
{
    match (outer, inner) {
        (None, _) => true,
        (Some(_), None) => false,
        (Some(a), Some(b)) => b <= a,
    }
}
