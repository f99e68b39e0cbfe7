//! The piece that a clip takes of a segment.
ghost use Rattle.std.specs.Prelude.{◌≡◌, ◌↔◌, Err, IfOk, IsTrue};
ghost use Rattle.time_range.specs.Points.{Overlap, StaysWithin};
ghost use Rattle.media_rows.specs.Ranges.{has_both_ends};
ghost use Rattle.segment_pieces.specs.Pieces.{IsPiece, IsTooFar, NeedsRate, is_cut, part_of};

use crate::clip::Clip;
use crate::ranges::{meet, moved};
use crate::sampling::sampling_of;
use disk_trait::{Duplicate, Memory};
use media_rows::{Segment, range_covers};
use std::alloc::Global;

/// Why a clip takes no piece of a segment.
#[derive(Clone, Copy, Debug, PartialEq, Eq)]
pub enum PieceFault {
    /// The segment is cut, and its flow has no rate.
    NoRate,
    /// The piece's offset is past the limit of timestamps, or the number of its first sample past 64 bits.
    TooFar,
    Memory,
}

impl From<Memory> for PieceFault {
    ghost use Rattle.segment_pieces.specs.declared.piece.PieceFault.TheVariants.{Memory};

    ghost from_gives = { λ _ e. e ≡ Memory };

    fn from(_: Memory) -> Self {
        PieceFault::Memory
    }
}

/// Whether a clip has a part of a segment only.
pub fn is_cut(clip: &Clip, segment: &Segment) -> bool
    ensures { result ≡ is_cut clip.now segment.now }
{
    !range_covers(&clip.range, &segment.range)
}

/// The piece that a clip takes of a segment that it overlaps. Where it needs a rate and its offset or a number would go
/// too far as well, `NoRate` comes. `part_stays_within` tells of which clips the last condition holds.
pub fn piece_of(alloc: Global, clip: &Clip, segment: &Segment) -> Result<Segment, PieceFault>
    requires bounded { IsTrue (has_both_ends segment.now.range) }
    requires overlap { Overlap segment.now.range clip.now.range }
    requires within { StaysWithin (part_of clip.now segment.now) clip.now.shift }
    ensures piece { IfOk result (IsPiece clip.now segment.now) }
    ensures no_rate { (result ≡ Err PieceFault.NoRate) ↔ NeedsRate clip.now segment.now }
    ensures too_far { (result ≡ Err PieceFault.TooFar) ↔ IsTooFar clip.now segment.now }
{
    let part = meet(&segment.range, &clip.range);
    let sampling = sampling_of(clip, segment, &part)?;
    let Some(ts_offset) = segment.ts_offset.checked_add(clip.shift) else {
        return Err(PieceFault::TooFar);
    };
    let Some(range) = moved(&part, clip.shift) else {
        unreachable!()
    };
    Ok(Segment {
        object: segment.object.duplicate(alloc)?,
        range,
        ts_offset,
        last_duration: sampling.last_duration,
        sample_offset: sampling.sample_offset,
        sample_count: sampling.sample_count,
        key_frames: sampling.key_frames,
    })
}
