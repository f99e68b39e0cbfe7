//! The pieces that rows take of segments, one row behind another.
ghost use Rattle.std.specs.Prelude.{◌≡◌, ◌∷◌, [], All, IfErr, IsTrue, OnOk, false};
ghost use Rattle.media_rows.specs.Ranges.{has_both_ends};
ghost use Rattle.media_rows.specs.Segments.{overlapping};
ghost use Rattle.range_edit.specs.Assembling.{IsUnkept};
ghost use Rattle.range_edit.specs.Within.Cutting.{Adds, AddsPiece, HasPieces, IsRateFault, IsTakable, taking_by, takings_by};
ghost use Rattle.time_range.specs.Points.{StaysWithin};

use crate::flows::read_kept;
use disk_trait::Memory;
use media_rows::{PostList, Segment, SegmentRow, range_overlaps};
use segment_pieces::{Clip, PieceFault, part_stays_within, piece_of};
use std::alloc::Global;
use store_core::Core;

/// The most pieces of a list. It is our own rule.
const MOST_PIECES: usize = 1_000;

/// The pieces so far. Where there are more than the most, further ones aren't kept; and where one would go too far,
/// this is only told, since a later one may want a rate.
#[derive(Drop)]
pub(crate) struct Pieces {
    pub(crate) posts: PostList,
    pub(crate) many: bool,
    pub(crate) far: bool,
}

impl Pieces {
    /// No pieces.
    pub(crate) fn new(alloc: Global) -> Pieces
        ensures none { HasPieces [] result }
        ensures near { result.far ≡ false }
    {
        Pieces {
            posts: PostList::new(alloc, false),
            many: false,
            far: false,
        }
    }

    /// Adds a piece at the end, or tells that there are too many.
    fn add(&mut self, piece: Segment) -> Result<(), Memory>
        ensures { OnOk result (AddsPiece piece self.old self.new) }
    {
        if self.posts.items().len() < MOST_PIECES {
            self.posts.push(piece)
        } else {
            self.many = true;
            Ok(())
        }
    }
}

/// Takes the pieces that a clip takes of the segments of a kept flow. `NoRate` comes where one of them wants a rate.
pub(crate) fn take_all(
    alloc: Global,
    core: &Core,
    flow: u128,
    clip: &Clip,
    pieces: &mut Pieces,
) -> Result<(), PieceFault>
    requires kept { ¬ (IsUnkept core.now.library flow) }
    requires bounded { IsTrue (has_both_ends clip.now.range) }
    requires within { StaysWithin clip.now.range clip.now.shift }
    ensures taken { OnOk result (Adds (takings_by clip.now
        (overlapping core.now.library.segments flow clip.now.range None)) pieces.old pieces.new) }
    ensures fault { IfErr result (IsRateFault (takings_by clip.now
        (overlapping core.now.library.segments flow clip.now.range None))) }
{
    core.keeps_good();
    let mut after = None;
    loop {
        let read = read_kept(alloc, core, flow, &clip.range, after)?;
        take_page(alloc, clip, &read.rows.items()[..read.count], pieces)?;
        if read.next.is_none() {
            return Ok(());
        }
        after = read.next;
    }
}

/// Takes the pieces of some segments.
fn take_page(
    alloc: Global,
    clip: &Clip,
    rows: &[SegmentRow],
    pieces: &mut Pieces,
) -> Result<(), PieceFault>
    requires bounded { IsTrue (has_both_ends clip.now.range) }
    requires within { StaysWithin clip.now.range clip.now.shift }
    requires takable { All (λ row. IsTakable clip.now row.segment) rows.now }
    ensures taken { OnOk result (Adds (takings_by clip.now rows.now) pieces.old pieces.new) }
    ensures fault { IfErr result (IsRateFault (takings_by clip.now rows.now)) }
{
    for row in rows {
        take_piece(alloc, clip, &row.segment, pieces)?;
    }
    Ok(())
}

/// Takes the piece of a segment, or tells that it would go too far.
fn take_piece(
    alloc: Global,
    clip: &Clip,
    segment: &Segment,
    pieces: &mut Pieces,
) -> Result<(), PieceFault>
    requires bounded { IsTrue (has_both_ends clip.now.range) }
    requires within { StaysWithin clip.now.range clip.now.shift }
    requires takable { IsTakable clip.now segment.now }
    ensures taken { OnOk result
        (Adds (taking_by clip.now segment.now ∷ []) pieces.old pieces.new) }
    ensures fault { IfErr result (IsRateFault (taking_by clip.now segment.now ∷ [])) }
{
    // The call tells that they have a point in common.
    let _overlap = range_overlaps(&segment.range, &clip.range);
    part_stays_within(clip, segment);
    match piece_of(alloc, clip, segment) {
        Ok(piece) => pieces.add(piece)?,
        Err(PieceFault::TooFar) => pieces.far = true,
        Err(PieceFault::NoRate) => return Err(PieceFault::NoRate),
        Err(PieceFault::Memory) => return Err(PieceFault::Memory),
    }
    Ok(())
}
