//! Laws of pieces. Each function does nothing.
ghost use Rattle.std.specs.Prelude.{IsTrue};
ghost use Rattle.time_range.specs.Points.{Overlap, StaysWithin};
ghost use Rattle.media_rows.specs.Ranges.{has_both_ends};
ghost use Rattle.segment_pieces.specs.Laws.{IsOnePiece, PiecesAreBounded, PiecesAreStored, PiecesShowWhatWasShown, PointsAreTested, PostsAreGood, WholePartsAreWhole};
ghost use Rattle.segment_pieces.specs.Pieces.{part_of};
ghost use Rattle.segment_pieces.specs.Worked.{ArePiecesAsWorked};

use crate::clip::Clip;
use media_rows::Segment;

/// A clip takes one piece of a segment at most.
pub fn one_piece()
    ensures { IsOnePiece }
{}

/// A piece is cut exactly where its part isn't the whole segment.
pub fn whole_parts_are_whole()
    ensures { WholePartsAreWhole }
{}

/// A piece shows at each of its points what the segment showed at the point from which it was moved, and has no
/// other points.
pub fn pieces_show_what_was_shown()
    ensures { PiecesShowWhatWasShown }
{}

/// A piece of a segment that may be posted may be posted, and a post of such pieces is a good command.
pub fn pieces_are_good()
    ensures bounded { PiecesAreBounded }
    ensures stored { PiecesAreStored }
    ensures posts { PostsAreGood }
{}

/// Where a clip has both ends and stays within the limit of timestamps, so does its part of each segment that it
/// overlaps.
pub fn part_stays_within(clip: &Clip, segment: &Segment)
    requires bounded { IsTrue (has_both_ends clip.now.range) }
    requires within { StaysWithin clip.now.range clip.now.shift }
    requires overlap { Overlap segment.now.range clip.now.range }
    ensures { StaysWithin (part_of clip.now segment.now) clip.now.shift }
{}

/// The test on a point, by which samples are counted, says whether a range has it.
pub fn points_are_tested()
    ensures { PointsAreTested }
{}

/// Two pieces by hand.
pub fn pieces_are_as_worked()
    ensures { ArePiecesAsWorked }
{}
