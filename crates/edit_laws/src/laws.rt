//! Laws of edits. Each function does nothing but to call laws of pieces.
ghost use Rattle.edit_laws.specs.Laws.{EditsShow, OneSegmentShows, PiecesAreGoodPosts, PiecesAreKept};
ghost use Rattle.edit_laws.specs.Worked.{ArePointsAsWorked, IsTakenOff};

use segment_pieces::{pieces_are_good, pieces_show_what_was_shown};

/// What a flow of a good library shows at a point is shown by one segment.
pub fn one_segment_shows()
    ensures { OneSegmentShows }
{}

/// Once the pieces of a list are posted, the target shows in the place of each row what the row's flow showed at the
/// points from which it was moved, and all else is shown as before.
pub fn edits_show()
    ensures { EditsShow }
{
    pieces_show_what_was_shown();
}

/// A post of pieces is kept whole, unless its flow is being deleted or is read-only.
pub fn pieces_are_kept()
    ensures { PiecesAreKept }
{
    pieces_show_what_was_shown();
}

/// A post of pieces is a good command.
pub fn pieces_are_good_posts()
    ensures { PiecesAreGoodPosts }
{
    pieces_are_good();
}

/// An edit by hand.
pub fn points_are_as_worked()
    ensures worked { ArePointsAsWorked }
    ensures taken_off { IsTakenOff }
{}
