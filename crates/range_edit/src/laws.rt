//! Laws of lists of edits.
ghost use Rattle.range_edit.specs.Assembling.{IsOneCut};
ghost use Rattle.range_edit.specs.Lists.{IsOneAnswer};

use segment_pieces::one_piece;
use time_range::values_are_spelled;

/// A text has one answer, but for want of memory, so that each fault comes exactly where the definition has it.
pub fn one_answer()
    ensures { IsOneAnswer }
{
    values_are_spelled();
}

/// A list is cut in one way for a target, or has one fault, but for want of memory, so that each fault comes exactly
/// where the definition has it.
pub fn one_cut()
    ensures { IsOneCut }
{
    one_piece();
}
