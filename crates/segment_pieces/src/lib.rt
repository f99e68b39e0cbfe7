//! Pieces of segments: what a clip, a range of a flow that is moved along the time line, takes of a segment, with its
//! samples counted anew where it is cut. Which clips there are, and where pieces go, is left to the callers.
#![tactic(auto)]

mod clip;
mod essence;
mod laws;
mod piece;
mod ranges;
mod rate;
mod samples;
mod sampling;

pub use crate::clip::{Clip, shift_to};
pub use crate::essence::rate_of;
pub use crate::laws::{
    one_piece, part_stays_within, pieces_are_as_worked, pieces_are_good,
    pieces_show_what_was_shown, points_are_tested, whole_parts_are_whole,
};
pub use crate::piece::{PieceFault, is_cut, piece_of};
pub use crate::ranges::moved;
pub use crate::rate::Rate;
