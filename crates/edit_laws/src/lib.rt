//! Laws of edits by ranges, each the contract of a function: what flows show once the pieces that were cut for one of
//! them are posted, and that nothing of the pieces refuses their post. Nothing here runs.
#![tactic(auto)]

mod laws;

pub use crate::laws::{
    edits_show, one_segment_shows, pieces_are_good_posts, pieces_are_kept, points_are_as_worked,
};
