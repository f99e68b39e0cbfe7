//! The media of a library as one value that each change makes anew: segments, objects and free blocks, which
//! are kept side by side. Contracts see them in the library's own words.
#![tactic(auto)]

mod book;
mod cuts;
mod lists;
mod objects;
mod restores;
mod segments;
mod sweeps;

pub use crate::book::MediaBook;
pub use crate::cuts::Covered;
pub use crate::lists::{ListAdded, lists_are_told_alike};
pub use crate::restores::media_are_good;
pub use crate::segments::posts_are_refused_alike;
