//! All segments of a library as a value that each change makes anew, with an index for each flow. Which flows
//! there are and which objects are named is left to the callers.
#![tactic(auto)]

mod book;
mod lists;
mod pages;

pub use crate::book::SegmentBook;
