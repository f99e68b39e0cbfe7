//! The segments of one flow by their first points, as a value that each change makes anew. No two of them
//! overlap. Which flow that is, and which objects its segments name, is left to the callers.
#![tactic(auto)]

mod fault;
mod index;
mod pages;
mod points;

pub use crate::fault::AddFault;
pub use crate::index::SegmentIndex;
