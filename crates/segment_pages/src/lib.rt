//! Segments of a flow that overlap a range, read page by page, so that nobody has to hold them all. What becomes of
//! them is left to the callers.
#![tactic(auto)]

mod reading;

pub use crate::reading::{MOST_SEGMENTS, SegmentsRead, read_segments};
