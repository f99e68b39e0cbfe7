//! Laws of the histories of the media store's machine: over whole runs, and of posts. Nothing here runs.
#![tactic(auto)]

mod laws;

pub use crate::laws::{lists_are_answered, posts_succeed, runs_keep_objects};
