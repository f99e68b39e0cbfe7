//! The writes of a store, each with what it leaves of the state for which the file stands: pieces in free
//! media blocks, records of changes, checkpoints. They work on a disk and its journal; which library is kept
//! is left to the callers.
#![tactic(auto)]

mod checkpoints;
mod pieces;
mod records;

pub use crate::checkpoints::checkpoint;
pub use crate::pieces::{read_kept, write_free};
pub use crate::records::append_change;
