//! The rows of a library as text, in the order in which a snapshot has them.
#![tactic(auto)]

mod snapshot;

pub use crate::snapshot::{snapshot_text, snapshot_text_with};
