//! The playlist of a flow's whole objects within a range, of a library that is read page by page, and how a peer is told
//! it. The command that opens the store is left to the callers.
#![tactic(auto)]

mod gathering;
mod telling;

pub use crate::gathering::manifest_of;
pub use crate::telling::tell_playlist;
