//! HLS media playlists (RFC 8216) of the whole objects of a flow: written segment by segment, and read back. Which
//! segments there are, and where the text goes, is left to the callers.
#![tactic(auto)]

mod durations;
mod fault;
mod laws;
mod line_reading;
mod lines;
mod listing;
mod manifest;
mod progress;
mod reading;

pub use crate::fault::PlaylistFault;
pub use crate::laws::{
    listings_read_back, one_listing, targets_are_least, whole_objects_are_named,
};
pub use crate::listing::{Entry, EntryList, Listing};
pub use crate::manifest::Manifest;
pub use crate::reading::read_playlist;
