//! What a playlist lists.

use disk_trait::{Listed, Text};

/// A media segment of a playlist.
#[derive(Drop)]
pub struct Entry {
    /// How long it lasts, in nanoseconds.
    pub nanos: u128,
    /// Whether media break off before it (RFC 8216, section 4.3.2.3).
    pub broken: bool,
    /// Where its bytes are got.
    pub address: Text,
}

pub type EntryList = Listed<Entry>;

/// A playlist: its target duration in seconds (RFC 8216, section 4.3.3.1), and its media segments in order.
#[derive(Drop)]
pub struct Listing {
    pub target: u64,
    pub entries: EntryList,
}
