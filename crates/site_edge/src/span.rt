//! How what was told grew, in the order of the disk's calls.
use disk_trait::Text;

/// A stretch of time in which what was told stood: the number of disk calls made before it began
/// and before it ended, and what the link call that ended it added.
#[derive(Drop)]
pub(crate) struct ToldSpan {
    pub from: u64,
    pub to: u64,
    pub adds: Added,
}

/// What a link call adds to what was told: a connection that was told nothing yet, or bytes to the
/// last one.
#[derive(Drop)]
pub(crate) enum Added {
    Peer,
    Bytes(Text),
}
