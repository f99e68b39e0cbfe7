//! A connection that was dialled, as it is kept.

/// The number of connections that had begun before it, and the port that was dialled.
#[derive(Drop)]
pub(crate) struct PlacedDial {
    pub place: usize,
    pub port: u16,
}
