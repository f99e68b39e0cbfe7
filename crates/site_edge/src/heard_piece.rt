//! A hearing of a peer in memory, as it is noted.

/// How much had been heard and told when a hearing began, whether a saying had failed by then, and how many
/// bytes it gave: 0 at the peer's end, or where it failed.
#[derive(Drop, Clone, Copy)]
pub(crate) struct HeardPiece {
    pub heard: usize,
    pub told: usize,
    pub unsaid: bool,
    pub count: usize,
}
