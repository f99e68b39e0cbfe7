//! How long a peer may take, and how much of one is read in vain. Times are in microseconds.

const SECOND: u64 = 1_000_000;

/// A peer is waited for so long in all while the head of a request comes, and within each stretch of its body
/// or of an answer. It may say nothing for as long while nobody else waits.
pub(crate) const PATIENCE: u64 = 30 * SECOND;

/// The bytes of such a stretch: 16 KiB for each of those seconds.
pub(crate) const STRETCH: u64 = 30 * 16_384;

/// So often it is looked whether a peer took more of an answer.
pub(crate) const LOOK: u64 = SECOND;

/// While another peer waits: for so long nothing may come within a request, or before the first one.
pub(crate) const QUIET: u64 = SECOND;

/// While another peer waits: so long is the pause that may follow an answer.
pub(crate) const PAUSE: u64 = 20_000;

/// For so long a connection that ends behind an answer is read on, in all.
pub(crate) const FAREWELL: u64 = SECOND;

/// And for so long one that ends by a fault of its link, in which nothing is told any more.
pub(crate) const SHORT_FAREWELL: u64 = 5_000;

/// And so many bytes of it are taken.
pub(crate) const FAREWELL_BYTES: u64 = 8 * 1_048_576;

/// What is no head any more: the wire refuses one of more bytes.
pub(crate) const MOST_HEAD: u64 = 16_384;

/// Progress is shown of what takes longer.
pub(crate) const UNSHOWN: u64 = 2 * SECOND;

/// Between two lines of progress.
pub(crate) const PROGRESS_STEP: u64 = 200_000;

/// An exchange over a connection that was dialled takes so long in all.
pub(crate) const EXCHANGE: u64 = 60 * SECOND;

/// And in it no byte may move for so long.
pub(crate) const EXCHANGE_QUIET: u64 = 10 * SECOND;
