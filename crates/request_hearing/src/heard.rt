//! What comes of hearing.
use http_wire::{Head, WireFault};

/// What came of hearing a request.
#[derive(Drop)]
pub enum Heard {
    /// A request, with its whole body.
    Whole(Head),
    /// The head of a media PUT, whose body is heard apart. The request takes its moment now.
    Media(Head),
    /// The wire is refused, which ends the connection.
    Refused(WireFault),
    /// The peer's bytes ended where no request had begun.
    Ended,
    /// The peer's bytes ended within a request.
    Cut,
    /// A hearing failed.
    Unheard,
    /// Saying the interim response failed.
    Unsaid,
    /// The same for a media PUT, which takes its moment now.
    MediaUnsaid,
}

/// What came of hearing a piece of the body of a media PUT.
#[derive(Drop, Clone, Copy, Debug, PartialEq, Eq)]
pub enum Body {
    /// So many bytes of it.
    Piece(usize),
    /// The peer's bytes ended within the body.
    Ended,
    /// A hearing failed.
    Unheard,
}

/// What a turn of hearing a request leads to.
#[derive(Drop)]
pub(crate) enum Turn {
    /// More was heard, and so much is known: whether the interim response was said.
    Waits(bool),
    /// The request was heard, or no more is.
    Done(Heard),
}
