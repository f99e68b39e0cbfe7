//! Where a feed stands, and what it answers.
ghost use Rattle.std.specs.Prelude.{◌≡◌};
ghost use Rattle.http_wire.specs.Steps.{wire_refusal};

use crate::framing::WireFault;
use crate::head::{FeedSpan, MethodKind};
use media_rows::Refusal;

/// Where a feed stands between two calls.
#[derive(Clone, Copy)]
pub(crate) enum FeedStage {
    /// A request is to come.
    Open,
    /// So many bytes of a media body weren't handed on yet.
    Media(u64),
    /// The wire was refused.
    Failed(WireFault),
}

/// The head of a request. Its places are in the bytes of the feed that gave it.
#[derive(Clone, Copy, Debug, PartialEq, Eq)]
pub struct Head {
    pub method: MethodKind,
    /// The target, as it was sent.
    pub target: FeedSpan,
    /// The decoded body; empty where it is handed on apart.
    pub body: FeedSpan,
    /// The length of the body in bytes.
    pub length: u64,
    /// An interim response is due before the answer (RFC 9110, section 10.1.1).
    pub wants_interim: bool,
    /// The connection ends behind the answer.
    pub ends: bool,
}

/// What a feed answers.
#[derive(Drop)]
pub enum FeedStep {
    /// No whole request, no whole head of a media PUT and no fault stands in the bytes so far.
    More,
    /// A media PUT, whose body is handed on apart.
    Head(Head),
    /// Another request, with its whole body.
    Whole(Head),
    /// The connection ends.
    Refused(WireFault),
}

impl WireFault {
    /// The refusal that is answered.
    pub fn refusal(self) -> Refusal
        ensures { result ≡ wire_refusal self }
    {
        match self {
            WireFault::BadHead => Refusal::BadHead,
            WireFault::BadFraming => Refusal::BadFraming,
            WireFault::LengthRequired => Refusal::LengthRequired,
            WireFault::TooLarge => Refusal::TooLarge,
            WireFault::Coding => Refusal::Coding,
        }
    }
}
