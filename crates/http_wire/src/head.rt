//! A whole head, and what it says of its request (RFC 9112, sections 3 and 9). `httparse` reads it.
ghost use Rattle.std.specs.Prelude.{◌≡◌, ◌≤◌, ◌+◌, All, IfSome, IsNone, IsTrue, bytes_eq, length, take};
ghost use Rattle.httparse.specs.Grammar.{RequestHead};
ghost use Rattle.httparse.specs.Spans.{IsHeaderWithin, IsRequestAt, IsRequestWithin};
ghost use Rattle.http_wire.specs.Fields.{fields_at};
ghost use Rattle.http_wire.specs.Framing.{closes_by, interim_by, is_media, method_kind};
ghost use Rattle.http_wire.specs.Heads.{Describes, IsOneHead};

use crate::fields::has_value;
use crate::framing::{Framing, WireFault, declared, has_body, is_coded, judged};
use httparse::Status;
use httparse::spans::{EMPTY_HEADER_SPAN, HeaderSpan, RequestSpans, parse_request};

/// The kind of a request's method.
#[derive(Clone, Copy, Debug, PartialEq, Eq)]
pub enum MethodKind {
    Get,
    Head,
    Post,
    Put,
    Delete,
    Other,
}

/// A place in the bytes of a feed.
#[derive(Clone, Copy, Debug, PartialEq, Eq)]
pub struct FeedSpan {
    pub start: usize,
    pub length: usize,
}

/// A head that stands at the front of bytes. The target's place counts from there.
#[derive(Clone, Copy)]
pub(crate) struct FoundHead {
    /// The number of the head's bytes.
    pub(crate) length: usize,
    pub(crate) method: MethodKind,
    pub(crate) target: FeedSpan,
    /// A PUT to a target that begins with `/media/`.
    pub(crate) is_media: bool,
    pub(crate) framing: Result<Framing, WireFault>,
    pub(crate) wants_interim: bool,
    pub(crate) closes: bool,
}

/// The most fields of a head.
const MAX_FIELDS: usize = 64;

/// Reads bytes as one head.
pub(crate) fn read_head(bytes: &[u8]) -> Option<FoundHead>
    ensures some { IfSome result
        (λ found. (head : RequestHead) × IsOneHead bytes.now head × Describes bytes.now head found) }
    ensures length { IfSome result (λ found. found.length ≡ length bytes.now) }
    ensures none { IsNone result → (head : RequestHead) → ¬ (IsOneHead bytes.now head) }
{
    let mut headers = [EMPTY_HEADER_SPAN; MAX_FIELDS];
    match parse_request(bytes, &mut headers) {
        Ok(Status::Complete(spans)) => {
            if spans.len == bytes.len() {
                Some(describe(bytes, &headers[..spans.headers], &spans))
            } else {
                None
            }
        }
        _ => None,
    }
}

/// What a head says, by the places of its parts.
fn describe(bytes: &[u8], headers: &[HeaderSpan], spans: &RequestSpans) -> FoundHead
    requires within { IsRequestWithin bytes.now headers.now spans.now }
    requires all { spans.now.headers ≡ length headers.now }
    ensures length { result.length ≡ spans.now.len }
    ensures parts { (head : RequestHead) → IsRequestAt bytes.now headers.now spans.now head
        → Describes bytes.now head result }
{
    let method = spans.method.of(bytes);
    let target = spans.path.of(bytes);
    let is_media = is_media(method, target);
    let framing = judged(
        is_media,
        is_coded(bytes, headers),
        declared(bytes, headers, spans.version),
    );
    let expects = has_value(bytes, headers, b"expect", b"100-continue");
    let says_close = has_value(bytes, headers, b"connection", b"close");
    FoundHead {
        length: spans.len,
        method: method_kind(method),
        target: FeedSpan {
            start: spans.path.start,
            length: spans.path.end - spans.path.start,
        },
        is_media,
        framing,
        wants_interim: interim_by(spans.version, expects, framing),
        closes: closes_by(spans.version, says_close),
    }
}

/// Whether an interim response is due.
fn interim_by(minor: u8, expects: bool, framing: Result<Framing, WireFault>) -> bool
    ensures { result ≡ interim_by minor expects framing }
{
    minor == 1 && expects && has_body(framing)
}

/// Whether the connection ends behind the answer.
fn closes_by(minor: u8, says_close: bool) -> bool
    ensures { result ≡ closes_by minor says_close }
{
    minor == 0 || says_close
}

/// The kind of a method (RFC 9110, section 9.3).
fn method_kind(method: &[u8]) -> MethodKind
    ensures { result ≡ method_kind method.now }
{
    if same_bytes(method, b"GET") {
        MethodKind::Get
    } else if same_bytes(method, b"HEAD") {
        MethodKind::Head
    } else if same_bytes(method, b"POST") {
        MethodKind::Post
    } else if same_bytes(method, b"PUT") {
        MethodKind::Put
    } else if same_bytes(method, b"DELETE") {
        MethodKind::Delete
    } else {
        MethodKind::Other
    }
}

/// Whether a request is a media PUT.
fn is_media(method: &[u8], target: &[u8]) -> bool
    ensures { result ≡ is_media method.now target.now }
{
    same_bytes(method, b"PUT") && target.starts_with(b"/media/")
}

/// Whether two slices have the same bytes.
fn same_bytes(left: &[u8], right: &[u8]) -> bool
    ensures { result ≡ bytes_eq left.now right.now }
{
    left == right
}
