//! What a peer's bytes say of its answer (RFC 9112, section 4). `httparse` reads each head.
ghost use Rattle.std.specs.Prelude.{◌≡◌, ◌≤◌, IfSome, IsNone, drop, length, take};
ghost use Rattle.hook_delivery.specs.Judging.{HasStatus, IsUnread, IsVerdict, is_interim, is_last};
ghost use Rattle.hook_delivery.specs.Within.Fronts.{IsFront};

use http_wire::{LinePlace, Looked, look};
use httparse::Status;
use httparse::spans::{EMPTY_HEADER_SPAN, HeaderSpan, parse_response};

/// The most bytes of an answer that are looked at.
pub(crate) const MAX_ANSWER: usize = 16_384;

/// The most fields of a head. More don't fit into so many bytes.
const MAX_FIELDS: usize = 8_192;

/// What bytes say of an answer.
#[derive(Clone, Copy, Debug, PartialEq, Eq)]
pub enum Verdict {
    /// The status of the first response that isn't interim.
    Status(u16),
    /// No response comes any more, or what came is none.
    Silent,
    /// More bytes are wanted.
    More,
}

/// What stands at the front of bytes.
#[derive(Clone, Copy)]
enum Front {
    /// An interim response, whose head has so many bytes.
    Passed(usize),
    /// What decides.
    Decided(Verdict),
}

/// Judges the bytes that a peer sent so far; `ended` tells that no more come. Interim responses (RFC 9110,
/// section 15.2) are passed over. Of the bytes the first 16,384 are looked at, which is our own rule.
pub fn judge(bytes: &[u8], ended: bool) -> Verdict
    ensures { IsVerdict bytes.now ended result }
{
    let is_last = is_last(bytes, ended);
    let mut room = [EMPTY_HEADER_SPAN; MAX_FIELDS];
    let mut rest = first_bytes(bytes, MAX_ANSWER);
    loop {
        match judge_front(rest, is_last, &mut room) {
            Front::Passed(end) => rest = after(rest, end),
            Front::Decided(verdict) => return verdict,
        }
    }
}

/// Whether no bytes count behind these.
fn is_last(bytes: &[u8], ended: bool) -> bool
    ensures { result ≡ is_last bytes.now ended }
{
    ended || MAX_ANSWER <= bytes.len()
}

/// The first bytes, at most so many.
fn first_bytes(bytes: &[u8], count: usize) -> &[u8]
    ensures { result.now ≡ take count bytes.now }
{
    if count < bytes.len() {
        &bytes[..count]
    } else {
        bytes
    }
}

/// The bytes behind so many.
fn after(bytes: &[u8], count: usize) -> &[u8]
    requires { count ≤ length bytes.now }
    ensures { result.now ≡ drop count bytes.now }
{
    &bytes[count..]
}

/// Judges the head at the front; `is_last` tells that nothing counts behind these bytes.
#[tactic(auto, using(crate::proofs::Verdicts::ends_behind_some))]
fn judge_front(bytes: &[u8], is_last: bool, room: &mut [HeaderSpan]) -> Front
    requires { length room.old ≡ MAX_FIELDS }
    ensures { IsFront bytes.now is_last result }
{
    match look(LinePlace::Before, bytes) {
        Looked::Ended(end) => match read_status(&bytes[..end], room) {
            Some(status) if is_interim(status) => Front::Passed(end),
            Some(status) => Front::Decided(Verdict::Status(status)),
            None => Front::Decided(Verdict::Silent),
        },
        Looked::Still(_) => Front::Decided(if is_last {
            Verdict::Silent
        } else {
            Verdict::More
        }),
    }
}

/// Whether a status is that of an interim response.
fn is_interim(status: u16) -> bool
    ensures { result ≡ is_interim status }
{
    100 <= status && status <= 199
}

/// The status of the head that bytes are.
fn read_status(bytes: &[u8], room: &mut [HeaderSpan]) -> Option<u16>
    requires { length room.old ≡ MAX_FIELDS }
    ensures some { IfSome result (HasStatus bytes.now) }
    ensures none { IsNone result → IsUnread bytes.now }
{
    match parse_response(bytes, room) {
        Ok(Status::Complete(spans)) if spans.len == bytes.len() => Some(spans.code),
        _ => None,
    }
}
