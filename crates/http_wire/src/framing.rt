//! How a head's body is framed, and which head is refused (RFC 9112, section 6).
ghost use Rattle.std.specs.Prelude.{◌≡◌, All, codes, length};
ghost use Rattle.httparse.specs.Spans.{IsHeaderWithin};
ghost use Rattle.http_wire.specs.Fields.{fields_at, field_values};
ghost use Rattle.http_wire.specs.Framing.{declared, has_body, is_coded, judged_framing, read_coding, read_same_length};

use crate::fields::{count_values, first_value, has_other, read_length, same_text};
use httparse::spans::HeaderSpan;

/// How a body is framed.
#[derive(Clone, Copy)]
pub(crate) enum Framing {
    /// So many bytes.
    Length(u64),
    Chunked,
}

/// The five refusals of the wire, each of which ends the connection.
#[derive(Clone, Copy, Debug, PartialEq, Eq)]
pub enum WireFault {
    BadHead,
    BadFraming,
    LengthRequired,
    TooLarge,
    Coding,
}

/// The most bytes of a body that is held whole.
pub(crate) const BODY_ROOM: usize = 1_048_576;
/// The same, as a length.
const MAX_BODY: u64 = 1_048_576;
/// The most bytes of a media object.
const MAX_MEDIA: u64 = 1_073_741_824;

const CONTENT_LENGTH: &[u8] = b"content-length";

const TRANSFER_ENCODING: &[u8] = b"transfer-encoding";

const CONTENT_ENCODING: &[u8] = b"content-encoding";

/// The framing that fields declare, and `None` where it can't be read.
pub(crate) fn declared(bytes: &[u8], headers: &[HeaderSpan], minor: u8) -> Option<Framing>
    requires { All (IsHeaderWithin (length bytes.now)) headers.now }
    ensures { result ≡ declared minor (fields_at bytes.now headers.now) }
{
    let coding = first_value(bytes, headers, TRANSFER_ENCODING);
    match first_value(bytes, headers, CONTENT_LENGTH) {
        None => match coding {
            None => Some(Framing::Length(0)),
            Some(text) => {
                read_coding(minor, count_values(bytes, headers, TRANSFER_ENCODING), text)
            }
        },
        Some(text) => match coding {
            None => read_same_length(bytes, headers, text),
            Some(_) => None,
        },
    }
}

/// A transfer coding that is read: `chunked`, once, and in HTTP/1.1.
fn read_coding(minor: u8, count: usize, text: &[u8]) -> Option<Framing>
    ensures { result ≡ read_coding minor count text.now }
{
    if minor == 1 && count == 1 && same_text(text, b"chunked") {
        Some(Framing::Chunked)
    } else {
        None
    }
}

/// A length that is read: all its fields have the same digits.
fn read_same_length(bytes: &[u8], headers: &[HeaderSpan], text: &[u8]) -> Option<Framing>
    requires { All (IsHeaderWithin (length bytes.now)) headers.now }
    ensures { result
        ≡ read_same_length (field_values (codes "content-length") (fields_at bytes.now headers.now)) text.now }
{
    if has_other(bytes, headers, CONTENT_LENGTH, text) {
        return None;
    }
    match read_length(text) {
        Some(length) => Some(Framing::Length(length)),
        None => None,
    }
}

/// Whether some content coding isn't `identity`.
pub(crate) fn is_coded(bytes: &[u8], headers: &[HeaderSpan]) -> bool
    requires { All (IsHeaderWithin (length bytes.now)) headers.now }
    ensures { result ≡ is_coded (fields_at bytes.now headers.now) }
{
    has_other(bytes, headers, CONTENT_ENCODING, b"identity")
}

/// The framing, or the first refusal that stands.
pub(crate) fn judged(
    is_media: bool,
    is_coded: bool,
    framing: Option<Framing>,
) -> Result<Framing, WireFault>
    ensures { result ≡ judged_framing is_media is_coded framing }
{
    let limit = if is_media { MAX_MEDIA } else { MAX_BODY };
    match framing {
        None => Err(WireFault::BadFraming),
        Some(Framing::Chunked) if is_media => Err(WireFault::LengthRequired),
        Some(Framing::Length(length)) if length > limit => Err(WireFault::TooLarge),
        Some(_) if is_coded => Err(WireFault::Coding),
        Some(framing) => Ok(framing),
    }
}

/// Whether a body is to come.
pub(crate) fn has_body(framing: Result<Framing, WireFault>) -> bool
    ensures { result ≡ has_body framing }
{
    match framing {
        Ok(Framing::Length(length)) => length != 0,
        Ok(Framing::Chunked) => true,
        Err(_) => false,
    }
}
