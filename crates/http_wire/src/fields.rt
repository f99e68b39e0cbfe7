//! The fields of a head by their names (RFC 9110, section 5.1).
ghost use Rattle.std.specs.Prelude.{◌≡◌, All, length, not, option_copied};
ghost use Rattle.std.specs.List.{list_any};
ghost use Rattle.httparse.specs.Spans.{IsHeaderWithin};
ghost use Rattle.http_wire.specs.Fields.{fields_at, first_of, read_length, same_text, field_values};

use httparse::spans::HeaderSpan;

/// The most digits of a length.
const MAX_DIGITS: usize = 19;

/// Whether two texts are equal but for the case of ASCII letters.
pub(crate) fn same_text(left: &[u8], right: &[u8]) -> bool
    ensures { result ≡ same_text left.now right.now }
{
    left.eq_ignore_ascii_case(right)
}

/// The first value of a name.
pub(crate) fn first_value<'b>(
    bytes: &'b [u8],
    headers: &[HeaderSpan],
    name: &[u8],
) -> Option<&'b [u8]>
    requires { All (IsHeaderWithin (length bytes.now)) headers.now }
    ensures { option_copied result ≡ first_of (field_values name.now (fields_at bytes.now headers.now)) }
{
    for header in headers {
        if same_text(header.name.of(bytes), name) {
            return Some(header.value.of(bytes));
        }
    }
    None
}

/// How many values a name has.
pub(crate) fn count_values(bytes: &[u8], headers: &[HeaderSpan], name: &[u8]) -> usize
    requires { All (IsHeaderWithin (length bytes.now)) headers.now }
    ensures { result ≡ length (field_values name.now (fields_at bytes.now headers.now)) }
{
    let mut count = 0;
    for header in headers {
        if same_text(header.name.of(bytes), name) {
            count += 1;
        }
    }
    count
}

/// Whether some value of a name is this text.
pub(crate) fn has_value(bytes: &[u8], headers: &[HeaderSpan], name: &[u8], text: &[u8]) -> bool
    requires { All (IsHeaderWithin (length bytes.now)) headers.now }
    ensures { result ≡ list_any (same_text text.now) (field_values name.now (fields_at bytes.now headers.now)) }
{
    for header in headers {
        if same_text(header.name.of(bytes), name) && same_text(text, header.value.of(bytes)) {
            return true;
        }
    }
    false
}

/// Whether some value of a name is another text.
pub(crate) fn has_other(bytes: &[u8], headers: &[HeaderSpan], name: &[u8], text: &[u8]) -> bool
    requires { All (IsHeaderWithin (length bytes.now)) headers.now }
    ensures { result ≡ list_any (λ value. not (same_text text.now value))
        (field_values name.now (fields_at bytes.now headers.now)) }
{
    for header in headers {
        if same_text(header.name.of(bytes), name) && !same_text(text, header.value.of(bytes)) {
            return true;
        }
    }
    false
}

/// The length that 1 to 19 digits write (RFC 9110, section 8.6).
pub fn read_length(text: &[u8]) -> Option<u64>
    ensures { result ≡ read_length text.now }
{
    if text.is_empty() || text.len() > MAX_DIGITS {
        return None;
    }
    let mut value: u64 = 0;
    for byte in text {
        if !byte.is_ascii_digit() {
            return None;
        }
        value = value * 10 + u64::from(*byte - b'0');
    }
    Some(value)
}
