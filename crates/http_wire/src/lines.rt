//! Where a head ends, and where a line ends (RFC 9112, sections 2.1 and 2.2).
ghost use Rattle.std.specs.Prelude.{◌≡◌, ◌≤◌, ◌+◌, ◌++◌, IfSome, drop, length, take, vec_len};
ghost use Rattle.std.specs.Vec.{vec_capacity};
ghost use Rattle.http_wire.specs.Lines.{line_end, looked, next_place};
ghost use Rattle.http_wire.specs.Within.Lines.{IsLookedIn};

/// Where a look at a head stands behind some of its bytes.
#[derive(Clone, Copy, Debug, PartialEq, Eq)]
pub enum LinePlace {
    /// Only empty lines so far.
    Before,
    /// The same, and a carriage return.
    BeforeReturn,
    /// In a line that isn't empty.
    Within,
    /// At the front of a line behind one that isn't empty.
    After,
    /// The same, and a carriage return.
    AfterReturn,
}

/// What a look at bytes finds.
#[derive(Clone, Copy, Debug, PartialEq, Eq)]
pub enum Looked {
    /// The head ends behind so many of them.
    Ended(usize),
    /// It doesn't end in them.
    Still(LinePlace),
}

/// The place behind a byte, and `None` where the byte ends the head.
fn next_place(place: LinePlace, byte: u8) -> Option<LinePlace>
    ensures { result ≡ next_place place byte }
{
    match (place, byte) {
        (LinePlace::Before, b'\n') => Some(LinePlace::Before),
        (LinePlace::Before, b'\r') => Some(LinePlace::BeforeReturn),
        (LinePlace::BeforeReturn, b'\n') => Some(LinePlace::Before),
        (LinePlace::Within, b'\n') => Some(LinePlace::After),
        (LinePlace::After, b'\n') | (LinePlace::AfterReturn, b'\n') => None,
        (LinePlace::After, b'\r') => Some(LinePlace::AfterReturn),
        _ => Some(LinePlace::Within),
    }
}

/// Looks for the end of a head in bytes, from a place on (RFC 9112, sections 2.1 and 2.2).
pub fn look(place: LinePlace, bytes: &[u8]) -> Looked
    ensures found { result ≡ looked place bytes.now }
    ensures inside { IsLookedIn result (length bytes.now) }
{
    let mut now = place;
    for (i, byte) in bytes.iter().enumerate() {
        match next_place(now, *byte) {
            Some(next) => now = next,
            None => return Looked::Ended(i + 1),
        }
    }
    Looked::Still(now)
}

/// The bytes up to and with the first line feed.
pub(crate) fn find_line(bytes: &[u8]) -> Option<usize>
    ensures end { result ≡ line_end bytes.now }
    ensures inside { IfSome result (λ n. n ≤ length bytes.now) }
{
    for (i, byte) in bytes.iter().enumerate() {
        if *byte == b'\n' {
            return Some(i + 1);
        }
    }
    None
}

/// The bytes behind so many.
pub(crate) fn after(bytes: &[u8], count: usize) -> &[u8]
    requires { count ≤ length bytes.now }
    ensures { result.now ≡ drop count bytes.now }
{
    &bytes[count..]
}

/// The first bytes, at most so many.
pub(crate) fn front(bytes: &[u8], count: usize) -> &[u8]
    ensures value { result.now ≡ take count bytes.now }
    ensures within { length result.now ≤ length bytes.now }
{
    if count < bytes.len() {
        &bytes[..count]
    } else {
        bytes
    }
}

/// So many bytes behind so many.
pub(crate) fn part(bytes: &[u8], at: usize, count: usize) -> &[u8]
    requires { at + count ≤ length bytes.now }
    ensures { result.now ≡ take count (drop at bytes.now) }
{
    &bytes[at..at + count]
}

/// Adds bytes for which there is room.
pub(crate) fn keep(held: &mut Vec<u8>, bytes: &[u8])
    requires { vec_len held.old + length bytes.now ≤ vec_capacity held.old }
    ensures items { held.new.items ≡ held.old.items ++ bytes.now }
    ensures room { vec_capacity held.old ≤ vec_capacity held.new }
{
    held.extend_from_slice(bytes).unwrap();
}
