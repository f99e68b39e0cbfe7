//! The line before a chunk, and the trailer behind the last one (RFC 9112, section 7.1).
ghost use Rattle.std.specs.Prelude.{◌≡◌, ◌≤◌, IfSome, None, length, take};
ghost use Rattle.http_wire.specs.Chunks.{data_ending, count_lines, line_size};
ghost use Rattle.http_wire.specs.Lines.{line_end};
ghost use Rattle.http_wire.specs.Within.Trailers.{FindsTrailer, IsTrailerSeen};

use crate::lines::{LinePlace, Looked, after, find_line, front, look};
use httparse::{Status, parse_chunk_size};

/// How far a trailer was looked at.
#[derive(Clone, Copy)]
pub(crate) struct TrailerSeen {
    /// So many of its bytes hold no empty line,
    pub(crate) at: usize,
    /// and lead to this place,
    pub(crate) place: LinePlace,
    /// and so many lines end in them.
    pub(crate) lines: usize,
}

/// What is known of the line at the front of bytes.
#[derive(Clone, Copy)]
pub(crate) enum LineSeen {
    /// It doesn't end in so many bytes.
    Open(usize),
    /// It has so many bytes, and names so many bytes of data.
    Read(usize, usize),
    /// It has so many bytes, and is the last chunk's. The trailer behind it was looked at so far.
    Last(usize, TrailerSeen),
}

/// What is found of a trailer.
#[derive(Clone, Copy)]
pub(crate) enum TrailerFound {
    /// Nothing whole as yet, but it was looked at so far.
    More(TrailerSeen),
    /// It can't be read.
    Wrong,
    /// It has so many bytes.
    Whole(usize),
}

/// A trailer that wasn't looked at.
pub(crate) const UNSEEN_TRAILER: TrailerSeen = TrailerSeen {
    at: 0,
    place: LinePlace::After,
    lines: 0,
};

/// What stands at the front of bytes as an end.
#[derive(Clone, Copy)]
pub(crate) enum FrontEnd {
    /// Nothing whole as yet.
    Open,
    /// It can't be read.
    Wrong,
    /// An end of so many bytes.
    Ended(usize),
}

/// The most bytes of a trailer.
const MAX_TRAILER: usize = 16_384;
/// The most lines of a trailer.
const MAX_TRAILER_LINES: usize = 65;

/// The bytes up to and with the first line feed, where so many of them are known to have none.
pub(crate) fn find_line_behind(bytes: &[u8], seen: usize) -> Option<usize>
    requires inside { seen ≤ length bytes.now }
    requires none { line_end (take seen bytes.now) ≡ None }
    ensures end { result ≡ line_end bytes.now }
    ensures inside { IfSome result (λ n. n ≤ length bytes.now) }
{
    match find_line(after(bytes, seen)) {
        Some(n) => Some(seen + n),
        None => None,
    }
}

/// The size that a chunk's line names. `httparse` reads it.
pub(crate) fn read_size(line: &[u8]) -> Option<u64>
    ensures { result ≡ line_size line.now }
{
    match parse_chunk_size(line) {
        Ok(Status::Complete((length, size))) => {
            if length == line.len() {
                Some(size)
            } else {
                None
            }
        }
        Ok(Status::Partial) => None,
        Err(_) => None,
    }
}

/// The end of a chunk's data: CR LF.
pub(crate) fn closed(bytes: &[u8]) -> FrontEnd
    ensures { result ≡ data_ending bytes.now }
{
    match bytes {
        [] => FrontEnd::Open,
        [first] => {
            if *first == b'\r' {
                FrontEnd::Open
            } else {
                FrontEnd::Wrong
            }
        }
        [first, second, ..] => {
            if *first == b'\r' && *second == b'\n' {
                FrontEnd::Ended(2)
            } else {
                FrontEnd::Wrong
            }
        }
    }
}

/// Looks for the end of a trailer, its first empty line, where so much of it was looked at before.
pub(crate) fn find_trailer(bytes: &[u8], seen: TrailerSeen) -> TrailerFound
    requires { IsTrailerSeen bytes.now seen }
    ensures { FindsTrailer bytes.now result }
{
    let most = front(bytes, MAX_TRAILER);
    let rest = after(most, seen.at);
    match look(seen.place, rest) {
        Looked::Ended(count) => {
            if seen.lines + count_lines(front(rest, count)) > MAX_TRAILER_LINES {
                TrailerFound::Wrong
            } else {
                TrailerFound::Whole(seen.at + count)
            }
        }
        Looked::Still(place) => {
            let lines = seen.lines + count_lines(rest);
            if most.len() >= MAX_TRAILER || lines >= MAX_TRAILER_LINES {
                TrailerFound::Wrong
            } else {
                TrailerFound::More(TrailerSeen {
                    at: most.len(),
                    place,
                    lines,
                })
            }
        }
    }
}

/// How many lines end in bytes.
fn count_lines(bytes: &[u8]) -> usize
    ensures lines { result ≡ count_lines bytes.now }
    ensures few { result ≤ length bytes.now }
{
    bytes.iter().filter(|byte| **byte == b'\n').count()
}
