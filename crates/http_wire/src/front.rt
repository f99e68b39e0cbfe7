//! The request at the front of the unread bytes.
ghost use Rattle.std.specs.Prelude.{◌≡◌, ◌≤◌, ℕ, IsTrue, List, Ok, false};
ghost use Rattle.std.specs.Vec.{vec_capacity};
ghost use Rattle.http_wire.specs.Framing.{max_body};
ghost use Rattle.http_wire.specs.Heads.{IsHead, more, refused};
ghost use Rattle.http_wire.specs.Requests.{IsNext};
ghost use Rattle.http_wire.specs.Within.Seeing.{FindsNext, IsFound, IsRead, IsSeen};

use crate::chunk_line::LineSeen;
use crate::chunks::{ChunksFound, Progress, lacks_data, read_chunked};
use crate::framing::{Framing, WireFault};
use crate::head::FoundHead;
use crate::lines::after;
use crate::seek::{HeadFound, Seen, seek};

/// What is found of the request at the front.
#[derive(Clone, Copy)]
pub(crate) enum NextFound {
    /// Nothing whole as yet, but this is known.
    More(Seen),
    Refused(WireFault),
    /// The head of a media PUT, and the length of its body.
    Opened(FoundHead, u64),
    /// Another request, whose body is the so many bytes behind its head.
    Plain(FoundHead, usize),
    /// Another request, whose chunked body was decoded from so many bytes behind its head.
    Decoded(FoundHead, usize),
}

/// A chunked body of which nothing was read.
const UNREAD: Progress = Progress {
    at: 0,
    line: LineSeen::Open(0),
};

/// Whether the body behind a head, which was read so far, lacks bytes, whatever they are.
pub(crate) fn is_short(unread: &[u8], found: &FoundHead, progress: &Progress) -> bool
    requires { (content : List ℕ) × IsRead unread.now content found.now progress.now }
    ensures { IsTrue result → IsNext unread.now more }
{
    if found.is_media {
        return false;
    }
    match found.framing {
        Err(_) => false,
        Ok(Framing::Length(size)) => ((unread.len() - found.length) as u64) < size,
        Ok(Framing::Chunked) => lacks_data(after(unread, found.length), progress),
    }
}

/// Finds the request at the front, where something is known of the bytes. The data of chunks is put behind
/// what was read before.
pub(crate) fn find_next(unread: &[u8], seen: Seen, body: &mut Vec<u8>) -> NextFound
    requires seen { IsSeen unread.now body.old.items seen }
    requires room { max_body ≤ vec_capacity body.old }
    ensures found { FindsNext unread.now result body.new.items }
    ensures room { max_body ≤ vec_capacity body.new }
{
    match seen {
        Seen::Found(found, progress) => find_body(unread, found, progress, body),
        Seen::Seeking(place, at) => match seek(unread, place, at) {
            HeadFound::More(place, at) => NextFound::More(Seen::Seeking(place, at)),
            HeadFound::Refused => NextFound::Refused(WireFault::BadHead),
            HeadFound::Whole(found) => {
                body.clear();
                find_body(unread, found, UNREAD, body)
            }
        },
    }
}

/// Finds the body behind a head.
fn find_body(unread: &[u8], found: FoundHead, progress: Progress, body: &mut Vec<u8>) -> NextFound
    requires seen { IsRead unread.now body.old.items found progress }
    requires room { max_body ≤ vec_capacity body.old }
    ensures found { FindsNext unread.now result body.new.items }
    ensures room { max_body ≤ vec_capacity body.new }
{
    match found.framing {
        Err(fault) => NextFound::Refused(fault),
        Ok(framing) => find_framed(unread, found, framing, progress, body),
    }
}

/// Finds the body behind a head that isn't refused.
fn find_framed(
    unread: &[u8],
    found: FoundHead,
    framing: Framing,
    progress: Progress,
    body: &mut Vec<u8>,
) -> NextFound
    requires seen { IsRead unread.now body.old.items found progress }
    requires framed { found.framing ≡ Ok framing }
    requires room { max_body ≤ vec_capacity body.old }
    ensures found { FindsNext unread.now result body.new.items }
    ensures room { max_body ≤ vec_capacity body.new }
{
    match framing {
        Framing::Length(size) => {
            if found.is_media {
                NextFound::Opened(found, size)
            } else if ((unread.len() - found.length) as u64) < size {
                NextFound::More(Seen::Found(found, progress))
            } else {
                NextFound::Plain(found, size as usize)
            }
        }
        Framing::Chunked => {
            if found.is_media {
                NextFound::Refused(WireFault::LengthRequired)
            } else {
                find_chunked(unread, found, progress, body)
            }
        }
    }
}

/// Finds the chunked body behind a head.
fn find_chunked(
    unread: &[u8],
    found: FoundHead,
    progress: Progress,
    body: &mut Vec<u8>,
) -> NextFound
    requires seen { IsRead unread.now body.old.items found progress }
    requires other { found.is_media ≡ false }
    requires chunked { found.framing ≡ Ok Framing.Chunked }
    requires room { max_body ≤ vec_capacity body.old }
    ensures found { FindsNext unread.now result body.new.items }
    ensures room { max_body ≤ vec_capacity body.new }
{
    match read_chunked(after(unread, found.length), progress, body) {
        ChunksFound::More(progress) => NextFound::More(Seen::Found(found, progress)),
        ChunksFound::Refused(fault) => NextFound::Refused(fault),
        ChunksFound::Whole(count) => NextFound::Decoded(found, count),
    }
}
