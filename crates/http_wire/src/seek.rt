//! The head at the front of the unread bytes, which are looked at once.
ghost use Rattle.std.specs.Prelude.{◌≡◌, ◌≤◌, length};
ghost use Rattle.http_wire.specs.Lines.{head_end};
ghost use Rattle.http_wire.specs.Within.Seeing.{FindsHead, IsSeeking};

use crate::chunks::Progress;
use crate::head::{FoundHead, read_head};
use crate::lines::{LinePlace, Looked, after, front, look};

/// The most bytes of a head.
const MAX_HEAD: usize = 16_384;

/// What is known of the unread bytes.
#[derive(Clone, Copy)]
pub(crate) enum Seen {
    /// So many of them hold no whole head, and lead to this place.
    Seeking(LinePlace, usize),
    /// The head, and how far a chunked body behind it was read.
    Found(FoundHead, Progress),
}

/// What is found of the head at the front.
#[derive(Clone, Copy)]
pub(crate) enum HeadFound {
    /// So many bytes hold no whole head, and lead to this place.
    More(LinePlace, usize),
    Refused,
    Whole(FoundHead),
}

/// Looks for the head, where so many bytes were looked at before.
pub(crate) fn seek(unread: &[u8], place: LinePlace, at: usize) -> HeadFound
    requires { IsSeeking unread.now place at }
    ensures { FindsHead unread.now result }
{
    let seen = front(unread, MAX_HEAD);
    match look(place, after(seen, at)) {
        Looked::Ended(count) => read_front(unread, at + count),
        Looked::Still(place) => {
            if seen.len() < MAX_HEAD {
                HeadFound::More(place, seen.len())
            } else {
                HeadFound::Refused
            }
        }
    }
}

/// Reads the head that has so many bytes.
fn read_front(unread: &[u8], end: usize) -> HeadFound
    requires ends { head_end unread.now ≡ Looked.Ended end }
    requires inside { end ≤ length unread.now }
    ensures { FindsHead unread.now result }
{
    match read_head(front(unread, end)) {
        Some(found) => HeadFound::Whole(found),
        None => HeadFound::Refused,
    }
}
