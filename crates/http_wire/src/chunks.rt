//! A chunked body (RFC 9112, section 7.1), read in whatever pieces it comes: each chunk is looked at once.
ghost use Rattle.std.specs.Prelude.{◌≡◌, ◌-◌, ◌≤◌, ℕ, IsTrue, List, Some, drop, length};
ghost use Rattle.std.specs.Vec.{vec_capacity};
ghost use Rattle.http_wire.specs.Chunks.{chunked, coded_front};
ghost use Rattle.http_wire.specs.Framing.{max_body};
ghost use Rattle.http_wire.specs.Heads.{more};
ghost use Rattle.http_wire.specs.Lines.{line_end};
ghost use Rattle.http_wire.specs.Within.Reading.{FindsChunk, FindsChunked, FindsChunks, IsLastLine, IsLine, IsLineSeen, IsReached};
ghost use Rattle.http_wire.specs.Within.Trailers.{IsTrailerSeen};

use crate::chunk_line::{
    FrontEnd, LineSeen, TrailerFound, TrailerSeen, UNSEEN_TRAILER, closed, find_line_behind,
    find_trailer, read_size,
};
use crate::framing::{BODY_ROOM, WireFault};
use crate::lines::{after, front, keep, part};

/// The most bytes of a chunked body with its chunks' lines and its trailer.
const MAX_CODED: usize = 8_388_608;
/// The bytes that are looked at: one more shows that a body has too many.
const CODED_ROOM: usize = 8_388_609;

/// What is found of the chunk at the front of bytes.
#[derive(Clone, Copy)]
pub(crate) enum ChunkFound {
    /// Nothing whole as yet, but this is known of its line.
    More(LineSeen),
    Refused(WireFault),
    /// A chunk whose line has so many bytes, and its data so many.
    Chunk(usize, usize),
    /// The last chunk and the trailer, of so many bytes.
    Last(usize),
}

/// How far a chunked body was read.
#[derive(Clone, Copy)]
pub(crate) struct Progress {
    /// The bytes of whole chunks.
    pub(crate) at: usize,
    /// What is known of the line that stands behind them.
    pub(crate) line: LineSeen,
}

/// What is found of a chunked body.
#[derive(Clone, Copy)]
pub(crate) enum ChunksFound {
    /// Nothing whole as yet, but it was read so far.
    More(Progress),
    Refused(WireFault),
    /// The whole body, of so many bytes.
    Whole(usize),
}

/// Reads the chunk at the front of bytes, of whose line something is known.
fn read_chunk(bytes: &[u8], room: usize, line: LineSeen) -> ChunkFound
    requires { IsLineSeen bytes.now room line }
    ensures { FindsChunk bytes.now room result }
{
    match line {
        LineSeen::Read(count, size) => read_data(bytes, room, count, size),
        LineSeen::Last(count, seen) => read_last(bytes, room, count, seen),
        LineSeen::Open(seen) => match find_line_behind(bytes, seen) {
            Some(count) => read_line(bytes, room, count),
            None => ChunkFound::More(LineSeen::Open(bytes.len())),
        },
    }
}

/// Reads a chunk whose line has so many bytes.
fn read_line(bytes: &[u8], room: usize, count: usize) -> ChunkFound
    requires ends { line_end bytes.now ≡ Some count }
    requires inside { count ≤ length bytes.now }
    ensures { FindsChunk bytes.now room result }
{
    match read_size(front(bytes, count)) {
        None => ChunkFound::Refused(WireFault::BadFraming),
        Some(size) => {
            if size == 0 {
                read_last(bytes, room, count, UNSEEN_TRAILER)
            } else if size > room as u64 {
                ChunkFound::Refused(WireFault::TooLarge)
            } else {
                read_data(bytes, room, count, size as usize)
            }
        }
    }
}

/// Reads the last chunk, whose line has so many bytes, and the trailer, of which so much was looked at.
fn read_last(bytes: &[u8], room: usize, count: usize, seen: TrailerSeen) -> ChunkFound
    requires line { IsLastLine bytes.now count }
    requires trailer { IsTrailerSeen (drop count bytes.now) seen }
    ensures { FindsChunk bytes.now room result }
{
    match find_trailer(after(bytes, count), seen) {
        TrailerFound::More(seen) => ChunkFound::More(LineSeen::Last(count, seen)),
        TrailerFound::Wrong => ChunkFound::Refused(WireFault::BadFraming),
        TrailerFound::Whole(more) => ChunkFound::Last(count + more),
    }
}

/// Reads a chunk whose line has so many bytes and names so many bytes of data.
fn read_data(bytes: &[u8], room: usize, count: usize, size: usize) -> ChunkFound
    requires { IsLine bytes.now room count size }
    ensures { FindsChunk bytes.now room result }
{
    if bytes.len() - count < size {
        return ChunkFound::More(LineSeen::Read(count, size));
    }
    match closed(after(bytes, count + size)) {
        FrontEnd::Open => ChunkFound::More(LineSeen::Read(count, size)),
        FrontEnd::Wrong => ChunkFound::Refused(WireFault::BadFraming),
        FrontEnd::Ended(_) => ChunkFound::Chunk(count, size),
    }
}

/// The room for data behind a body.
fn room_behind(body: &Vec<u8>) -> usize
    requires { length body.now.items ≤ max_body }
    ensures { result ≡ max_body - length body.now.items }
{
    BODY_ROOM - body.len()
}

/// Reads a chunked body from where it was read to, and puts its data behind what was read before.
pub(crate) fn read_chunks(bytes: &[u8], start: Progress, body: &mut Vec<u8>) -> ChunksFound
    requires reached { IsReached bytes.now body.old.items start }
    requires room { max_body ≤ vec_capacity body.old }
    ensures found { FindsChunks bytes.now result body.new.items }
    ensures room { max_body ≤ vec_capacity body.new }
{
    let mut progress = start;
    'chunks: loop {
        let rest = after(bytes, progress.at);
        match read_chunk(rest, room_behind(body), progress.line) {
            ChunkFound::More(line) => {
                return ChunksFound::More(Progress {
                    at: progress.at,
                    line,
                });
            }
            ChunkFound::Refused(fault) => return ChunksFound::Refused(fault),
            ChunkFound::Last(count) => return ChunksFound::Whole(progress.at + count),
            ChunkFound::Chunk(count, size) => {
                keep(body, part(rest, count, size));
                progress = Progress {
                    at: progress.at + count + size + 2,
                    line: LineSeen::Open(0),
                };
            }
        }
    }
}

/// Whether a chunk whose line was read lacks data, whatever it is.
pub(crate) fn lacks_data(bytes: &[u8], progress: &Progress) -> bool
    requires { (content : List ℕ) × IsReached (coded_front bytes.now) content progress.now }
    ensures { IsTrue result → chunked bytes.now ≡ more }
{
    match progress.line {
        LineSeen::Read(count, size) => {
            bytes.len() <= MAX_CODED && bytes.len() - progress.at - count < size
        }
        LineSeen::Open(_) | LineSeen::Last(_, _) => false,
    }
}

/// Reads a chunked body with the limit of its coded bytes.
pub(crate) fn read_chunked(bytes: &[u8], start: Progress, body: &mut Vec<u8>) -> ChunksFound
    requires reached { IsReached (coded_front bytes.now) body.old.items start }
    requires room { max_body ≤ vec_capacity body.old }
    ensures found { FindsChunked bytes.now result body.new.items }
    ensures room { max_body ≤ vec_capacity body.new }
{
    let seen = front(bytes, CODED_ROOM);
    match read_chunks(seen, start, body) {
        ChunksFound::More(progress) => {
            if seen.len() > MAX_CODED {
                ChunksFound::Refused(WireFault::TooLarge)
            } else {
                ChunksFound::More(progress)
            }
        }
        ChunksFound::Refused(fault) => ChunksFound::Refused(fault),
        ChunksFound::Whole(count) => {
            if count > MAX_CODED {
                ChunksFound::Refused(WireFault::TooLarge)
            } else {
                ChunksFound::Whole(count)
            }
        }
    }
}
