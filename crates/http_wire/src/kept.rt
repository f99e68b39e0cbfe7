//! The bytes that a feed keeps. One buffer, taken at once, holds them, and is moved to its front only where
//! at least as many bytes before them are done with.
ghost use Rattle.std.specs.Prelude.{◌≡◌, ◌≤◌, ◌+◌, ◌*◌, ◌++◌, IfOk, drop, length, take, vec_len};
ghost use Rattle.std.specs.Vec.{vec_capacity};
ghost use Rattle.http_wire.specs.Parts.{held, kept_size, no_parts, skipped, with_more};

use crate::lines::{after, keep, part};
use disk_trait::Memory;
use std::alloc::Global;
use std::marker::Model;

/// The most bytes that are kept: a head, a chunked body and one byte more.
pub(crate) const KEPT_ROOM: usize = 8_404_993;
/// The bytes of the buffer.
const BUFFER_ROOM: usize = 16_809_986;

/// The bytes of what was given last, and the unread ones behind them.
#[derive(Drop)]
pub(crate) struct HeldBytes {
    bytes: Vec<u8>,
    /// Where the given bytes begin.
    start: usize,
    /// How many they are.
    taken: usize,
    /// Where the unread bytes begin.
    read: usize,
}

impl Model for HeldBytes {
    ghost use Rattle.std.specs.Prelude.{◌+◌, ◌-◌, ◌≤◌, drop, take, vec_len};
    ghost use Rattle.std.specs.Vec.{vec_capacity};
    ghost use Rattle.http_wire.specs.Parts.{GivenParts};
    ghost use Rattle.http_wire.specs.declared.kept.TheConstants.{BUFFER_ROOM, KEPT_ROOM};

    ghost Value = { GivenParts };

    ghost view = { λ k. record {
      last = take k.taken (drop k.start k.bytes.items);
      unread = drop k.read k.bytes.items;
    } };

    ghost invariant = { λ k. record {
      order : k.start + k.taken ≤ k.read;
      inside : k.read ≤ vec_len k.bytes;
      few : k.taken + (vec_len k.bytes - k.read) ≤ KEPT_ROOM;
      room : BUFFER_ROOM ≤ vec_capacity k.bytes;
    } };
}

impl HeldBytes {
    /// Takes the buffer.
    pub(crate) fn new(alloc: Global) -> Result<HeldBytes, Memory>
        ensures { IfOk result (λ kept. kept ≡ no_parts) }
    {
        Ok(HeldBytes {
            bytes: Vec::with_capacity(alloc, BUFFER_ROOM)?,
            start: 0,
            taken: 0,
            read: 0,
        })
    }

    /// The bytes of what was given last.
    pub(crate) fn last(&self) -> &[u8]
        ensures { result.now ≡ self.now.last }
    {
        part(&self.bytes, self.start, self.taken)
    }

    /// The unread bytes.
    pub(crate) fn unread(&self) -> &[u8]
        ensures value { result.now ≡ self.now.unread }
        ensures few { length result.now ≤ KEPT_ROOM }
    {
        after(&self.bytes, self.read)
    }

    /// How many bytes are kept.
    pub(crate) fn len(&self) -> usize
        ensures size { result ≡ kept_size self.now }
        ensures few { result ≤ KEPT_ROOM }
    {
        self.taken + (self.bytes.len() - self.read)
    }

    /// Keeps nothing.
    pub(crate) fn clear(&mut self)
        ensures { self.new ≡ no_parts }
    {
        self.bytes.clear();
        self.start = 0;
        self.taken = 0;
        self.read = 0;
    }

    /// The first unread bytes, so many, are what is given now.
    pub(crate) fn hold(&mut self, count: usize)
        requires { count ≤ length self.old.unread }
        ensures { self.new ≡ held count self.old }
    {
        self.start = self.read;
        self.taken = count;
        self.read += count;
    }

    /// The first unread bytes, so many, are done with.
    pub(crate) fn skip(&mut self, count: usize)
        requires { count ≤ length self.old.unread }
        ensures { self.new ≡ skipped count self.old }
    {
        self.read += count;
    }

    /// Adds bytes for which there is room.
    pub(crate) fn push(&mut self, piece: &[u8])
        requires { kept_size self.old + length piece.now ≤ KEPT_ROOM }
        ensures { self.new ≡ with_more piece.now self.old }
    {
        if self.taken + (self.bytes.len() - self.read) <= self.read - self.taken {
            close_up(&mut self.bytes, self.start, self.taken, self.read);
            self.start = 0;
            self.read = self.taken;
        }
        keep(&mut self.bytes, piece);
    }
}

/// Moves two parts of a buffer to its front.
fn close_up(bytes: &mut Vec<u8>, start: usize, taken: usize, read: usize)
    requires order { start + taken ≤ read }
    requires inside { read ≤ vec_len bytes.old }
    ensures items { bytes.new.items
        ≡ take taken (drop start bytes.old.items) ++ drop read bytes.old.items }
    ensures room { vec_capacity bytes.new ≡ vec_capacity bytes.old }
{
    let end = bytes.len();
    bytes.copy_within(start..start + taken, 0);
    bytes.copy_within(read..end, taken);
    bytes.truncate(taken + (end - read));
}
