//! A window on a half, through which it is read in pieces of 64 KiB.
ghost use Rattle.std.specs.Prelude.{◌≡◌, ◌≤◌, ◌+◌, ◌-◌, true, [], length, take, is_ok, IfOk, OnOk};
ghost use Rattle.disk_trait.specs.Calls.{DiskReads, bytes_at};
ghost use Rattle.media_journal.specs.Within.Window.{IsPieceOn, HasBytes};

use disk_trait::{Disk, Failed, Memory, copy_out};
use std::alloc::Global;
use std::marker::Model;

/// The bytes that one read takes, where the half has so many left.
const PIECE: usize = 65536;

/// A piece of a half, in a buffer of its own: bytes that were read at once.
#[derive(Drop)]
pub(crate) struct Window {
    buffer: Vec<u8>,
    /// The offset of the buffer's first byte.
    offset: u64,
    /// How many bytes of the buffer were read.
    filled: usize,
    /// Where the half ends.
    end: u64,
}

impl Model for Window {
    ghost use Rattle.std.specs.Prelude.{take};
    ghost use Rattle.media_journal.specs.Within.Window.{HalfPiece, IsWindow};

    ghost Value = { HalfPiece };

    ghost view = { λ w. record {
      offset = w.offset;
      bytes = take w.filled w.buffer.items;
      end = w.end;
    } };

    ghost invariant = { λ w. IsWindow w.buffer.items w.offset w.filled w.end };
}

impl Window {
    /// A window on a half that ends here. It has no bytes as yet.
    pub(crate) fn new(alloc: Global, end: u64) -> Result<Window, Memory>
        ensures { IfOk result (λ w. w ≡ record { offset = 0; bytes = []; end = end }) }
    {
        Ok(Window {
            buffer: vec![in alloc; 0u8; PIECE]?,
            offset: 0,
            filled: 0,
            end,
        })
    }

    /// Where the half ends.
    pub(crate) fn end(&self) -> u64
        ensures { result ≡ self.now.end }
    {
        self.end
    }

    /// Reads the bytes at this offset into all of `out`. Fewer than 64 KiB are taken from the window,
    /// which is moved here where it hasn't all of them. After `Failed` the window isn't used again.
    pub(crate) fn read_at<D: Disk>(
        &mut self,
        disk: &mut D,
        at: u64,
        out: &mut [u8],
    ) -> Result<(), Failed>
        requires within { at + length out.old ≤ self.old.end }
        requires piece { IsPieceOn (D.device disk.old) self.old }
        ensures reads { DiskReads (is_ok result) (D.device disk.old) (D.device disk.new) }
        ensures end { self.new.end ≡ self.old.end }
        ensures piece { OnOk result (IsPieceOn (D.device disk.new) self.new) }
        ensures read { (D.device disk.old).shows ≡ true
            → OnOk result (out.new ≡ bytes_at (D.device disk.old).seen at (length out.old)) }
    {
        if out.len() >= PIECE {
            return disk.read_at(at, out);
        }
        self.cover(disk, at, out.len())?;
        self.copy(at, out);
        Ok(())
    }

    /// Reads the piece that begins at this offset, unless the window has so many bytes from there on.
    fn cover<D: Disk>(&mut self, disk: &mut D, at: u64, count: usize) -> Result<(), Failed>
        requires few { count ≤ PIECE }
        requires within { at + count ≤ self.old.end }
        requires piece { IsPieceOn (D.device disk.old) self.old }
        ensures reads { DiskReads (is_ok result) (D.device disk.old) (D.device disk.new) }
        ensures end { self.new.end ≡ self.old.end }
        ensures covers { OnOk result (HasBytes self.new at count) }
        ensures piece { OnOk result (IsPieceOn (D.device disk.new) self.new) }
    {
        if self.offset <= at && at + count as u64 <= self.offset + self.filled as u64 {
            return Ok(());
        }
        let filled = (self.end - at).min(PIECE as u64) as usize;
        fill(disk, at, &mut self.buffer, filled)?;
        self.offset = at;
        self.filled = filled;
        Ok(())
    }

    /// Copies bytes of the window into all of `out`.
    fn copy(&self, at: u64, out: &mut [u8])
        requires { HasBytes self.now at (length out.old) }
        ensures { out.new ≡ bytes_at self.now.bytes (at - self.now.offset) (length out.old) }
    {
        copy_out(&self.buffer, (at - self.offset) as usize, out);
    }
}

/// Reads so many bytes at this offset into the front of a buffer.
fn fill<D: Disk>(disk: &mut D, at: u64, buffer: &mut [u8], count: usize) -> Result<(), Failed>
    requires fits { count ≤ length buffer.old }
    requires within { at + count ≤ (D.device disk.old).size }
    ensures reads { DiskReads (is_ok result) (D.device disk.old) (D.device disk.new) }
    ensures front { (D.device disk.old).shows ≡ true
        → OnOk result (take count buffer.new ≡ bytes_at (D.device disk.old).seen at count) }
{
    let (front, _) = buffer.split_at_mut(count);
    disk.read_at(at, front)
}
