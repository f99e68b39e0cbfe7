//! A checkpoint: the rows of a library go to the half that isn't in use, and the selector then names it.
ghost use Rattle.std.specs.Prelude.{◌≡◌, ◌≤◌, ◌<◌, ◌+◌, ◌*◌, ◌∷◌, ◌↔◌, ◌^◌, [], ℕ, List, true, false, length, is_ok, OnOk, OnErr, IsErrOf};
ghost use Rattle.disk_trait.specs.Device.{may_leave, read_with};
ghost use Rattle.disk_trait.specs.Calls.{DiskCalls, Elapses, Follows, LeavesOnly, TornWrite, overwritten};
ghost use Rattle.media_journal.specs.Formatting.{half_text};
ghost use Rattle.media_journal.specs.Journal.{Contents, Gives, IsPosition, IsWhole};
ghost use Rattle.media_journal.specs.JournalMoments.{EachGives};
ghost use Rattle.media_journal.specs.Checkpoint.{CheckpointEnds, KeepsOrSwitches, WritesOther, after_checkpoint, checkpoint_calls, other_of, row_writes, selector_for, with_checkpoint, with_rows};
ghost use Rattle.media_journal.specs.Within.Steps.{SyncedWriteEnds, WithinWrites, WritesEnd};

use crate::form::half_number;
use crate::header::{BLOCK, HALVES, MOST_HALF, SELECTOR};
use crate::write::write_synced;
use crate::{AppendFault, Journal};
use disk_trait::numbers::u64_bytes;
use disk_trait::{Disk, Failed};

/// Rows are written in pieces of so many bytes at most.
const ROW_PIECE: usize = 1_048_576;

impl Journal {
    /// Writes these rows into the half that isn't the journal's, in the form in use, and makes it the
    /// journal's: the rows stand
    /// for all that the journal had, and no record follows them. The half is synced before the selector
    /// names it, and the selector before the call answers. `Full` comes exactly where the rows' length plus
    /// 9 exceeds the bytes of a half. After `Disk` the journal must be opened again.
    pub fn checkpoint<D: Disk>(&mut self, disk: &mut D, rows: &[u8]) -> Result<(), AppendFault>
        requires device { BLOCK * self.old.blocks ≤ (D.device disk.old).size }
        requires whole { IsWhole self.old }

        // What doesn't fit is refused, and then nothing changes.
        ensures full { IsErrOf result AppendFault.Full
            ↔ (BLOCK * self.old.half < length rows.now + 9) }
        ensures refused { IsErrOf result AppendFault.Full → disk.new ≡ disk.old }
        ensures err { OnErr result (self.new ≡ self.old) }
        ensures position { IsPosition self.new }
        ensures still_whole { IsWhole self.new }

        ensures moved { OnOk result (self.new ≡ after_checkpoint self.old (length rows.now)) }
        ensures content { (D.device disk.old).shows ≡ true → OnOk result
            ((held : Contents) → Gives (D.device disk.old).seen self.old held
            → Gives (D.device disk.new).seen self.new (with_rows rows.now held)) }
        ensures written { (D.device disk.old).shows ≡ true → OnOk result
            ((D.device disk.new).seen ≡ with_checkpoint self.old rows.now (D.device disk.old).seen) }
        ensures elsewhere { (D.device disk.old).shows ≡ true → OnOk result
            (WritesOther self.old (length rows.now) (D.device disk.old).seen (D.device disk.new).seen) }
        ensures handed { (D.device disk.old).tells ≡ true → OnOk result
            ((D.device disk.new).handed ≡ (D.device disk.old).handed + (length rows.now + 10)) }
        ensures handed_at_most { (D.device disk.old).tells ≡ true
            → (D.device disk.new).handed ≤ (D.device disk.old).handed + (length rows.now + 10) }

        // At each moment of the call a crash leaves an image that gives, by the half that it names, what the
        // journal had, or the rows and no record; after Ok nothing is pending, and each image has the rows.
        // Other bytes may be pending at the start, but not the selector's: each image names the journal's
        // half then.
        ensures moments { (D.device disk.old).honest ≡ true → (D.device disk.old).shows ≡ true
            → (held : Contents) → EachGives (D.device disk.old) self.old held
            → Elapses (KeepsOrSwitches self.old rows.now held)
            (CheckpointEnds (is_ok result) self.old rows.now held)
            (D.device disk.old) (D.device disk.new) }
        ensures acknowledged { (D.device disk.old).honest ≡ true → (D.device disk.old).shows ≡ true
            → OnOk result ((held : Contents) → EachGives (D.device disk.old) self.old held
            → EachGives (D.device disk.new) self.new (with_rows rows.now held)) }
        ensures durable { (D.device disk.old).honest ≡ true
            → OnOk result (LeavesOnly (D.device disk.new).seen (D.device disk.new)) }

        // After `Disk` a read gives what a crash might have left.
        ensures left { (D.device disk.old).honest ≡ true → (D.device disk.old).shows ≡ true
            → IsErrOf result AppendFault.Disk
            → (held : Contents) → EachGives (D.device disk.old) self.old held
            → (told : List (List ℕ)) × Follows (KeepsOrSwitches self.old rows.now held)
            (may_leave (D.device disk.old)) (read_with (D.device disk.new) told) }

        ensures calls { OnOk result (DiskCalls true (D.device disk.old) (D.device disk.new)) }

        // A write of the rows' length, those of the rows, a write and a sync behind them, a write and a sync
        // of the selector, and no further call.
        ensures few_calls { (D.device disk.new).moment
            ≤ (D.device disk.old).moment + checkpoint_calls (length rows.now) }

        // It doesn't give up by itself: the count of faults rose.
        ensures failed { IsErrOf result AppendFault.Disk
            → DiskCalls false (D.device disk.old) (D.device disk.new) }
    {
        let size = rows.len() as u64;
        let bytes = BLOCK * self.half;
        if size + 9 > bytes {
            return Err(AppendFault::Full);
        }
        let start = other_half(self.start, self.half);
        switch_half(disk, start, rows)?;
        self.start = start;
        self.gate = start + (8 + size);
        self.room = bytes - (8 + size);
        Ok(())
    }
}

/// Where the other half begins, where one of so many blocks begins here.
fn other_half(start: u64, half: u64) -> u64
    requires { half ≤ MOST_HALF }
    ensures start { result ≡ other_of start half }
    ensures least { HALVES ≤ result }
    ensures most { result ≤ HALVES + BLOCK * half }
{
    if start == HALVES {
        HALVES + BLOCK * half
    } else {
        HALVES
    }
}

/// Writes the half that begins here with these rows, and then makes the selector name it.
fn switch_half<D: Disk>(disk: &mut D, start: u64, rows: &[u8]) -> Result<(), Failed>
    requires device { start + (9 + length rows.now) ≤ (D.device disk.old).size }
    requires place { HALVES ≤ start }
    requires small { start < 2 ^ 62 }
    requires few { length rows.now < 2 ^ 56 }
    ensures calls { DiskCalls (is_ok result) (D.device disk.old) (D.device disk.new) }
    ensures few_calls { (D.device disk.new).moment
        ≤ (D.device disk.old).moment + checkpoint_calls (length rows.now) }
    ensures written { (D.device disk.old).shows ≡ true → OnOk result
        ((D.device disk.new).seen ≡ overwritten SELECTOR (selector_for start ∷ [])
        (overwritten start (half_text rows.now) (D.device disk.old).seen)) }
    ensures handed { (D.device disk.old).tells ≡ true → OnOk result
        ((D.device disk.new).handed ≡ (D.device disk.old).handed + (length rows.now + 10)) }
    ensures handed_at_most { (D.device disk.old).tells ≡ true
        → (D.device disk.new).handed ≤ (D.device disk.old).handed + (length rows.now + 10) }
    ensures durable { (D.device disk.old).honest ≡ true
        → OnOk result (LeavesOnly (D.device disk.new).seen (D.device disk.new)) }
    ensures moments { (D.device disk.old).honest ≡ true → (D.device disk.old).shows ≡ true
        → Elapses (WithinWrites start (half_text rows.now) SELECTOR (D.device disk.old).seen)
        (WritesEnd (is_ok result) start (half_text rows.now) SELECTOR (selector_for start)
        (D.device disk.old).seen)
        (D.device disk.old) (D.device disk.new) }
{
    // The half has to be on the disk first: once the selector may name it, it is read.
    write_half(disk, start, rows)?;
    select_half(disk, start)
}

/// Writes a half with these rows and no record, and syncs it. Where it fails, a crash may leave any bytes
/// in its place.
fn write_half<D: Disk>(disk: &mut D, start: u64, rows: &[u8]) -> Result<(), Failed>
    requires device { start + (9 + length rows.now) ≤ (D.device disk.old).size }
    requires small { start < 2 ^ 62 }
    requires few { length rows.now < 2 ^ 56 }
    ensures calls { DiskCalls (is_ok result) (D.device disk.old) (D.device disk.new) }
    ensures few_calls { (D.device disk.new).moment
        ≤ (D.device disk.old).moment + (3 + row_writes (length rows.now)) }
    ensures written { (D.device disk.old).shows ≡ true → OnOk result
        ((D.device disk.new).seen ≡ overwritten start (half_text rows.now) (D.device disk.old).seen) }
    ensures handed { (D.device disk.old).tells ≡ true → OnOk result
        ((D.device disk.new).handed ≡ (D.device disk.old).handed + (9 + length rows.now)) }
    ensures handed_at_most { (D.device disk.old).tells ≡ true
        → (D.device disk.new).handed ≤ (D.device disk.old).handed + (9 + length rows.now) }
    ensures durable { (D.device disk.old).honest ≡ true
        → OnOk result (LeavesOnly (D.device disk.new).seen (D.device disk.new)) }
    ensures moments { (D.device disk.old).honest ≡ true → (D.device disk.old).shows ≡ true
        → Elapses (TornWrite start (length (half_text rows.now)))
        (SyncedWriteEnds (is_ok result) start (half_text rows.now) (D.device disk.old).seen)
        (D.device disk.old) (D.device disk.new) }
{
    write_parts(disk, start, rows)?;
    disk.sync()
}

/// Writes the parts of a half in a row: its form and the length of the rows, the rows, and a closed gate.
fn write_parts<D: Disk>(disk: &mut D, start: u64, rows: &[u8]) -> Result<(), Failed>
    requires device { start + (9 + length rows.now) ≤ (D.device disk.old).size }
    requires small { start < 2 ^ 62 }
    requires few { length rows.now < 2 ^ 56 }
    ensures calls { DiskCalls (is_ok result) (D.device disk.old) (D.device disk.new) }
    ensures few_calls { (D.device disk.new).moment
        ≤ (D.device disk.old).moment + (2 + row_writes (length rows.now)) }
    ensures written { (D.device disk.old).shows ≡ true → OnOk result
        ((D.device disk.new).seen ≡ overwritten start (half_text rows.now) (D.device disk.old).seen) }
    ensures handed { (D.device disk.old).tells ≡ true → OnOk result
        ((D.device disk.new).handed ≡ (D.device disk.old).handed + (9 + length rows.now)) }
    ensures handed_at_most { (D.device disk.old).tells ≡ true
        → (D.device disk.new).handed ≤ (D.device disk.old).handed + (9 + length rows.now) }
    ensures time { Elapses (TornWrite start (9 + length rows.now))
        (TornWrite start (9 + length rows.now)) (D.device disk.old) (D.device disk.new) }
{
    let size = rows.len() as u64;
    disk.write_at(start, &u64_bytes(half_number(size)))?;
    write_rows(disk, start + 8, rows)?;
    disk.write_at(start + 8 + size, &[0])
}

/// Writes rows from a place on, as they are, in pieces.
fn write_rows<D: Disk>(disk: &mut D, at: u64, rows: &[u8]) -> Result<(), Failed>
    requires device { at + length rows.now ≤ (D.device disk.old).size }
    requires small { at + length rows.now < 2 ^ 64 }
    ensures calls { DiskCalls (is_ok result) (D.device disk.old) (D.device disk.new) }
    ensures few_calls { (D.device disk.new).moment
        ≤ (D.device disk.old).moment + row_writes (length rows.now) }
    ensures written { (D.device disk.old).shows ≡ true → OnOk result
        ((D.device disk.new).seen ≡ overwritten at rows.now (D.device disk.old).seen) }
    ensures handed { (D.device disk.old).tells ≡ true → OnOk result
        ((D.device disk.new).handed ≡ (D.device disk.old).handed + length rows.now) }
    ensures handed_at_most { (D.device disk.old).tells ≡ true
        → (D.device disk.new).handed ≤ (D.device disk.old).handed + length rows.now }
    ensures time { Elapses (TornWrite at (length rows.now)) (TornWrite at (length rows.now))
        (D.device disk.old) (D.device disk.new) }
{
    if rows.len() <= ROW_PIECE {
        return disk.write_at(at, rows);
    }
    let (piece, later) = rows.split_at(ROW_PIECE);
    disk.write_at(at, piece)?;
    write_rows(disk, at + ROW_PIECE as u64, later)
}

/// Makes the selector name the half that begins here, and syncs it.
fn select_half<D: Disk>(disk: &mut D, start: u64) -> Result<(), Failed>
    requires device { HALVES ≤ (D.device disk.old).size }
    ensures calls { DiskCalls (is_ok result) (D.device disk.old) (D.device disk.new) }
    ensures two_calls { (D.device disk.new).moment ≤ (D.device disk.old).moment + 2 }
    ensures written { (D.device disk.old).shows ≡ true → OnOk result ((D.device disk.new).seen
        ≡ overwritten SELECTOR (selector_for start ∷ []) (D.device disk.old).seen) }
    ensures handed { (D.device disk.old).tells ≡ true → OnOk result
        ((D.device disk.new).handed ≡ (D.device disk.old).handed + 1) }
    ensures handed_at_most { (D.device disk.old).tells ≡ true
        → (D.device disk.new).handed ≤ (D.device disk.old).handed + 1 }
    ensures durable { (D.device disk.old).honest ≡ true
        → OnOk result (LeavesOnly (D.device disk.new).seen (D.device disk.new)) }
    ensures moments { (D.device disk.old).honest ≡ true → (D.device disk.old).shows ≡ true
        → Elapses (TornWrite SELECTOR 1)
        (SyncedWriteEnds (is_ok result) BLOCK (selector_for start ∷ []) (D.device disk.old).seen)
        (D.device disk.old) (D.device disk.new) }
{
    let selector = if start == HALVES { 0 } else { 1 };
    write_synced(disk, SELECTOR, &[selector])
}
