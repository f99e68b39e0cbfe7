//! Formatting a device: a header, a selector and half A with its rows. At each moment the file is no
//! store, or the new one.
ghost use Rattle.std.specs.Prelude.{◌≡◌, ◌≤◌, ◌<◌, ◌+◌, ◌*◌, ◌∷◌, [], ℕ, true, ◌↔◌, length, is_ok, IfOk, IsTrue, OnOk};
ghost use Rattle.disk_trait.specs.Calls.{DiskCalls, DiskReads, Elapses, LeavesOnly, Torn, overwritten};
ghost use Rattle.media_journal.specs.File.{HasOpenHeader, IsClosedGate, header_text};
ghost use Rattle.media_journal.specs.Formatting.{FitsStore, FormatAnswer, GateIs, IsFormatted, OnRefusal, format_ok, half_text, with_store};
ghost use Rattle.media_journal.specs.JournalMoments.{FormattingEnds, IsAtRest, NoneOrNew, WritesStore};
ghost use Rattle.media_journal.specs.Within.Steps.{KeepsGate, LeavesNone, NoneOrFormatted, StoreEnds};

use crate::form::half_number;
use crate::header::{BLOCK, HALVES, HEADER, MOST_BLOCKS, MOST_HALF, SELECTOR, is_open, magic};
use crate::write::write_synced;
use crate::{FormatFault, Header};
use disk_trait::numbers::{u64_bytes, u128_bytes};
use disk_trait::{Disk, Failed, Memory};
use std::alloc::Global;

/// Where the header's gate is, behind its text.
const GATE: u64 = 40;

/// What stands at the header's gate before a device is formatted.
#[derive(Clone, Copy)]
enum Gate {
    /// The header is that of a store, and open.
    Store,
    /// The gate is open, and what stands before it is no header.
    Stray,
    Closed,
}

/// Makes a store of a device: `blocks` blocks with `half` of them a half, the id, and in the form in use
/// these rows and no record. `AlreadyStore` comes exactly where its header is an open one, and otherwise `TooSmall`
/// exactly where the numbers don't fit the device or the rows a half.
pub fn format_device<D: Disk>(
    alloc: Global,
    disk: &mut D,
    blocks: u64,
    half: u64,
    id: u128,
    rows: &[u8],
) -> Result<(), FormatFault>
    requires some_half { 1 ≤ half }
    requires half { half ≤ MOST_HALF }
    requires blocks { blocks ≤ MOST_BLOCKS }
    ensures calls { DiskCalls (format_ok result) (D.device disk.old) (D.device disk.new) }
    ensures answer { (D.device disk.old).shows ≡ true
        → FormatAnswer (D.device disk.old).seen (D.device disk.new).seen
        record { blocks = blocks; half = half; id = id } rows.now result }

    // At Ok the device has just the bytes of a store over those that it had.
    ensures written { (D.device disk.old).shows ≡ true → OnOk result ((D.device disk.new).seen
        ≡ with_store (header_text record { blocks = blocks; half = half; id = id })
        (half_text rows.now) (D.device disk.old).seen) }

    // What is refused is left as it was, and so is a device for which there is no memory.
    ensures refused { OnRefusal result (DiskReads true (D.device disk.old) (D.device disk.new)) }

    // At each moment of the call a crash leaves no store, or the new one; after Ok it leaves just what
    // is read.
    ensures moments { IsAtRest (D.device disk.old) → ¬ (HasOpenHeader (D.device disk.old).seen)
        → Elapses (NoneOrNew record { blocks = blocks; half = half; id = id } rows.now)
        (FormattingEnds result record { blocks = blocks; half = half; id = id } rows.now)
        (D.device disk.old) (D.device disk.new) }
    ensures durable { (D.device disk.old).honest ≡ true
        → OnOk result (LeavesOnly (D.device disk.new).seen (D.device disk.new)) }

    // It writes the header, the selector, and half A up to its closed gate, and no other byte, whatever
    // it answers.
    ensures others { Elapses (WritesStore (9 + length rows.now)) (WritesStore (9 + length rows.now))
        (D.device disk.old) (D.device disk.new) }
{
    let header = Header { blocks, half, id };
    let gate = read_gate(disk)?;
    if let Gate::Store = gate {
        return Err(FormatFault::AlreadyStore);
    }
    if !fits_store(&header, disk.len(), rows) {
        return Err(FormatFault::TooSmall);
    }
    let half = half_bytes(alloc, rows)?;
    make_store(disk, gate, &header_bytes(&header), &half)?;
    Ok(())
}

/// Whether a device of so many bytes may have these numbers, and a half these rows.
fn fits_store(header: &Header, size: u64, rows: &[u8]) -> bool
    ensures { IsTrue result ↔ FitsStore header.now size rows.now }
{
    header.fits(size) && rows.len() as u64 + 9 <= BLOCK * header.half
}

/// Writes the store of a device whose gate is this: it is closed first, and opened once all else is
/// synced.
fn make_store<D: Disk>(disk: &mut D, gate: Gate, header: &[u8], half: &[u8]) -> Result<(), Failed>
    requires header { length header.now ≡ 40 }
    requires device { HALVES + length half.now ≤ (D.device disk.old).size }
    ensures calls { DiskCalls (is_ok result) (D.device disk.old) (D.device disk.new) }
    ensures written { (D.device disk.old).shows ≡ true → OnOk result
        (IsFormatted header.now half.now (D.device disk.old).seen (D.device disk.new).seen) }
    ensures durable { (D.device disk.old).honest ≡ true
        → OnOk result (LeavesOnly (D.device disk.new).seen (D.device disk.new)) }
    ensures moments { IsAtRest (D.device disk.old) → GateIs (D.device disk.old).seen gate
        → ¬ (HasOpenHeader (D.device disk.old).seen)
        → Elapses (NoneOrFormatted header.now half.now (D.device disk.old).seen)
        (StoreEnds (is_ok result) header.now half.now (D.device disk.old).seen)
        (D.device disk.old) (D.device disk.new) }
    ensures others { Elapses (WritesStore (length half.now)) (WritesStore (length half.now))
        (D.device disk.old) (D.device disk.new) }
{
    // A torn write of the header's text could make a store of what stands before an open gate.
    close_stray(disk, gate)?;
    write_store(disk, header, half)?;
    // All else has to be on the disk first: what an open gate stands behind is a store.
    write_synced(disk, GATE, &[1])
}

/// What stands at the header's gate.
fn read_gate<D: Disk>(disk: &mut D) -> Result<Gate, Failed>
    ensures reads { DiskReads (is_ok result) (D.device disk.old) (D.device disk.new) }
    ensures gate { (D.device disk.old).shows ≡ true
        → IfOk result (GateIs (D.device disk.old).seen) }
{
    if disk.len() <= GATE {
        return Ok(Gate::Closed);
    }
    let mut bytes = [0u8; 41];
    disk.read_at(0, &mut bytes)?;
    Ok(gate_of(&bytes))
}

/// What stands at the gate of a file that begins with these bytes.
fn gate_of(bytes: &[u8]) -> Gate
    requires { length bytes.now ≡ HEADER }
    ensures { GateIs bytes.now result }
{
    if is_open(bytes) {
        Gate::Store
    } else if bytes[40] == 1 {
        Gate::Stray
    } else {
        Gate::Closed
    }
}

/// Closes the gate where it stands open without a header.
fn close_stray<D: Disk>(disk: &mut D, gate: Gate) -> Result<(), Failed>
    requires { HEADER ≤ (D.device disk.old).size }
    ensures calls { DiskCalls (is_ok result) (D.device disk.old) (D.device disk.new) }
    ensures gate_alone { (D.device disk.old).shows ≡ true → OnOk result
        (Torn GATE 1 (D.device disk.old).seen (D.device disk.new).seen) }
    ensures closed { (D.device disk.old).shows ≡ true → GateIs (D.device disk.old).seen gate
        → ¬ (HasOpenHeader (D.device disk.old).seen)
        → OnOk result (IsClosedGate (D.device disk.new).seen 40) }
    ensures settled { IsAtRest (D.device disk.old) → OnOk result (IsAtRest (D.device disk.new)) }
    ensures moments { IsAtRest (D.device disk.old) → GateIs (D.device disk.old).seen gate
        → ¬ (HasOpenHeader (D.device disk.old).seen)
        → Elapses LeavesNone LeavesNone (D.device disk.old) (D.device disk.new) }
    ensures others { (size : ℕ) → Elapses (WritesStore size) (WritesStore size)
        (D.device disk.old) (D.device disk.new) }
{
    match gate {
        Gate::Stray => write_synced(disk, GATE, &[0]),
        Gate::Store | Gate::Closed => Ok(()),
    }
}

/// Writes all of a store but its open gate, and syncs it.
fn write_store<D: Disk>(disk: &mut D, header: &[u8], half: &[u8]) -> Result<(), Failed>
    requires header { length header.now ≡ 40 }
    requires device { HALVES + length half.now ≤ (D.device disk.old).size }
    ensures calls { DiskCalls (is_ok result) (D.device disk.old) (D.device disk.new) }
    ensures written { (D.device disk.old).shows ≡ true → OnOk result ((D.device disk.new).seen
        ≡ overwritten HALVES half.now (overwritten SELECTOR (0 ∷ [])
        (overwritten 0 header.now (D.device disk.old).seen))) }
    ensures durable { (D.device disk.old).honest ≡ true
        → OnOk result (LeavesOnly (D.device disk.new).seen (D.device disk.new)) }
    ensures moments { Elapses KeepsGate KeepsGate (D.device disk.old) (D.device disk.new) }
    ensures others { Elapses (WritesStore (length half.now)) (WritesStore (length half.now))
        (D.device disk.old) (D.device disk.new) }
{
    disk.write_at(0, header)?;
    disk.write_at(BLOCK, &[0])?;
    disk.write_at(HALVES, half)?;
    disk.sync()
}

/// The bytes of a half with these rows and no record.
#[tactic(auto, unfolding(crate::specs::Formatting::half_text, crate::specs::File::rows_text))]
fn half_bytes(alloc: Global, rows: &[u8]) -> Result<Vec<u8>, Memory>
    requires { length rows.now + 9 ≤ BLOCK * MOST_HALF }
    ensures text { IfOk result (λ bytes. bytes.items ≡ half_text rows.now) }
    ensures len { IfOk result (λ bytes. length bytes.items ≡ 9 + length rows.now) }
{
    let mut bytes = Vec::with_capacity(alloc, rows.len() + 9)?;
    bytes.extend_from_slice(&u64_bytes(half_number(rows.len() as u64)))?;
    bytes.extend_from_slice(rows)?;
    bytes.push(0)?;
    Ok(bytes)
}

/// The 40 bytes of a header before its gate.
#[tactic(auto, unfolding(crate::specs::File::header_text))]
fn header_bytes(header: &Header) -> [u8; 40]
    ensures { result ≡ header_text header.now }
{
    let mut bytes = [0u8; 40];
    let (begin, numbers) = bytes.split_at_mut(8);
    let (blocks, numbers) = numbers.split_at_mut(8);
    let (half, id) = numbers.split_at_mut(8);
    begin.copy_from_slice(&magic());
    blocks.copy_from_slice(&u64_bytes(header.blocks));
    half.copy_from_slice(&u64_bytes(header.half));
    id.copy_from_slice(&u128_bytes(header.id));
    bytes
}
