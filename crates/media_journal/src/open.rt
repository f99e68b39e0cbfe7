//! Opening the journal of a store.
ghost use Rattle.std.specs.Prelude.{◌≡◌, ◌≤◌, ◌<◌, ◌+◌, ◌*◌, ℕ, List, true, length, is_ok, IfOk};
ghost use Rattle.disk_trait.specs.Calls.{DiskReads};
ghost use Rattle.disk_trait.specs.Forms.{IsForm};
ghost use Rattle.media_journal.specs.Answers.{not_disk};
ghost use Rattle.media_journal.specs.File.{active_start};
ghost use Rattle.media_journal.specs.Journal.{IsPosition};
ghost use Rattle.media_journal.specs.Opening.{IsOpened, OpenAnswer, WholeUnlessTorn, header_of};
ghost use Rattle.media_journal.specs.Readings.{HasOneReading, HasOneTornReading, HasOneAnswer, ReadsAsStore, TornIsUnreadable, DamagedIsUnreadable};
ghost use Rattle.media_journal.specs.Within.Scan.{IsReadHalf};

use crate::header::{BLOCK, HALVES, MOST_BLOCKS, MOST_HALF, SELECTOR, read_header};
use crate::scan::{Half, read_half};
use crate::{Header, Journal, JournalFault, RecordList};
use disk_trait::{Disk, Failed, Text};
use std::alloc::Global;

/// The bytes of the shortest store, which has five blocks.
const SHORTEST: u64 = 5 * BLOCK;

/// A journal with what its active half holds.
#[derive(Drop)]
pub struct Opened {
    pub journal: Journal,
    /// The form of the active half: 1 or 2.
    pub form: u8,
    pub rows: Text,
    /// The records in order, those before the torn one where there is one.
    pub found: RecordList,
    /// The offset of the first open record whose end passes the half. The journal then has no room.
    pub torn: Option<u64>,
    /// The blocks of the file.
    pub blocks: u64,
    /// The blocks of a half.
    pub half: u64,
    pub id: u128,
    /// The offset of the rows' first byte.
    pub rows_at: u64,
}

/// Opens the journal of a device. `NotStore` comes exactly where the device has fewer than 20,480 bytes or
/// no open header. `Damaged` comes with 8 exactly where the header's numbers are none that the file may
/// have, and with the offset of the active half exactly where that half is of neither form, or has no room
/// for its rows and a gate. Halves of both forms are read. An open record whose end passes the half is no
/// fault here: `Opened` says where it stands. What rows and payloads mean isn't looked at.
///
/// The half is read in pieces of 64 KiB up to the one in which its records end, and beside such a piece
/// only the rows and payloads that are answered are kept. Both are the code's, and no clause says them.
pub fn open_journal<D: Disk>(alloc: Global, disk: &mut D) -> Result<Opened, JournalFault>
    ensures reads { DiskReads (not_disk result) (D.device disk.old) (D.device disk.new) }
    ensures within { IfOk result (λ o. BLOCK * o.journal.blocks ≤ (D.device disk.new).size) }
    ensures sizes { IfOk result (λ o. 2 * o.half + 3 ≤ o.blocks) }
    ensures blocks { IfOk result (λ o. o.journal.blocks ≡ o.blocks) }
    ensures half { IfOk result (λ o. o.journal.half ≡ o.half) }
    ensures position { IfOk result (λ o. IsPosition o.journal) }
    ensures whole { IfOk result (λ o. WholeUnlessTorn o.torn o.journal) }
    ensures form { IfOk result (λ o. IsForm o.form) }
    ensures answer { (D.device disk.old).shows ≡ true → OpenAnswer (D.device disk.old).seen result }
{
    let size = disk.len();
    if size < SHORTEST {
        return Err(JournalFault::NotStore);
    }
    let Some(header) = read_header(disk)? else {
        return Err(JournalFault::NotStore);
    };
    if !header.fits(size) {
        return Err(JournalFault::Damaged(8));
    }
    let start = read_start(disk, header.half)?;
    let half = read_half(alloc, disk, start, start + BLOCK * header.half)?;
    Ok(assembled(header, start, half))
}

/// Where the half begins that the selector names.
fn read_start<D: Disk>(disk: &mut D, half: u64) -> Result<u64, Failed>
    requires half { half ≤ MOST_HALF }
    requires device { HALVES ≤ (D.device disk.old).size }
    ensures reads { DiskReads (is_ok result) (D.device disk.old) (D.device disk.new) }
    ensures bound { IfOk result (λ start. start ≤ HALVES + BLOCK * half) }
    ensures start { (D.device disk.old).shows ≡ true
        → IfOk result (λ start. start ≡ active_start (D.device disk.old).seen half) }
{
    let mut selector = [0u8];
    disk.read_at(SELECTOR, &mut selector)?;
    if selector[0] % 2 == 0 {
        Ok(HALVES)
    } else {
        Ok(HALVES + BLOCK * half)
    }
}

/// What was opened, from its parts.
fn assembled(header: Header, start: u64, half: Half) -> Opened
    requires start { start ≤ HALVES + BLOCK * header.half }
    requires sizes { header.half ≤ MOST_HALF }
    requires blocks { header.blocks ≤ MOST_BLOCKS }
    requires fits { 2 * header.half + 3 ≤ header.blocks }
    requires behind { start ≤ half.chain.gate }
    requires within { half.chain.gate < start + BLOCK * header.half }
    requires form { IsForm half.form }
    ensures header { header_of result ≡ header }
    ensures blocks { result.journal.blocks ≡ header.blocks }
    ensures half { result.journal.half ≡ header.half }
    ensures position { IsPosition result.journal }
    ensures whole { WholeUnlessTorn result.torn result.journal }
    ensures form { IsForm result.form }
    ensures opened { (image : List ℕ) → IsReadHalf image header start half → IsOpened image result }
{
    let Half { form, rows, chain } = half;
    let end = start + BLOCK * header.half;
    Opened {
        journal: Journal {
            blocks: header.blocks,
            half: header.half,
            start,
            gate: chain.gate,
            room: if chain.torn { 0 } else { end - chain.gate },
        },
        form,
        rows,
        found: chain.records,
        torn: chain.torn.then_some(chain.gate),
        blocks: header.blocks,
        half: header.half,
        id: header.id,
        rows_at: start + 8,
    }
}

/// The law that an image reads in at most one way, and that it has at most one answer of `open_journal`
/// but `Disk` and `Memory`. The function does nothing.
pub fn one_reading()
    ensures whole { (image : List ℕ) → HasOneReading image }
    ensures torn { (image : List ℕ) → HasOneTornReading image }
    ensures store { (image : List ℕ) → ReadsAsStore image }
    ensures torn_or_whole { (image : List ℕ) → TornIsUnreadable image }
    ensures damaged { (image : List ℕ) → DamagedIsUnreadable image }
    ensures answer { (image : List ℕ) → HasOneAnswer image }
{}
