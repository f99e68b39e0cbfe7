//! The records of a half, read one after another up to the closed gate.
ghost use Rattle.std.specs.Prelude.{◌≡◌, ◌<◌, ◌≤◌, ◌+◌, ◌^◌, ◌↔◌, true, is_ok, length, IfOk, IsTrue, OnOk};
ghost use Rattle.disk_trait.specs.Calls.{DiskReads, bytes_at};
ghost use Rattle.disk_trait.specs.Forms.{IsForm};
ghost use Rattle.disk_trait.specs.Numbers.{u32_bytes, u64_bytes};
ghost use Rattle.media_journal.specs.Answers.{not_disk, read_ok};
ghost use Rattle.media_journal.specs.File.{IsOpenGate};
ghost use Rattle.media_journal.specs.Within.Scan.{FoundAt, EndsBefore, HalfAnswer, IsChain};
ghost use Rattle.media_journal.specs.Within.Window.{IsPieceOn};

use crate::fault::HalfFault;
use crate::form::{FORM_PLACE, form_of};
use crate::window::Window;
use crate::{JournalFault, Record, RecordList};
use disk_trait::numbers::{read_u32, read_u64};
use disk_trait::{Disk, Failed, Text};
use std::alloc::Global;

/// What stands at a place of a half.
#[derive(Drop)]
pub(crate) enum AtPlace {
    /// A closed gate: the list ends here.
    Closed,
    /// An open record whose end passes the half.
    Torn,
    /// An open record, and a gate behind it.
    Whole(Text),
}

/// The records from a place on, where they end, and whether an open record there passes the half.
#[derive(Drop)]
pub(crate) struct Chain {
    pub(crate) records: RecordList,
    pub(crate) gate: u64,
    pub(crate) torn: bool,
}

/// The form of a half, its rows and the records behind them.
#[derive(Drop)]
pub(crate) struct Half {
    pub(crate) form: u8,
    pub(crate) rows: Text,
    pub(crate) chain: Chain,
}

/// Reads the half between these places: `Damaged` at its start where it is of no form, or the rows don't
/// fit it. It is read in pieces of 64 KiB, up to the one in which the records end.
pub(crate) fn read_half<D: Disk>(
    alloc: Global,
    disk: &mut D,
    start: u64,
    end: u64,
) -> Result<Half, JournalFault>
    requires some { start + 9 ≤ end }
    requires device { end ≤ (D.device disk.old).size }
    ensures reads { DiskReads (not_disk result) (D.device disk.old) (D.device disk.new) }
    ensures behind { IfOk result (λ half. start ≤ half.chain.gate) }
    ensures within { IfOk result (λ half. half.chain.gate < end) }
    ensures form { IfOk result (λ half. IsForm half.form) }
    ensures half { (D.device disk.old).shows ≡ true
        → HalfAnswer (D.device disk.old).seen start end result }
{
    let mut window = Window::new(alloc, end)?;
    let number = read_number(disk, &mut window, start)?;
    let Some(form) = form_of(number) else {
        return Err(JournalFault::Damaged(start));
    };
    let length = number % FORM_PLACE;
    if length > end - start - 9 {
        return Err(JournalFault::Damaged(start));
    }
    let rows = read_text(alloc, disk, &mut window, start + 8, length)?;
    let chain = read_chain(alloc, disk, &mut window, start + 8 + length)?;
    Ok(Half { form, rows, chain })
}

/// The number in the eight bytes at a half's start.
fn read_number<D: Disk>(disk: &mut D, window: &mut Window, start: u64) -> Result<u64, Failed>
    requires within { start + 8 ≤ window.old.end }
    requires piece { IsPieceOn (D.device disk.old) window.old }
    ensures reads { DiskReads (is_ok result) (D.device disk.old) (D.device disk.new) }
    ensures end { window.new.end ≡ window.old.end }
    ensures piece { OnOk result (IsPieceOn (D.device disk.new) window.new) }
    ensures short { IfOk result (λ number. number < 2 ^ 64) }
    ensures number { (D.device disk.old).shows ≡ true
        → IfOk result (λ number. u64_bytes number ≡ bytes_at (D.device disk.old).seen start 8) }
{
    let mut bytes = [0u8; 8];
    window.read_at(disk, start, &mut bytes)?;
    Ok(read_u64(&bytes))
}

/// Reads the records from one place of a half on.
pub(crate) fn read_chain<D: Disk>(
    alloc: Global,
    disk: &mut D,
    window: &mut Window,
    from: u64,
) -> Result<Chain, HalfFault>
    requires within { from < window.old.end }
    requires piece { IsPieceOn (D.device disk.old) window.old }
    ensures reads { DiskReads (read_ok result) (D.device disk.old) (D.device disk.new) }
    ensures behind { IfOk result (λ c. from ≤ c.gate) }
    ensures within { IfOk result (λ c. c.gate < window.old.end) }
    ensures chain { (D.device disk.old).shows ≡ true → IfOk result
        (λ c. IsChain (D.device disk.old).seen from window.old.end c.gate c.torn c.records) }
{
    let mut records = RecordList::new(alloc);
    let mut at = from;
    'records: loop {
        match read_record(alloc, disk, window, at)? {
            AtPlace::Closed => {
                return Ok(Chain {
                    records,
                    gate: at,
                    torn: false,
                });
            }
            AtPlace::Torn => {
                return Ok(Chain {
                    records,
                    gate: at,
                    torn: true,
                });
            }
            AtPlace::Whole(payload) => {
                let next = at + 5 + payload.bytes().len() as u64;
                records.push(Record {
                    offset: at,
                    payload,
                })?;
                at = next;
            }
        }
    }
}

/// Reads what stands at this place.
fn read_record<D: Disk>(
    alloc: Global,
    disk: &mut D,
    window: &mut Window,
    at: u64,
) -> Result<AtPlace, HalfFault>
    requires within { at < window.old.end }
    requires piece { IsPieceOn (D.device disk.old) window.old }
    ensures reads { DiskReads (read_ok result) (D.device disk.old) (D.device disk.new) }
    ensures end { window.new.end ≡ window.old.end }
    ensures piece { OnOk result (IsPieceOn (D.device disk.new) window.new) }
    ensures within { IfOk result (EndsBefore at window.old.end) }
    ensures found { (D.device disk.old).shows ≡ true
        → IfOk result (FoundAt (D.device disk.old).seen at window.old.end) }
{
    if !read_gate(disk, window, at)? {
        return Ok(AtPlace::Closed);
    }
    let left = window.end() - at;
    if left < 6 {
        return Ok(AtPlace::Torn);
    }
    let length = read_length(disk, window, at + 1)?;
    if left - 6 < length {
        return Ok(AtPlace::Torn);
    }
    Ok(AtPlace::Whole(read_text(alloc, disk, window, at + 5, length)?))
}

/// Reads so many bytes at this place into a text of their own.
fn read_text<D: Disk>(
    alloc: Global,
    disk: &mut D,
    window: &mut Window,
    at: u64,
    count: u64,
) -> Result<Text, HalfFault>
    requires within { at + count ≤ window.old.end }
    requires piece { IsPieceOn (D.device disk.old) window.old }
    ensures reads { DiskReads (read_ok result) (D.device disk.old) (D.device disk.new) }
    ensures end { window.new.end ≡ window.old.end }
    ensures piece { OnOk result (IsPieceOn (D.device disk.new) window.new) }
    ensures count { IfOk result (λ text. length text ≡ count) }
    ensures text { (D.device disk.old).shows ≡ true
        → IfOk result (λ text. text ≡ bytes_at (D.device disk.old).seen at count) }
{
    let mut bytes = vec![in alloc; 0u8; count as usize]?;
    window.read_at(disk, at, bytes.as_mut_slice())?;
    Ok(Text::from_vec(bytes))
}

/// Whether the gate at this place is open.
fn read_gate<D: Disk>(disk: &mut D, window: &mut Window, at: u64) -> Result<bool, Failed>
    requires within { at < window.old.end }
    requires piece { IsPieceOn (D.device disk.old) window.old }
    ensures reads { DiskReads (is_ok result) (D.device disk.old) (D.device disk.new) }
    ensures end { window.new.end ≡ window.old.end }
    ensures piece { OnOk result (IsPieceOn (D.device disk.new) window.new) }
    ensures gate { (D.device disk.old).shows ≡ true
        → IfOk result (λ is_open. IsTrue is_open ↔ IsOpenGate (D.device disk.old).seen at) }
{
    let mut gate = [0u8];
    window.read_at(disk, at, &mut gate)?;
    Ok(gate[0] == 1)
}

/// The length of a payload, from the four bytes at this place.
fn read_length<D: Disk>(disk: &mut D, window: &mut Window, at: u64) -> Result<u64, Failed>
    requires within { at + 4 ≤ window.old.end }
    requires piece { IsPieceOn (D.device disk.old) window.old }
    ensures reads { DiskReads (is_ok result) (D.device disk.old) (D.device disk.new) }
    ensures end { window.new.end ≡ window.old.end }
    ensures piece { OnOk result (IsPieceOn (D.device disk.new) window.new) }
    ensures short { IfOk result (λ length. length < 2 ^ 32) }
    ensures length { (D.device disk.old).shows ≡ true
        → IfOk result (λ length. u32_bytes length ≡ bytes_at (D.device disk.old).seen at 4) }
{
    let mut length = [0u8; 4];
    window.read_at(disk, at, &mut length)?;
    Ok(u64::from(read_u32(&length)))
}
