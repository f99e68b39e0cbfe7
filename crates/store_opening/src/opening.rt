//! Opening a store.
ghost use Rattle.std.specs.Prelude.{◌≡◌, ◌≤◌, ◌+◌, ◌*◌, ℕ, List, true, IfOk};
ghost use Rattle.disk_trait.specs.Calls.{DiskReads};
ghost use Rattle.disk_trait.specs.Forms.{IsForm};
ghost use Rattle.media_journal.specs.Answers.{not_disk};
ghost use Rattle.media_journal.specs.Journal.{IsWhole};
ghost use Rattle.media_journal.specs.Opening.{IsOpened, WholeUnlessTorn};
ghost use Rattle.store_opening.specs.Opening.{HasItsBlocks, ReadAnswer, StoreAnswer};
ghost use Rattle.store_opening.specs.Within.{PartAnswer};

use crate::fault::OpenFault;
use crate::records::fold;
use crate::rows::library_of_rows;
use disk_trait::{Disk, FORM_IN_USE};
use media_journal::{BLOCK, Journal, JournalFault, Opened, open_journal};
use std::alloc::Global;
use store_core::Core;
use store_states::states_are_good;

/// A store's library, and its journal behind the records that made it.
#[derive(Drop)]
pub struct OpenedStore {
    pub core: Core,
    pub journal: Journal,
}

impl OpenedStore {
    /// Lets the store go. Its file is as it was.
    pub fn close(self) {}
}

/// A store as its file has it, by a half of this form, which is 1 or 2. In form 1 no digests are kept.
#[derive(Drop)]
pub struct ReadStore {
    pub core: Core,
    pub journal: Journal,
    pub form: u8,
}

/// Opens the store of a device, as `read_store` does, in the form in use. `OldForm` comes exactly where the file
/// stands for a state by a half of another form: it is read, and may not be written behind.
pub fn open_store<D: Disk>(alloc: Global, disk: &mut D) -> Result<OpenedStore, JournalFault>
    ensures reads { DiskReads (not_disk result) (D.device disk.old) (D.device disk.new) }
    ensures within { IfOk result (λ s. BLOCK * s.journal.blocks ≤ (D.device disk.new).size) }
    ensures whole { IfOk result (λ s. IsWhole s.journal) }
    ensures sizes { IfOk result (λ s. 2 * s.journal.half + 3 ≤ s.journal.blocks) }
    ensures blocks { IfOk result (λ s. HasItsBlocks s.core.library s.journal) }
    ensures answer { (D.device disk.old).shows ≡ true
        → StoreAnswer (D.device disk.old).seen result }
{
    let ReadStore {
        core,
        journal,
        form,
    } = read_store(alloc, disk)?;
    if form != FORM_IN_USE {
        return Err(JournalFault::OldForm);
    }
    Ok(OpenedStore { core, journal })
}

/// Reads the store of a device, by a half of either form. `NotStore` comes exactly where the device has fewer than
/// 20,480 bytes or no open header, and `Damaged` with the offset at which the file is damaged, in bytes: 8 for
/// numbers that a file can't have, the start of the active half where it is of neither form or its rows don't fit
/// it or aren't those of a good library, the first row that is none or doesn't stand behind the row before
/// it, or the gate of the first record whose end passes the half, whose payload is no change, or whose
/// change doesn't apply.
pub fn read_store<D: Disk>(alloc: Global, disk: &mut D) -> Result<ReadStore, JournalFault>
    ensures reads { DiskReads (not_disk result) (D.device disk.old) (D.device disk.new) }
    ensures within { IfOk result (λ s. BLOCK * s.journal.blocks ≤ (D.device disk.new).size) }
    ensures whole { IfOk result (λ s. IsWhole s.journal) }
    ensures sizes { IfOk result (λ s. 2 * s.journal.half + 3 ≤ s.journal.blocks) }
    ensures blocks { IfOk result (λ s. HasItsBlocks s.core.library s.journal) }
    ensures form { IfOk result (λ s. IsForm s.form) }
    ensures answer { (D.device disk.old).shows ≡ true
        → ReadAnswer (D.device disk.old).seen result }
{
    let opened = open_journal(alloc, disk)?;
    Ok(store_of(alloc, opened)?)
}

/// The store of what was opened.
fn store_of(alloc: Global, opened: Opened) -> Result<ReadStore, OpenFault>
    requires sizes { 2 * opened.half + 3 ≤ opened.blocks }
    requires whole { WholeUnlessTorn opened.torn opened.journal }
    requires blocks { opened.journal.blocks ≡ opened.blocks }
    requires half { opened.journal.half ≡ opened.half }
    requires form { IsForm opened.form }
    ensures journal { IfOk result (λ s. s.journal ≡ opened.journal) }
    ensures form { IfOk result (λ s. s.form ≡ opened.form) }
    ensures whole { IfOk result (λ s. IsWhole s.journal) }
    ensures sizes { IfOk result (λ s. 2 * s.journal.half + 3 ≤ s.journal.blocks) }
    ensures blocks { IfOk result (λ s. HasItsBlocks s.core.library s.journal) }
    ensures answer { (image : List ℕ) → IsOpened image opened → PartAnswer image result }
{
    states_are_good();
    let first = library_of_rows(alloc, &opened)?;
    let core = fold(alloc, opened.found.items(), opened.form, first)?;
    // A torn record is named only where all records before it apply.
    if let Some(at) = opened.torn {
        return Err(OpenFault::Damaged(at));
    }
    Ok(ReadStore {
        core,
        journal: opened.journal,
        form: opened.form,
    })
}
