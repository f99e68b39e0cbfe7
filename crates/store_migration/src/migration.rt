//! The one call that migrates a store.
ghost use Rattle.std.specs.Prelude.{◌≡◌, ◌≤◌, ◌+◌, ◌*◌, true, IfOk, OnOk, is_ok};
ghost use Rattle.disk_trait.specs.Calls.{DiskCalls, DiskReads, Elapses, LeavesOnly};
ghost use Rattle.media_journal.specs.Journal.{IsWhole};
ghost use Rattle.media_rows.specs.Media.{Archive};
ghost use Rattle.store_opening.specs.Opening.{HasItsBlocks, IsKeptBy, archive_read};
ghost use Rattle.store_migration.specs.Migration.{HasEither, MigrateAnswer, Migrates, MigrationEnds};
ghost use Rattle.store_migration.specs.Within.{is_refused, not_disk, view_of};

use crate::MigrateFault;
use crate::digests::library_rows;
use disk_trait::{Disk, FORM_IN_USE};
use library_laws::rows_give_the_library;
use media_journal::{BLOCK, Journal};
use std::alloc::Global;
use store_core::Core;
use store_opening::{ReadStore, read_store};

/// What was migrated: how many objects are stored, and how many bytes the rows of the library have.
#[derive(Clone, Copy, Debug, PartialEq, Eq)]
pub struct Migrated {
    pub objects: u64,
    pub rows: u64,
}

/// Migrates the store of a device from form 1 to the form in use: it reads the bytes of each stored object once for
/// their digest, and makes one checkpoint of the library with these. `NotStore` and `Damaged` come as in opening,
/// `NotOld` exactly where the file stands for a library in the form in use, and `Full` exactly where the rows plus 9
/// exceed a half's bytes. Where it fails nothing is lost: the file stands for the same library as before.
pub fn migrate_store<D: Disk>(alloc: Global, disk: &mut D) -> Result<Migrated, MigrateFault>
    ensures answer { (D.device disk.old).shows ≡ true
        → MigrateAnswer (D.device disk.old).seen (D.device disk.new).seen result }

    // At each moment a crash leaves the one archive for which the file stood, by a half of either form; after Ok by
    // one of the form in use, and nothing is pending.
    ensures moments { (D.device disk.old).honest ≡ true → (D.device disk.old).shows ≡ true
        → LeavesOnly (D.device disk.old).seen (D.device disk.old)
        → (archive : Archive) → HasEither (D.device disk.old).seen archive
        → Elapses (Migrates archive) (MigrationEnds (is_ok result) archive)
        (D.device disk.old) (D.device disk.new) }
    ensures durable { (D.device disk.old).honest ≡ true
        → OnOk result (LeavesOnly (D.device disk.new).seen (D.device disk.new)) }

    // It hands the disk its rows once, their length, a gate and the selector; what is refused only reads.
    ensures handed { (D.device disk.old).tells ≡ true → IfOk result
        (λ migrated. (D.device disk.new).handed ≡ (D.device disk.old).handed + (migrated.rows + 10)) }
    ensures refused { is_refused result ≡ true
        → DiskReads true (D.device disk.old) (D.device disk.new) }
    ensures calls { DiskCalls (not_disk result) (D.device disk.old) (D.device disk.new) }
{
    let ReadStore {
        core,
        journal,
        form,
    } = read_store(alloc, disk)?;
    if form == FORM_IN_USE {
        return Err(MigrateFault::NotOld);
    }
    migrate_read(alloc, disk, &core, journal)
}

/// Migrates a store that was read by a half of form 1.
fn migrate_read<D: Disk>(
    alloc: Global,
    disk: &mut D,
    core: &Core,
    journal: Journal,
) -> Result<Migrated, MigrateFault>
    requires device { BLOCK * journal.blocks ≤ (D.device disk.old).size }
    requires whole { IsWhole journal }
    requires sizes { 2 * journal.half + 3 ≤ journal.blocks }
    requires blocks { HasItsBlocks core.now.library journal }
    ensures answer { (D.device disk.old).shows ≡ true
        → IsKeptBy 1 (D.device disk.old).seen (view_of core.now.library journal)
        → MigrateAnswer (D.device disk.old).seen (D.device disk.new).seen result }
    ensures moments { (D.device disk.old).honest ≡ true → (D.device disk.old).shows ≡ true
        → LeavesOnly (D.device disk.old).seen (D.device disk.old)
        → IsKeptBy 1 (D.device disk.old).seen (view_of core.now.library journal)
        → Elapses (Migrates (archive_read 1 (D.device disk.old).seen (view_of core.now.library journal)))
        (MigrationEnds (is_ok result) (archive_read 1 (D.device disk.old).seen (view_of core.now.library journal)))
        (D.device disk.old) (D.device disk.new) }
    ensures durable { (D.device disk.old).honest ≡ true
        → OnOk result (LeavesOnly (D.device disk.new).seen (D.device disk.new)) }
    ensures handed { (D.device disk.old).tells ≡ true → IfOk result
        (λ migrated. (D.device disk.new).handed ≡ (D.device disk.old).handed + (migrated.rows + 10)) }
    ensures refused { is_refused result ≡ true
        → DiskReads true (D.device disk.old) (D.device disk.new) }
    ensures calls { DiskCalls (not_disk result) (D.device disk.old) (D.device disk.new) }
{
    rows_give_the_library();
    let rows = library_rows(alloc, disk, core, &journal)?;
    let text = rows.text.bytes();
    let migrated = Migrated {
        objects: rows.stored,
        rows: text.len() as u64,
    };
    let mut journal = journal;
    journal.checkpoint(disk, text)?;
    Ok(migrated)
}
