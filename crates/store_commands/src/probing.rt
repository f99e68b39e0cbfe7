//! Whether the objects of a store are whole.
ghost use Rattle.std.specs.Prelude.{◌≡◌, ◌≤◌, true, Contains, IfOk, IsFalse};
ghost use Rattle.disk_trait.specs.Calls.{DiskReads};
ghost use Rattle.media_store.specs.Faults.{is_disk, not_disk_fault};
ghost use Rattle.media_store.specs.Stores.{size_of};
ghost use Rattle.store_core.specs.Prepared.{stored_objects};
ghost use Rattle.store_commands.specs.Probing.{FirstTold, RowTold, archive_in, told_by};

use disk_trait::{Disk, Duplicate, Memory};
use media_rows::{ObjectRow, print_digest};
use media_store::{Probe, Store, StoreFault};
use std::alloc::Global;
use tams_outcomes::DamagedObject;

/// What is told of the first stored object, by rising serial, whose bytes haven't the digest that is kept of them.
/// Each object is read once, and none behind it.
pub(crate) fn first_damaged<D: Disk>(
    alloc: Global,
    store: &mut Store,
    disk: &mut D,
) -> Result<Option<DamagedObject>, StoreFault>
    requires unspent { IsFalse store.old.spent }
    requires device { size_of store.old.kept ≤ (D.device disk.old).size }
    ensures tells { (D.device disk.old).shows ≡ true
        → IfOk result (FirstTold (archive_in (D.device disk.old).seen store.old.kept)) }
    ensures reads { DiskReads (not_disk_fault result) (D.device disk.old) (D.device disk.new) }
    ensures kept { store.new.kept ≡ store.old.kept }
{
    let rows = store.stored(alloc)?;
    for row in rows.items() {
        if let Some(damaged) = damage_of(alloc, store, disk, row)? {
            return Ok(Some(damaged));
        }
    }
    Ok(None)
}

/// What is told of a stored object whose bytes haven't the digest that is kept of them.
fn damage_of<D: Disk>(
    alloc: Global,
    store: &mut Store,
    disk: &mut D,
    row: &ObjectRow,
) -> Result<Option<DamagedObject>, StoreFault>
    requires unspent { IsFalse store.old.spent }
    requires device { size_of store.old.kept ≤ (D.device disk.old).size }
    requires stored { Contains (stored_objects store.old.kept.library.objects) row.now }
    ensures tells { (D.device disk.old).shows ≡ true
        → IfOk result (RowTold (archive_in (D.device disk.old).seen store.old.kept) row.now) }
    ensures reads { DiskReads (not_disk_fault result) (D.device disk.old) (D.device disk.new) }
    ensures kept { store.new.kept ≡ store.old.kept }
    ensures spent { store.new.spent ≡ is_disk result }
{
    store.keeps_good();
    let probe = store.probe(disk, &row.id)?;
    if probe.kept == probe.found {
        return Ok(None);
    }
    let damaged = damage_told(alloc, row, probe)?;
    Ok(Some(damaged))
}

/// A damaged object by its row and what a probe told, with its digests in hexadecimal digits.
fn damage_told(alloc: Global, row: &ObjectRow, probe: Probe) -> Result<DamagedObject, Memory>
    ensures { IfOk result (λ damaged. damaged ≡ told_by row.now probe) }
{
    let object = row.id.duplicate(alloc)?;
    let kept = print_digest(alloc, probe.kept)?;
    let found = print_digest(alloc, probe.found)?;
    Ok(DamagedObject {
        object,
        kept,
        found,
    })
}
