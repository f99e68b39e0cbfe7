//! The command that checks: it opens the store, reads its objects, and counts what it keeps.
ghost use Rattle.std.specs.Prelude.{◌≡◌, ◌≤◌, IsFalse};
ghost use Rattle.disk_trait.specs.Calls.{DiskReads, IsCounted};
ghost use Rattle.media_store.specs.Stores.{size_of};
ghost use Rattle.store_core.specs.Prepared.{counts_of};
ghost use Rattle.tams_outcomes.specs.Statuses.{no_disk_fault};
ghost use Rattle.tams_outcomes.specs.declared.outcome.RunOutcome.TheVariants.{Checked};
ghost use Rattle.store_commands.specs.Opening.{line_counts};
ghost use Rattle.store_commands.specs.CheckEnds.{CheckCause, CheckEnds, ProbedCause};

use crate::opening::{line_counts, opening_outcome};
use crate::probing::first_damaged;
use disk_trait::Disk;
use media_store::{Store, StoreFault};
use std::alloc::Global;
use store_opening::kept_images_stand;
use store_states::an_image_stands_for_one_state;
use tams_outcomes::RunOutcome;

/// Opens the store of a device, reads its objects, and counts what it keeps. It ends at the first object whose
/// bytes haven't the digest that is kept of them. It writes nothing.
pub fn check<D: Disk>(alloc: Global, disk: &mut D) -> RunOutcome
    ensures disk { IsCounted (no_disk_fault result) (D.device disk.old).faults
        (D.device disk.new).faults }
    ensures ends { CheckEnds (D.device disk.old) (D.device disk.new) result }
{
    open_and_probe(alloc, disk)
}

/// The same, with the cause of its outcome.
fn open_and_probe<D: Disk>(alloc: Global, disk: &mut D) -> RunOutcome
    ensures disk { IsCounted (no_disk_fault result) (D.device disk.old).faults
        (D.device disk.new).faults }
    ensures ends { CheckCause (D.device disk.old) (D.device disk.new) result }
{
    kept_images_stand();
    an_image_stands_for_one_state();
    match Store::open(alloc, disk) {
        Ok(store) => probe_all(alloc, store, disk),
        Err(fault) => opening_outcome(fault),
    }
}

/// The outcome by the objects of a store, which is closed: its counts where each is whole.
fn probe_all<D: Disk>(alloc: Global, store: Store, disk: &mut D) -> RunOutcome
    requires unspent { IsFalse store.spent }
    requires device { size_of store.kept ≤ (D.device disk.old).size }
    ensures reads { DiskReads (no_disk_fault result) (D.device disk.old) (D.device disk.new) }
    ensures probed { ProbedCause store.kept (D.device disk.old) result }
{
    let mut store = store;
    match first_damaged(alloc, &mut store, disk) {
        Ok(None) => checked(store),
        Ok(Some(damaged)) => RunOutcome::DamagedObject(damaged),
        Err(StoreFault::Disk) => RunOutcome::DiskFault,
        Err(StoreFault::Memory) => RunOutcome::NoMemory,
    }
}

/// The outcome with the counts of a store, which is closed.
fn checked(store: Store) -> RunOutcome
    ensures { result ≡ Checked (line_counts (counts_of store.kept.library)) }
{
    let counts = line_counts(store.counts());
    store.close();
    RunOutcome::Checked(counts)
}
