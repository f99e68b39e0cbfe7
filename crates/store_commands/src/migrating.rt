//! The command that migrates a store of form 1.
ghost use Rattle.std.specs.Prelude.{◌≡◌};
ghost use Rattle.disk_trait.specs.Calls.{IsCounted};
ghost use Rattle.tams_outcomes.specs.Statuses.{no_disk_fault};
ghost use Rattle.store_commands.specs.MigrateEnds.{MigrateEnds, migrated_outcome};

use disk_trait::Disk;
use std::alloc::Global;
use store_migration::{MigrateFault, Migrated, migrate_store};
use tams_outcomes::RunOutcome;

/// Migrates the store of a device from form 1 to the form in use, in place: it reads its objects for their digests,
/// and makes one checkpoint. At each moment a crash leaves the one library, and `migrate` goes on from there.
pub fn migrate<D: Disk>(alloc: Global, disk: &mut D) -> RunOutcome
    ensures disk { IsCounted (no_disk_fault result) (D.device disk.old).faults
        (D.device disk.new).faults }
    ensures ends { MigrateEnds (D.device disk.old) (D.device disk.new) result }
{
    migrated_outcome(migrate_store(alloc, disk))
}

/// The outcome of what migrating a store answers.
fn migrated_outcome(answer: Result<Migrated, MigrateFault>) -> RunOutcome
    ensures { result ≡ migrated_outcome answer }
{
    match answer {
        Ok(Migrated { objects, rows }) => RunOutcome::Migrated { objects, rows },
        Err(MigrateFault::NotStore) => RunOutcome::NotStore,
        Err(MigrateFault::Damaged(at)) => RunOutcome::Damaged(at),
        Err(MigrateFault::NotOld) => RunOutcome::AlreadyMigrated,
        Err(MigrateFault::Full) => RunOutcome::TooSmall,
        Err(MigrateFault::Disk) => RunOutcome::DiskFault,
        Err(MigrateFault::Memory) => RunOutcome::NoMemory,
    }
}
