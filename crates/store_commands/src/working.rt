//! The command that works: it makes turns, each at a moment of its own, until one changes nothing.
ghost use Rattle.std.specs.Prelude.{◌≡◌, ◌≤◌, [], true, length, None, IsFalse};
ghost use Rattle.connection_loop.specs.Endings.{TellsAll};
ghost use Rattle.disk_trait.specs.Calls.{DiskCalls, IsCounted};
ghost use Rattle.media_store.specs.Faults.{not_disk_fault};
ghost use Rattle.media_store.specs.Stores.{size_of};
ghost use Rattle.run_history.specs.Runs.{Beginning};
ghost use Rattle.store_states.specs.States.{StoreState};
ghost use Rattle.store_commands.specs.Beginning.{most_given};
ghost use Rattle.store_commands.specs.WorkEnds.{WorkEnds};
ghost use Rattle.tams_outcomes.specs.Statuses.{no_disk_fault};
ghost use Rattle.store_commands.specs.Working.{HasWorked, work_outcome};
ghost use Rattle.store_commands.specs.Turning.{IsWorking, WorkRun};

use crate::opening::opening_outcome;
use disk_trait::Disk;
use media_store::{Store, StoreFault, TurnMade};
use site_edge::Clock;
use std::alloc::Global;
use store_opening::{damaged_images_stand_for_none, kept_images_stand};
use store_states::an_image_stands_for_one_state;
use tams_machine::turns_keep;
use tams_outcomes::RunOutcome;

/// Opens the store of a device, and makes turns until one changes nothing.
pub fn work<D: Disk, C: Clock>(alloc: Global, disk: &mut D, clock: &mut C) -> RunOutcome
    ensures disk { IsCounted (no_disk_fault result) (D.device disk.old).faults
        (D.device disk.new).faults }
    ensures ends { WorkEnds (D.device disk.old) (D.device disk.new) (C.tells clock.old)
        (C.given clock.old) (C.given clock.new) result }
{
    open_and_turn(alloc, disk, clock)
}

/// The same, with what opening and the turns answer.
fn open_and_turn<D: Disk, C: Clock>(alloc: Global, disk: &mut D, clock: &mut C) -> RunOutcome
    ensures disk { IsCounted (no_disk_fault result) (D.device disk.old).faults
        (D.device disk.new).faults }
    ensures ends { WorkRun (D.device disk.old) (D.device disk.new) (C.tells clock.old)
        (C.given clock.old) (C.given clock.new) result }
{
    damaged_images_stand_for_none();
    kept_images_stand();
    an_image_stands_for_one_state();
    match Store::open(alloc, disk) {
        Ok(mut store) => {
            let end = make_turns(alloc, &mut store, disk, clock);
            store.close();
            work_outcome(end)
        }
        Err(fault) => opening_outcome(fault),
    }
}

/// Makes turns until one changes nothing, and answers how many did.
fn make_turns<D: Disk, C: Clock>(
    alloc: Global,
    store: &mut Store,
    disk: &mut D,
    clock: &mut C,
) -> Result<u64, StoreFault>
    requires unspent { IsFalse store.old.spent }
    requires idle { store.old.put ≡ None }
    requires device { size_of store.old.kept ≤ (D.device disk.old).size }
    ensures calls { DiskCalls (not_disk_fault result) (D.device disk.old) (D.device disk.new) }
    ensures worked { TellsAll (D.device disk.old) (C.tells clock.old)
        → length (C.given clock.old) ≤ most_given → (b : Beginning StoreState)
        → IsWorking b [] [] (D.device disk.old) (C.given clock.old) store.old
        → HasWorked b (D.device disk.new) (C.given clock.new) result }
{
    turns_keep();
    let mut turns = 0;
    for _ in 0..u64::MAX {
        match store.turn(alloc, disk, clock.now())? {
            TurnMade::Deleted | TurnMade::Swept => turns += 1,
            TurnMade::Nothing | TurnMade::NoRoom => return Ok(turns),
        }
    }
    Ok(turns)
}

/// The outcome of turns by how they ended.
fn work_outcome(end: Result<u64, StoreFault>) -> RunOutcome
    ensures { result ≡ work_outcome end }
{
    match end {
        Ok(turns) => RunOutcome::Worked(turns),
        Err(StoreFault::Disk) => RunOutcome::DiskFault,
        Err(StoreFault::Memory) => RunOutcome::NoMemory,
    }
}
