//! The plan of a turn.
ghost use Rattle.std.specs.Prelude.{◌≡◌, IfErr, IfOk, IfSome, IsTrue, is_some};
ghost use Rattle.media_rows.specs.Apply.{turn};
ghost use Rattle.media_rows.specs.Moments.{is_moment};
ghost use Rattle.store_core.specs.Prepared.{AppliesTo, preparation, turned};
ghost use Rattle.store_plans.specs.Plans.{IsTurnPlan, TurnFits, journal_in};
ghost use Rattle.store_plans.specs.Within.{is_delete_step};

use crate::outcome::{Planned, fitted};
use disk_trait::Memory;
use media_journal::Journal;
use media_rows::Change;
use std::alloc::Global;
use store_core::{Core, Prepared};

/// What a turn makes of a store: nothing is due, what is due has no room, or the plan of a delete step or of a sweep.
#[derive(Drop)]
pub enum TurnPlan {
    Nothing,
    NoRoom,
    Delete(Planned),
    Sweep(Planned),
}

/// The plan of a turn: a delete request is worked off by one step, or else objects that are due are swept. `Nothing` comes
/// exactly where nothing is due, and `NoRoom` exactly where the change of what is due doesn't fit the journal.
pub fn plan_turn(
    alloc: Global,
    core: &Core,
    journal: &Journal,
    now: u64,
) -> Result<TurnPlan, Memory>
    requires moment { IsTrue (is_moment now) }
    ensures planned { IfOk result (IsTurnPlan (journal_in core.now.library journal.now) now) }

    // That nothing is due is found without memory.
    ensures due { IfErr result (λ _. IsTrue (is_some (turn core.now.library now))) }

    // Where there is a record, it has the room that it needs.
    ensures fits { IfOk result (TurnFits journal.now) }
{
    match core.prepare_turn(alloc, now)? {
        None => Ok(TurnPlan::Nothing),
        Some(prepared) => plan_step(alloc, core, journal, prepared, now),
    }
}

/// The plan of what was prepared for a turn in which something is due.
fn plan_step(
    alloc: Global,
    core: &Core,
    journal: &Journal,
    prepared: Prepared,
    now: u64,
) -> Result<TurnPlan, Memory>
    requires turned { turned core.now.library now ≡ Some (preparation prepared) }
    requires applies { AppliesTo core.now.library (preparation prepared) }
    ensures planned { IfOk result (IsTurnPlan (journal_in core.now.library journal.now) now) }
    ensures fits { IfOk result (TurnFits journal.now) }
{
    let deletes = is_delete(&prepared.change);
    match fitted(alloc, core, journal, prepared)? {
        None => Ok(TurnPlan::NoRoom),
        Some(planned) => {
            if deletes {
                return Ok(TurnPlan::Delete(planned));
            }
            Ok(TurnPlan::Sweep(planned))
        }
    }
}

/// Whether the change is a delete step.
fn is_delete(change: &Option<Change>) -> bool
    ensures { result ≡ is_delete_step change.now }
{
    matches!(change, Some(Change::DeleteStep { .. }))
}
