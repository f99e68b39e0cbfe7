//! The plan of a change that comes without a command.
ghost use Rattle.std.specs.Prelude.{◌≡◌, IfOk, IsTrue};
ghost use Rattle.media_rows.specs.Apply.{applies};
ghost use Rattle.media_rows.specs.Changes.{after};
ghost use Rattle.store_plans.specs.Plans.{ChangeFits, IsChangePlan, journal_in};

use crate::outcome::Planned;
use crate::room::{Recorded, record_of};
use disk_trait::Memory;
use library_laws::applies_is_tested;
use media_journal::Journal;
use media_rows::{ApplyFault, Change, Reply};
use std::alloc::Global;
use store_core::Core;

/// What a change makes of a store: it doesn't apply, it has no room, or it is planned.
#[derive(Drop)]
pub enum ChangePlan {
    /// The library refuses the change.
    Refused,
    /// The change applies, and doesn't fit the journal, even behind a checkpoint.
    NoRoom,
    Made(Planned),
}

/// The plan of a change that comes without a command, as the delivery of an event does. `Refused` comes exactly where the
/// change doesn't apply to the library, and `NoRoom` exactly where it applies and doesn't fit the journal. The reply is
/// `Done`.
pub fn plan_change(
    alloc: Global,
    core: &Core,
    journal: &Journal,
    change: &Change,
) -> Result<ChangePlan, Memory>
    ensures planned { IfOk result
        (IsChangePlan (journal_in core.now.library journal.now) change.now) }

    // Where there is a record, it has the room that it needs.
    ensures fits { IfOk result (ChangeFits journal.now) }
{
    match core.apply(alloc, change) {
        Ok(next) => plan_applied(alloc, core, journal, change, next),
        Err(ApplyFault::Refused) => Ok(ChangePlan::Refused),
        Err(ApplyFault::Memory) => Err(Memory),
    }
}

/// The plan of a change that applies, and leaves this library.
fn plan_applied(
    alloc: Global,
    core: &Core,
    journal: &Journal,
    change: &Change,
    next: Core,
) -> Result<ChangePlan, Memory>
    requires applies { IsTrue (applies core.now.library change.now) }
    requires next { next.library ≡ after change.now core.now.library }
    ensures planned { IfOk result
        (IsChangePlan (journal_in core.now.library journal.now) change.now) }
    ensures fits { IfOk result (ChangeFits journal.now) }
{
    applies_is_tested();
    core.keeps_good();
    match record_of(alloc, core, journal, change)? {
        None => Ok(ChangePlan::NoRoom),
        Some(Recorded { frame, rows }) => Ok(ChangePlan::Made(Planned {
            next,
            frame: Some(frame),
            rows,
            reply: Reply::Done,
        })),
    }
}
