//! The plan of a command.
ghost use Rattle.std.specs.Prelude.{◌≡◌, IfOk, IsTrue};
ghost use Rattle.media_rows.specs.Answer.{answer, shown_reply};
ghost use Rattle.media_rows.specs.Moments.{is_moment};
ghost use Rattle.media_rows.specs.Sound.{is_good_command};
ghost use Rattle.media_rows.specs.Views.{asked};
ghost use Rattle.store_plans.specs.Plans.{IsPlanOf, PlanFits, journal_in};
ghost use Rattle.store_plans.specs.Within.{still};

use crate::outcome::{Planned, fitted, unchanged};
use disk_trait::Memory;
use media_journal::Journal;
use media_rows::{BookFault, Command, Query, Refusal, Reply};
use std::alloc::Global;
use store_core::Core;

/// The plan of a command at a moment, in seconds since 1970-01-01T00:00:00Z: its refusal, or what it makes of the store. A
/// question makes nothing. A change that doesn't fit the journal is refused after all else, as `JournalFull`. An object
/// that is to be kept has its least free place.
pub fn plan(
    alloc: Global,
    core: &Core,
    journal: &Journal,
    command: &Command,
    now: u64,
) -> Result<Planned, Memory>
    requires good { IsTrue (is_good_command core.now.library command.now) }
    requires moment { IsTrue (is_moment now) }
    ensures planned { IfOk result
        (IsPlanOf (journal_in core.now.library journal.now) (answer core.now.library command.now now)) }

    // Where there is a record, it has the room that it needs.
    ensures fits { IfOk result (PlanFits journal.now) }
{
    if let Command::Ask(question) = command {
        return plan_query(alloc, core, question);
    }
    plan_command(alloc, core, journal, command, now)
}

/// The plan of a question: what it shows, or its refusal.
fn plan_query(alloc: Global, core: &Core, question: &Query) -> Result<Planned, Memory>
    ensures { IfOk result
        (λ planned. planned ≡ still core.now (shown_reply (asked core.now.library question.now))) }
{
    match core.query(alloc, question) {
        Ok(reply) => unchanged(alloc, core, reply),
        Err(BookFault::Refused(why)) => unchanged(alloc, core, Reply::Refused(why)),
        Err(BookFault::Memory) => Err(Memory),
    }
}

/// The plan of a command by what is prepared for it.
fn plan_command(
    alloc: Global,
    core: &Core,
    journal: &Journal,
    command: &Command,
    now: u64,
) -> Result<Planned, Memory>
    requires good { IsTrue (is_good_command core.now.library command.now) }
    requires moment { IsTrue (is_moment now) }
    ensures planned { IfOk result
        (IsPlanOf (journal_in core.now.library journal.now) (answer core.now.library command.now now)) }
    ensures fits { IfOk result (PlanFits journal.now) }
{
    let prepared = match core.prepare(alloc, command, now) {
        Ok(prepared) => prepared,
        Err(BookFault::Refused(why)) => return Ok(unchanged(alloc, core, Reply::Refused(why))?),
        Err(BookFault::Memory) => return Err(Memory),
    };
    match fitted(alloc, core, journal, prepared)? {
        Some(planned) => Ok(planned),
        None => Ok(unchanged(alloc, core, Reply::Refused(Refusal::JournalFull))?),
    }
}
