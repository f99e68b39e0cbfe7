//! The plan of an outcome that was prepared.
ghost use Rattle.std.specs.Prelude.{◌≡◌, IfOk, IfSome, option_map};
ghost use Rattle.store_plans.specs.Plans.{PlanFits, journal_in};
ghost use Rattle.store_plans.specs.Within.{IsFitted, IsPreparedFor, WrittenFits, prepared_outcome, plan_with, still};

use crate::room::{Recorded, record_of};
use disk_trait::{Memory, Text};
use media_journal::{Frame, Journal};
use media_rows::Reply;
use std::alloc::Global;
use store_core::{Core, Prepared};

/// What a command, a turn or a put makes of a store: the library afterwards, the record of its change, where it has one that
/// fits the journal, the rows of the checkpoint that must come first, where the room is too small for the record, and the
/// reply.
#[derive(Drop)]
pub struct Planned {
    pub next: Core,
    pub frame: Option<Frame>,
    pub rows: Option<Text>,
    pub reply: Reply,
}

/// What is written for a plan: the record of its change, where it has one, and the rows before it.
#[derive(Drop)]
struct Written {
    frame: Option<Frame>,
    rows: Option<Text>,
}

/// The plan that leaves a library as it is.
pub(crate) fn unchanged(alloc: Global, core: &Core, reply: Reply) -> Result<Planned, Memory>
    ensures { IfOk result (λ planned. planned ≡ still core.now reply) }
{
    Ok(Planned {
        next: core.share(alloc)?,
        frame: None,
        rows: None,
        reply,
    })
}

/// The plan of what was prepared, and `None` exactly where its change doesn't fit the journal.
pub(crate) fn fitted(
    alloc: Global,
    core: &Core,
    journal: &Journal,
    prepared: Prepared,
) -> Result<Option<Planned>, Memory>
    requires { IsPreparedFor core.now.library prepared }
    ensures plan { IfOk result (IsFitted (journal_in core.now.library journal.now) (prepared_outcome prepared)) }
    ensures fits { IfOk result (λ planned. IfSome planned (PlanFits journal.now)) }
{
    match written_of(alloc, core, journal, &prepared)? {
        None => Ok(None),
        Some(written) => Ok(Some(plan_with(prepared, written))),
    }
}

/// What is written for what was prepared, and `None` exactly where its change doesn't fit the journal.
fn written_of(
    alloc: Global,
    core: &Core,
    journal: &Journal,
    prepared: &Prepared,
) -> Result<Option<Written>, Memory>
    requires { IsPreparedFor core.now.library prepared.now }
    ensures plan { IfOk result (λ written. IsFitted (journal_in core.now.library journal.now)
        (prepared_outcome prepared.now) (option_map (plan_with prepared.now) written)) }
    ensures fits { IfOk result (λ written. IfSome written (WrittenFits journal.now)) }
{
    let Some(change) = &prepared.change else {
        return Ok(Some(Written {
            frame: None,
            rows: None,
        }));
    };
    if prepared.past {
        return Ok(None);
    }
    match record_of(alloc, core, journal, change)? {
        None => Ok(None),
        Some(Recorded { frame, rows }) => Ok(Some(Written {
            frame: Some(frame),
            rows,
        })),
    }
}

/// The plan of what was prepared, with what is written for it.
fn plan_with(prepared: Prepared, written: Written) -> Planned
    ensures { result ≡ plan_with prepared written }
{
    let Prepared { core, reply, .. } = prepared;
    let Written { frame, rows } = written;
    Planned {
        next: core,
        frame,
        rows,
        reply,
    }
}
