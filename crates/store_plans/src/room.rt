//! The record of a change, where the journal has room for it.
ghost use Rattle.std.specs.Prelude.{◌<◌, IfOk, IfSome, length};
ghost use Rattle.store_plans.specs.Plans.{journal_in};
ghost use Rattle.store_plans.specs.Within.{IsBehindRows, IsRecorded, RecordFits};

use change_codec::{encode_change, has_spelling};
use disk_trait::{Memory, Text};
use library_laws::{good_is_tested, rows_give_the_library};
use media_journal::{BLOCK, Frame, Journal};
use media_rows::Change;
use std::alloc::Global;
use store_core::Core;

/// The record of a change, and the rows of the checkpoint before it, where the room is too small for it.
#[derive(Drop)]
pub(crate) struct Recorded {
    pub(crate) frame: Frame,
    pub(crate) rows: Option<Text>,
}

/// The record of a change, and `None` exactly where the journal has no place for it, be it behind a checkpoint. The rows are
/// made only where the room is too small. A change without a spelling, with a text or a list of 2^32 items or more, is want
/// of memory.
pub(crate) fn record_of(
    alloc: Global,
    core: &Core,
    journal: &Journal,
    change: &Change,
) -> Result<Option<Recorded>, Memory>
    ensures found { IfOk result (IsRecorded (journal_in core.now.library journal.now) change.now) }
    ensures fits { IfOk result (λ found. IfSome found (RecordFits journal.now)) }
{
    if !has_spelling(change) {
        return Err(Memory);
    }
    let payload = encode_change(alloc, change)?;
    let size = payload.bytes().len() as u64;
    // A record takes 5 bytes beside its payload, and the gate behind it one.
    if size + 6 > journal.room() {
        return behind_rows(alloc, core, journal, &payload);
    }
    Ok(Some(Recorded {
        frame: Frame::new(alloc, payload.bytes())?,
        rows: None,
    }))
}

/// The record of this payload behind the library's rows, and `None` exactly where a half has no room for both.
fn behind_rows(
    alloc: Global,
    core: &Core,
    journal: &Journal,
    payload: &Text,
) -> Result<Option<Recorded>, Memory>
    requires some { 0 < length payload.now }
    ensures found { IfOk result (IsBehindRows (journal_in core.now.library journal.now) payload.now) }
    ensures fits { IfOk result (λ found. IfSome found (RecordFits journal.now)) }
{
    rows_give_the_library();
    good_is_tested();
    core.keeps_good();
    let rows = core.rows(alloc)?;
    let taken = rows.bytes().len() as u64;
    let size = payload.bytes().len() as u64;
    let half = BLOCK * journal.half();
    // Besides, the rows' length takes 8 bytes.
    if taken > half || size + 14 > half - taken {
        return Ok(None);
    }
    Ok(Some(Recorded {
        frame: Frame::new(alloc, payload.bytes())?,
        rows: Some(rows),
    }))
}
