//! Steps of a change: a hook put at its key, and an event left out.
ghost use Rattle.std.specs.Prelude.{◌≡◌, ◌+◌, IfOk, length, pos};
ghost use Rattle.shared_tree.specs.Pairs.{with_pair, without_key};
ghost use Rattle.webhook_outbox.specs.Within.Slots.{event_key, marked_by};

use crate::outbox::Slot;
use disk_trait::{Duplicate, Memory};
use media_rows::{EventRow, HookRow};
use shared_tree::Version;
use std::alloc::Global;
use std::rc::Rc;

/// The most events that wait for one hook.
pub(crate) const MOST_WAITING: u64 = 1000;

/// The key of a serial.
pub(crate) fn key_of(serial: u64) -> i128
    ensures { result ≡ pos serial }
{
    i128::from(serial)
}

/// The hooks with this one at its serial.
pub(crate) fn with_slot(
    alloc: Global,
    slots: &Version<Slot>,
    serial: u64,
    slot: Slot,
) -> Result<Version<Slot>, Memory>
    ensures { IfOk result (λ next. next ≡ with_pair (pos serial, slot) slots.now) }
{
    slots.with(alloc, key_of(serial), Rc::new(alloc, slot)?)
}

/// The hooks without the one of this serial.
pub(crate) fn without_slot(
    alloc: Global,
    slots: &Version<Slot>,
    serial: u64,
) -> Result<Version<Slot>, Memory>
    ensures { IfOk result (λ next. next ≡ without_key (pos serial) slots.now) }
{
    slots.without(alloc, key_of(serial))
}

/// The events without the one of this serial.
pub(crate) fn without_event(
    alloc: Global,
    events: &Version<EventRow>,
    serial: u64,
) -> Result<Version<EventRow>, Memory>
    ensures { IfOk result (λ next. next ≡ without_key (pos serial) events.now) }
{
    events.without(alloc, key_of(serial))
}

/// The events with this one at its serial.
pub(crate) fn with_row(
    alloc: Global,
    events: &Version<EventRow>,
    row: EventRow,
) -> Result<Version<EventRow>, Memory>
    ensures { IfOk result (λ next. next ≡ with_pair (event_key row, row) events.now) }
{
    events.with(alloc, key_of(row.serial), Rc::new(alloc, row)?)
}

/// The row of a hook for which one more event waits. It is made anew only where the hook fails.
pub(crate) fn marked_row(alloc: Global, slot: &Slot) -> Result<Rc<HookRow>, Memory>
    ensures { IfOk result
        (λ row. row.value ≡ marked_by (length slot.now.waiting + 1) slot.now.row.value) }
{
    let row: &HookRow = &slot.row;
    if row.failed || slot.waiting.len() < MOST_WAITING - 1 {
        return Ok(slot.row.clone()?);
    }
    let failed = HookRow {
        serial: row.serial,
        hook: row.hook.duplicate(alloc)?,
        failed: true,
    };
    Ok(Rc::new(alloc, failed)?)
}
