//! Lists of the rows of an outbox.
ghost use Rattle.std.specs.Prelude.{◌≡◌, IfOk, map};
ghost use Rattle.shared_tree.specs.Pairs.{values, values_of};
ghost use Rattle.shared_tree.specs.Rows.{IsKeyedBy};
ghost use Rattle.webhook_outbox.specs.Within.Slots.{event_key, hook_rows, hooks_of, shown_slot, slot_key};

use crate::looks::all_values;
use crate::outbox::Slot;
use disk_trait::{Duplicate, Memory};
use media_rows::{EventRow, EventRowList, HookList, HookShown, HookShownList};
use shared_tree::Version;
use std::alloc::Global;

/// Copies of these events.
fn events_copied(alloc: Global, rows: &[&EventRow]) -> Result<EventRowList, Memory>
    ensures { IfOk result (λ list. list ≡ values_of rows.now) }
{
    let mut list = EventRowList::new(alloc);
    for row in rows {
        list.push(row.duplicate(alloc)?)?;
    }
    Ok(list)
}

/// Copies of the rows of these hooks.
fn hooks_copied(alloc: Global, slots: &[&Slot]) -> Result<HookList, Memory>
    ensures { IfOk result (λ list. list ≡ hook_rows (values_of slots.now)) }
{
    let mut list = HookList::new(alloc);
    for slot in slots {
        list.push(slot.row.duplicate(alloc)?)?;
    }
    Ok(list)
}

/// The events by rising serial.
pub(crate) fn event_list(alloc: Global, events: &Version<EventRow>) -> Result<EventRowList, Memory>
    requires keyed { IsKeyedBy event_key events.now }
    ensures { IfOk result (λ list. list ≡ values events.now) }
{
    events_copied(alloc, &all_values(alloc, events)?)
}

/// The hooks by rising serial.
pub(crate) fn hook_list(alloc: Global, slots: &Version<Slot>) -> Result<HookList, Memory>
    requires keyed { IsKeyedBy slot_key slots.now }
    ensures { IfOk result (λ list. list ≡ hooks_of slots.now) }
{
    hooks_copied(alloc, &all_values(alloc, slots)?)
}

/// Copies of the rows of these hooks, each with the number of its events.
fn shown_hooks(alloc: Global, slots: &[&Slot]) -> Result<HookShownList, Memory>
    ensures { IfOk result (λ list. list ≡ map shown_slot (values_of slots.now)) }
{
    let mut list = HookShownList::new(alloc);
    for slot in slots {
        list.push(shown_slot(alloc, slot)?)?;
    }
    Ok(list)
}

fn shown_slot(alloc: Global, slot: &Slot) -> Result<HookShown, Memory>
    ensures { IfOk result (λ shown. shown ≡ shown_slot slot.now) }
{
    let waiting = slot.waiting.len();
    if waiting == u64::MAX {
        return Err(Memory);
    }
    Ok(HookShown {
        row: slot.row.duplicate(alloc)?,
        waiting,
    })
}

/// The hooks by rising serial, each with the number of its events.
pub(crate) fn shown_list(alloc: Global, slots: &Version<Slot>) -> Result<HookShownList, Memory>
    requires keyed { IsKeyedBy slot_key slots.now }
    ensures { IfOk result (λ list. list ≡ map shown_slot (values slots.now)) }
{
    shown_hooks(alloc, &all_values(alloc, slots)?)
}
