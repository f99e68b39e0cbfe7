//! Hooks that go with the events that wait for them.
ghost use Rattle.std.specs.Prelude.{◌≡◌, IfOk};
ghost use Rattle.shared_tree.specs.Pairs.{values_of};
ghost use Rattle.webhook_outbox.specs.Within.Drops.{dropped, without_event_rows, without_serial};
ghost use Rattle.webhook_outbox.specs.Within.Slots.{hook_rows};

use crate::changes::{without_event, without_slot};
use crate::looks::{all_values, has_url, value_at};
use crate::outbox::{Outbox, Slot};
use disk_trait::{Memory, Text};
use media_rows::EventRow;
use shared_tree::Version;
use std::alloc::Global;

/// The outbox without those of these hooks that have an address.
pub(crate) fn drop_all(
    alloc: Global,
    outbox: &Outbox,
    slots: &[&Slot],
    url: &Text,
) -> Result<Outbox, Memory>
    ensures { IfOk result
        (λ next. next ≡ dropped url.now (hook_rows (values_of slots.now)) outbox.now) }
{
    let mut next = outbox.share()?;
    for slot in slots {
        if has_url(slot, url) {
            next = next.without_hook(alloc, slot.row.serial)?;
        }
    }
    Ok(next)
}

impl Outbox {
    /// The outbox without the hook of a serial and the events that wait for it.
    fn without_hook(&self, alloc: Global, serial: u64) -> Result<Outbox, Memory>
        ensures { IfOk result (λ next. next ≡ without_serial serial self.now) }
    {
        self.slots.keys_rise();
        self.events.keys_rise();
        match value_at(&self.slots, serial) {
            Some(slot) => Ok(Outbox {
                slots: without_slot(alloc, &self.slots, serial)?,
                events: without_rows(alloc, &self.events, &all_values(alloc, &slot.waiting)?)?,
            }),
            None => self.share(),
        }
    }
}

/// The events without these.
fn without_rows(
    alloc: Global,
    events: &Version<EventRow>,
    rows: &[&EventRow],
) -> Result<Version<EventRow>, Memory>
    ensures { IfOk result (λ next. next ≡ without_event_rows (values_of rows.now) events.now) }
{
    let mut next = events.share()?;
    for row in rows {
        next = without_event(alloc, &next, row.serial)?;
    }
    Ok(next)
}
