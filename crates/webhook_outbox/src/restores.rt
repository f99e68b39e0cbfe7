//! Outboxes that are made from rows.
ghost use Rattle.std.specs.Prelude.{◌≡◌, IfOk, IsTrue};
ghost use Rattle.media_rows.specs.Good.{are_urls_distinct};
ghost use Rattle.media_rows.specs.Refusals.{Restores};
ghost use Rattle.webhook_outbox.specs.Within.Restored.{all_fit, folded, has_no_serial, with_hook_joined, may_join, may_wait, no_rows, waits};
ghost use Rattle.webhook_outbox.specs.Within.Slots.{slot_has_room};

use crate::changes::{MOST_WAITING, with_row, with_slot};
use crate::looks::value_at;
use crate::outbox::{Outbox, Slot};
use disk_trait::{Duplicate, Memory};
use media_rows::{ApplyFault, EventRow, HookRow};
use shared_tree::Version;
use std::alloc::Global;
use std::collections::BTreeSet;
use std::rc::Rc;

/// Whether no two hooks have one address.
pub(crate) fn are_urls_distinct(alloc: Global, hooks: &[HookRow]) -> Result<bool, Memory>
    ensures { IfOk result (λ distinct. distinct ≡ are_urls_distinct hooks.now) }
{
    let mut seen = BTreeSet::new(alloc);
    for passed in 0..hooks.len() {
        if !seen.insert(hooks[hooks.len() - 1 - passed].hook.url.bytes())? {
            return Ok(false);
        }
    }
    Ok(true)
}

/// The outbox of these hooks, for which nothing waits. The last one is put first.
pub(crate) fn hooks_gathered(alloc: Global, hooks: &[HookRow]) -> Result<Outbox, ApplyFault>
    ensures { Restores (all_fit may_join with_hook_joined hooks.now no_rows)
        (folded with_hook_joined hooks.now no_rows) result }
{
    let mut outbox = Outbox::empty();
    for passed in 0..hooks.len() {
        match outbox.with_joined(alloc, &hooks[hooks.len() - 1 - passed]) {
            Ok(next) => outbox = next,
            Err(fault) => return Err(fault),
        }
    }
    Ok(outbox)
}

/// The outbox in which these events wait too. The last one is put first.
pub(crate) fn events_gathered(
    alloc: Global,
    bare: &Outbox,
    events: &[EventRow],
) -> Result<Outbox, ApplyFault>
    ensures { Restores (all_fit may_wait waits events.now bare.now)
        (folded waits events.now bare.now) result }
{
    let mut outbox = bare.share()?;
    for passed in 0..events.len() {
        match outbox.with_waiting(alloc, &events[events.len() - 1 - passed]) {
            Ok(next) => outbox = next,
            Err(fault) => return Err(fault),
        }
    }
    Ok(outbox)
}

/// Whether one more event may wait for a hook.
fn has_room(slot: &Slot) -> bool
    ensures { result ≡ slot_has_room slot.now }
{
    let waiting = slot.waiting.len();
    waiting < MOST_WAITING && (waiting < MOST_WAITING - 1 || slot.row.failed)
}

impl Outbox {
    /// Adds a hook at its place, for which nothing waits. It is refused where its serial is that of another one.
    fn with_joined(&self, alloc: Global, row: &HookRow) -> Result<Outbox, ApplyFault>
        ensures { Restores (may_join row.now self.now) (with_hook_joined row.now self.now) result }
    {
        if !self.may_join(row) {
            return Err(ApplyFault::Refused);
        }
        Ok(self.joined(alloc, row)?)
    }

    /// Whether the serial of a hook is new among hooks.
    fn may_join(&self, row: &HookRow) -> bool
        ensures { result ≡ may_join row.now self.now }
    {
        value_at(&self.slots, row.serial).is_none()
    }

    /// Adds a hook at its place, for which nothing waits.
    fn joined(&self, alloc: Global, row: &HookRow) -> Result<Outbox, Memory>
        requires new { IsTrue (may_join row.now self.now) }
        ensures { IfOk result (λ outbox. outbox ≡ with_hook_joined row.now self.now) }
    {
        self.slots.keys_rise();
        let slot = Slot {
            row: Rc::new(alloc, row.duplicate(alloc)?)?,
            waiting: Version::empty(),
        };
        Ok(Outbox {
            slots: with_slot(alloc, &self.slots, row.serial, slot)?,
            events: self.events.share()?,
        })
    }

    /// Adds an event at its place. It is refused where its serial is that of a hook or of another event, where
    /// its hook isn't kept, and where too many would wait for the hook.
    fn with_waiting(&self, alloc: Global, row: &EventRow) -> Result<Outbox, ApplyFault>
        ensures { Restores (may_wait row.now self.now) (waits row.now self.now) result }
    {
        if !self.may_wait(row) {
            return Err(ApplyFault::Refused);
        }
        Ok(self.waits(alloc, row)?)
    }

    /// Whether the serial of an event is new, and its hook is kept and has room.
    fn may_wait(&self, row: &EventRow) -> bool
        ensures { result ≡ may_wait row.now self.now }
    {
        self.slots.keys_rise();
        match value_at(&self.slots, row.hook) {
            Some(slot) => self.is_new(row.serial) && has_room(slot),
            None => false,
        }
    }

    /// Whether no hook and no event has a serial.
    fn is_new(&self, serial: u64) -> bool
        ensures { result ≡ has_no_serial serial self.now }
    {
        value_at(&self.slots, serial).is_none() && value_at(&self.events, serial).is_none()
    }

    /// Adds an event at its place.
    fn waits(&self, alloc: Global, row: &EventRow) -> Result<Outbox, Memory>
        requires may { IsTrue (may_wait row.now self.now) }
        ensures { IfOk result (λ outbox. outbox ≡ waits row.now self.now) }
    {
        self.slots.keys_rise();
        self.events.keys_rise();
        let Some(slot) = value_at(&self.slots, row.hook) else {
            unreachable!()
        };
        let more = Slot {
            row: slot.row.clone()?,
            waiting: with_row(alloc, &slot.waiting, *row)?,
        };
        Ok(Outbox {
            slots: with_slot(alloc, &self.slots, row.hook, more)?,
            events: with_row(alloc, &self.events, *row)?,
        })
    }
}
