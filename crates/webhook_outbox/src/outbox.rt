//! The outbox and its public calls.
ghost use Rattle.std.specs.Prelude.{◌≡◌, [], ◌∷◌, IfOk, IfSome, IsTrue, map, option_copied};
ghost use Rattle.media_rows.specs.Outbox.{after_delivered, after_drop_hook, after_post, after_put_hook, hook_of, hook_row, waiting_for, waits_first, with_events};
ghost use Rattle.media_rows.specs.Good.{has_hook};
ghost use Rattle.media_rows.specs.Refusals.{Restores};
ghost use Rattle.media_rows.specs.Restoring.{can_restore_outbox, outbox_of};
ghost use Rattle.shared_tree.specs.Pairs.{first};
ghost use Rattle.webhook_outbox.specs.Delivered.{IsBehind, IsBehindHooks, counted};
ghost use Rattle.webhook_outbox.specs.Ordered.{EventsRise, HooksRise, IsLeastFor, IsNextHook, next_hook};
ghost use Rattle.webhook_outbox.specs.Within.Slots.{with_last_hook};
ghost use Rattle.webhook_outbox.specs.Posting.{posted_within, shown_in};

use crate::changes::{marked_row, with_row, with_slot, without_event};
use crate::drops::drop_all;
use crate::lists::{event_list, hook_list, shown_list};
use crate::looks::{all_slots, first_waiting, hook_of, value_above, value_at};
use crate::posts::post_all;
use crate::restores::{are_urls_distinct, events_gathered, hooks_gathered};
use disk_trait::{Duplicate, Memory, Text};
use media_rows::{
    ApplyFault, EventRow, EventRowList, HappenedList, Hook, HookList, HookRow, HookShownList,
};
use shared_tree::Version;
use std::alloc::Global;
use std::marker::Model;
use std::rc::Rc;

/// A hook, and the events that wait for it by their serials.
#[derive(Drop)]
pub(crate) struct Slot {
    pub(crate) row: Rc<HookRow>,
    pub(crate) waiting: Version<EventRow>,
}

/// Hooks and the events that wait for them, each by rising serial. Contracts see the outbox of the
/// library. A change makes a new outbox and leaves this one as it is.
#[derive(Drop)]
pub struct Outbox {
    pub(crate) slots: Version<Slot>,
    pub(crate) events: Version<EventRow>,
}

/// What posting gives: the serial behind those of the new events, and the outbox in which they wait. There
/// is no such serial where serials would end, and then the outbox is as it was.
#[derive(Drop)]
pub struct Posted {
    pub outbox: Outbox,
    pub next: Option<u64>,
}

impl Model for Outbox {
    ghost use Rattle.media_rows.specs.Outbox as library;
    ghost use Rattle.shared_tree.specs.Pairs.{values};
    ghost use Rattle.webhook_outbox.specs.Within.Slots.{AreSlots, hooks_of};

    ghost Value = { library.Outbox };

    ghost view = { λ o. record { hooks = hooks_of o.slots; events = values o.events } };

    ghost invariant = { λ o. AreSlots o.slots o.events };
}

impl Outbox {
    /// An outbox without hooks and events. It takes no memory.
    pub fn empty() -> Outbox
        ensures hooks { result.hooks ≡ [] }
        ensures events { result.events ≡ [] }
    {
        Outbox {
            slots: Version::empty(),
            events: Version::empty(),
        }
    }

    /// The outbox of these hooks and events, each in any order. It is refused exactly where addresses or serials
    /// repeat, where the hook of an event isn't there, or where too many events wait for a hook: more than
    /// 1,000, or so many and the hook hasn't failed.
    pub fn from_rows(
        alloc: Global,
        hooks: &HookList,
        events: &EventRowList,
    ) -> Result<Outbox, ApplyFault>
        ensures { Restores (can_restore_outbox hooks.now events.now)
            (outbox_of hooks.now events.now) result }
    {
        if !are_urls_distinct(alloc, hooks.items())? {
            return Err(ApplyFault::Refused);
        }
        match hooks_gathered(alloc, hooks.items()) {
            Ok(bare) => events_gathered(alloc, &bare, events.items()),
            Err(fault) => Err(fault),
        }
    }

    /// The same outbox once more. The error is for a count of owners that is full.
    pub fn share(&self) -> Result<Outbox, Memory>
        ensures { IfOk result (λ outbox. outbox ≡ self.now) }
    {
        Ok(Outbox {
            slots: self.slots.share()?,
            events: self.events.share()?,
        })
    }

    /// The number of hooks, or the last value of a `u64` where there are more.
    pub fn hook_count(&self) -> u64
        ensures { result ≡ counted self.now.hooks }
    {
        self.slots.len()
    }

    /// The number of events that wait, or the last value of a `u64` where there are more.
    pub fn event_count(&self) -> u64
        ensures { result ≡ counted self.now.events }
    {
        self.events.len()
    }

    /// All hooks by rising serial.
    pub fn hooks(&self, alloc: Global) -> Result<HookList, Memory>
        ensures all { IfOk result (λ list. list ≡ self.now.hooks) }
        ensures rise { IfOk result HooksRise }
    {
        self.serials_rise();
        hook_list(alloc, &self.slots)
    }

    /// All events by rising serial.
    pub fn waiting(&self, alloc: Global) -> Result<EventRowList, Memory>
        ensures all { IfOk result (λ list. list ≡ self.now.events) }
        ensures rise { IfOk result EventsRise }
    {
        self.serials_rise();
        event_list(alloc, &self.events)
    }

    /// All hooks by rising serial, each with the number of its events.
    pub fn shown_hooks(&self, alloc: Global) -> Result<HookShownList, Memory>
        ensures { IfOk result (λ list. list ≡ map (shown_in self.now) self.now.hooks) }
    {
        shown_list(alloc, &self.slots)
    }

    /// The hook of an address.
    pub fn find_hook(&self, alloc: Global, url: &Text) -> Result<Option<&HookRow>, Memory>
        ensures { IfOk result
            (λ row. option_copied row ≡ hook_of url.now self.now.hooks) }
    {
        Ok(hook_of(&all_slots(alloc, &self.slots)?, url))
    }

    /// The hook of least serial above this one; `None` exactly where there is none. It takes no memory.
    pub fn next_hook(&self, after: u64) -> Option<&HookRow>
        ensures next { option_copied result ≡ next_hook after self.now.hooks }
        ensures least { IfSome result (λ row. IsNextHook after self.now.hooks row.now) }
    {
        self.slots.keys_rise();
        let slot = value_above(&self.slots, after)?;
        Some(&slot.row)
    }

    /// The event of least serial that waits for the hook of this serial.
    pub fn first_of(&self, hook: u64) -> Option<&EventRow>
        ensures first { option_copied result ≡ first (waiting_for hook self.now.events) }
        ensures least { IfSome result (λ row. IsLeastFor hook self.now.events row.now) }
    {
        self.events.keys_rise();
        let slot = value_at(&self.slots, hook)?;
        first_waiting(&slot.waiting)
    }

    /// Whether an event of this serial waits, and is the first that waits for its hook.
    pub fn waits_first(&self, event: u64) -> bool
        ensures { result ≡ waits_first event self.now.events }
    {
        self.events.keys_rise();
        let Some(row) = value_at(&self.events, event) else {
            return false;
        };
        match self.first_of(row.hook) {
            Some(first) => first.serial == event,
            None => false,
        }
    }

    /// Adds a hook behind all hooks, in place of the one of its address, whose events go. The new one hasn't
    /// failed, and nothing waits for it.
    pub fn add_hook(&self, alloc: Global, hook: &Hook, serial: u64) -> Result<Outbox, Memory>
        requires last { IsBehindHooks serial self.now.hooks }
        ensures { IfOk result (λ outbox. outbox ≡ after_put_hook hook.now serial self.now) }
    {
        self.drop_hook(alloc, &hook.url)?
            .with_hook(alloc, hook, serial)
    }

    /// Leaves out the hook of an address with its events. Where there is none, the outbox is the same.
    pub fn drop_hook(&self, alloc: Global, url: &Text) -> Result<Outbox, Memory>
        ensures { IfOk result (λ outbox. outbox ≡ after_drop_hook url.now self.now) }
    {
        self.slots.keys_rise();
        drop_all(alloc, self, &all_slots(alloc, &self.slots)?, url)
    }

    /// Adds the events of what happened at a moment, in seconds since 1970-01-01T00:00:00Z: happening by
    /// happening, each for the hooks that take it by rising serial, with serials from this one on. A hook for
    /// which the most events wait has failed, and takes no more.
    pub fn post_events(
        &self,
        alloc: Global,
        happened: &HappenedList,
        serial: u64,
        now: u64,
    ) -> Result<Posted, Memory>
        requires last { IsBehind serial self.now.events }
        ensures { IfOk result (λ posted. posted ≡ posted_within self.now
            (after_post happened.now now (record { outbox = self.now; next = serial }))) }
    {
        match post_all(alloc, self, happened.items(), serial, now)? {
            Some(reached) => Ok(Posted {
                outbox: reached.outbox,
                next: Some(reached.next),
            }),
            None => Ok(Posted {
                outbox: self.share()?,
                next: None,
            }),
        }
    }

    /// Tells what holds of each outbox: its hooks and its events stand by rising serial.
    pub fn serials_rise(&self)
        ensures hooks { HooksRise self.now.hooks }
        ensures events { EventsRise self.now.events }
    {
        self.slots.keys_rise();
        self.events.keys_rise();
    }

    /// Tells what holds of each outbox: hooks for which the most events wait have failed.
    pub(crate) fn full_have_failed(&self)
        ensures { with_events [] self.now ≡ self.now }
    {
        // Where a field is read, the invariant is known.
        let _ = &self.slots;
    }

    /// Adds a hook, which hasn't failed and for which nothing waits, behind all hooks.
    pub(crate) fn with_hook(
        &self,
        alloc: Global,
        hook: &Hook,
        serial: u64,
    ) -> Result<Outbox, Memory>
        requires last { IsBehindHooks serial self.now.hooks }
        ensures { IfOk result (λ outbox. outbox ≡ with_last_hook (hook_row hook.now serial) self.now) }
    {
        let row = HookRow {
            serial,
            hook: hook.duplicate(alloc)?,
            failed: false,
        };
        let slot = Slot {
            row: Rc::new(alloc, row)?,
            waiting: Version::empty(),
        };
        Ok(Outbox {
            slots: with_slot(alloc, &self.slots, serial, slot)?,
            events: self.events.share()?,
        })
    }

    /// Adds an event for a kept hook, behind all events. A hook for which the most events wait has failed.
    pub(crate) fn with_event(&self, alloc: Global, row: EventRow) -> Result<Outbox, Memory>
        requires hook { IsTrue (has_hook self.now.hooks row) }
        requires last { IsBehind row.serial self.now.events }
        ensures { IfOk result (λ outbox. outbox ≡ with_events (row ∷ []) self.now) }
    {
        self.slots.keys_rise();
        self.events.keys_rise();
        let Some(slot) = value_at(&self.slots, row.hook) else {
            unreachable!()
        };
        let more = Slot {
            row: marked_row(alloc, slot)?,
            waiting: with_row(alloc, &slot.waiting, row)?,
        };
        Ok(Outbox {
            slots: with_slot(alloc, &self.slots, row.hook, more)?,
            events: with_row(alloc, &self.events, row)?,
        })
    }

    /// Leaves out an event that was delivered, which is the first that waits for its hook.
    pub fn delivered(&self, alloc: Global, event: u64) -> Result<Outbox, Memory>
        requires first { IsTrue (waits_first event self.now.events) }
        ensures { IfOk result (λ outbox. outbox ≡ after_delivered event self.now) }
    {
        self.slots.keys_rise();
        self.events.keys_rise();
        let Some(row) = value_at(&self.events, event) else {
            unreachable!()
        };
        let Some(slot) = value_at(&self.slots, row.hook) else {
            unreachable!()
        };
        let left = Slot {
            row: slot.row.clone()?,
            waiting: without_event(alloc, &slot.waiting, event)?,
        };
        Ok(Outbox {
            slots: with_slot(alloc, &self.slots, row.hook, left)?,
            events: without_event(alloc, &self.events, event)?,
        })
    }
}
