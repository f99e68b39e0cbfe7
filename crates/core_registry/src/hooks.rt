//! Hooks that come and go, and events that were delivered to them.
ghost use Rattle.std.specs.Prelude.{◌≡◌, IfOk, IsTrue};
ghost use Rattle.media_rows.specs.Changes.{after_hook, without_event, without_hook};
ghost use Rattle.media_rows.specs.Outbox.{waits_first};
ghost use Rattle.webhook_outbox.specs.Delivered.{IsBehindHooks};
ghost use Rattle.core_registry.specs.Registry.{bare_library, registry_of, within};

use crate::Registry;
use crate::requests::next_within;
use disk_trait::{Memory, Text};
use media_rows::Hook;
use std::alloc::Global;

impl Registry {
    /// Puts a hook, with the next serial, in place of the one of its address, whose events go.
    pub fn put_hook(&self, alloc: Global, hook: &Hook) -> Result<Option<Registry>, Memory>
        requires behind { IsBehindHooks self.now.next_serial self.now.outbox.hooks }
        ensures { IfOk result (λ next. next
            ≡ within (registry_of (after_hook hook.now (bare_library self.now)))) }
    {
        let Some(next_serial) = next_within(self.next_serial) else {
            return Ok(None);
        };
        let outbox = self.outbox.add_hook(alloc, hook, self.next_serial)?;
        Ok(Some(self.with_outbox(alloc, outbox, next_serial)?))
    }

    /// Leaves out the hook of an address with its events. Where there is none, the registry is the
    /// same.
    pub fn drop_hook(&self, alloc: Global, url: &Text) -> Result<Registry, Memory>
        ensures { IfOk result
            (λ next. next ≡ registry_of (without_hook url.now (bare_library self.now))) }
    {
        let outbox = self.outbox.drop_hook(alloc, url)?;
        self.with_outbox(alloc, outbox, self.next_serial)
    }

    /// Leaves out an event that was delivered, which is the first that waits for its hook.
    pub fn deliver(&self, alloc: Global, event: u64) -> Result<Registry, Memory>
        requires first { IsTrue (waits_first event self.now.outbox.events) }
        ensures { IfOk result
            (λ next. next ≡ registry_of (without_event event (bare_library self.now))) }
    {
        let outbox = self.outbox.delivered(alloc, event)?;
        self.with_outbox(alloc, outbox, self.next_serial)
    }
}
