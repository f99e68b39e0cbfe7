//! Hooks that come and go, and events that were delivered to them.
ghost use Rattle.std.specs.Prelude.{◌≡◌, IfOk, IsTrue};
ghost use Rattle.media_rows.specs.Changes.{after_hook, without_event, without_hook};
ghost use Rattle.media_rows.specs.Outbox.{waits_first};
ghost use Rattle.core_parts.specs.Conditions.{IsReady};
ghost use Rattle.core_parts.specs.Parts.{only_library, within_serials};

use crate::Parts;
use disk_trait::{Memory, Text};
use media_rows::Hook;
use std::alloc::Global;

impl Parts {
    /// Puts a hook, with the next serial, in place of the one of its address, whose events go.
    pub fn put_hook(&self, alloc: Global, hook: &Hook) -> Result<Option<Parts>, Memory>
        requires ready { IsReady self.now.library }
        ensures { IfOk result
            (λ next. only_library next ≡ within_serials (after_hook hook.now self.now.library)) }
    {
        let registry = self.registry.put_hook(alloc, hook)?;
        self.with_registry(alloc, registry)
    }

    /// Leaves out the hook of an address with its events. Where there is none, the library is the same.
    pub fn drop_hook(&self, alloc: Global, url: &Text) -> Result<Option<Parts>, Memory>
        requires ready { IsReady self.now.library }
        ensures { IfOk result
            (λ next. only_library next ≡ within_serials (without_hook url.now self.now.library)) }
    {
        let registry = self.registry.drop_hook(alloc, url)?;
        self.with_registry(alloc, Some(registry))
    }

    /// Leaves out an event that was delivered, which is the first that waits for its hook.
    pub fn deliver(&self, alloc: Global, event: u64) -> Result<Option<Parts>, Memory>
        requires ready { IsReady self.now.library }
        requires first { IsTrue (waits_first event self.now.library.outbox.events) }
        ensures { IfOk result
            (λ next. only_library next ≡ within_serials (without_event event self.now.library)) }
    {
        let registry = self.registry.deliver(alloc, event)?;
        self.with_registry(alloc, Some(registry))
    }
}
