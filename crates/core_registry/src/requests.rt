//! Delete requests that come, and serials that are taken.
ghost use Rattle.std.specs.Prelude.{◌≡◌, ◌+◌, IfOk, IsTrue, None, Some, if◌then◌else◌, nat_le};
ghost use Rattle.media_rows.specs.declared.change.Change.TheVariants as changes;
ghost use Rattle.media_rows.specs.Library.{last_serial};
ghost use Rattle.delete_work.specs.Work.{are_requests_below};
ghost use Rattle.core_registry.specs.Registry.{after_change, within};

use crate::Registry;
use disk_trait::Memory;
use media_rows::Deletion;
use std::alloc::Global;

/// The last serial that a library may come to.
pub(crate) const LAST_SERIAL: u64 = 9_223_372_036_854_775_807;

impl Registry {
    /// Adds a delete request. It takes the next serial, and is made now.
    pub fn ask_delete(
        &self,
        alloc: Global,
        asked: &Deletion,
        now: u64,
    ) -> Result<Option<Registry>, Memory>
        requires behind { IsTrue (are_requests_below self.now.next_serial self.now.requests) }
        ensures { IfOk result (λ next. next
            ≡ within (after_change (changes.AskDelete now asked.now.flow asked.now.range
            asked.now.delete_flow) self.now)) }
    {
        let Some(next_serial) = next_within(self.next_serial) else {
            return Ok(None);
        };
        let requests = self.requests.request(alloc, asked, self.next_serial, now)?;
        Ok(Some(self.with_requests(alloc, requests)?.at_serial(next_serial)?))
    }

    /// Takes so many serials.
    pub fn take_serials(&self, count: u64) -> Result<Option<Registry>, Memory>
        ensures { IfOk result (λ next. next
            ≡ within (record self.now { next_serial = self.now.next_serial + count })) }
    {
        if self.next_serial > LAST_SERIAL || count > LAST_SERIAL - self.next_serial {
            return Ok(None);
        }
        Ok(Some(self.at_serial(self.next_serial + count)?))
    }

    /// The registry with this next serial.
    pub(crate) fn at_serial(&self, next_serial: u64) -> Result<Registry, Memory>
        ensures { IfOk result (λ next. next ≡ record self.now { next_serial = next_serial }) }
    {
        Ok(Registry {
            catalog: self.catalog.clone()?,
            requests: self.requests.clone()?,
            outbox: self.outbox.clone()?,
            next_serial,
        })
    }
}

/// The serial behind this one, unless serials end with it.
pub(crate) fn next_within(serial: u64) -> Option<u64>
    ensures { result ≡ (if nat_le (serial + 1) last_serial then Some (serial + 1) else None) }
{
    if serial < LAST_SERIAL {
        Some(serial + 1)
    } else {
        None
    }
}
