//! What is to be sent next.
ghost use Rattle.std.specs.Prelude.{◌≡◌, IfOk};
ghost use Rattle.store_delivery.specs.Within.Due.{IsNextDue};

use disk_trait::Memory;
use hook_delivery::{Outgoing, request_of};
use media_store::Store;
use std::alloc::Global;

/// An event by its serial, and the request by which it goes to its hook.
#[derive(Drop)]
pub(crate) struct Sending {
    pub(crate) event: u64,
    pub(crate) out: Outgoing,
}

/// A hook by its serial, and the first event that waits for it, where one does that goes to the hook's address.
#[derive(Drop)]
pub(crate) struct HookDue {
    pub(crate) hook: u64,
    pub(crate) sending: Option<Sending>,
}

/// What is to be sent to the hook of least serial above this one; `None` exactly where there is no such hook.
pub(crate) fn next_due(alloc: Global, store: &Store, after: u64) -> Result<Option<HookDue>, Memory>
    ensures { IfOk result (IsNextDue store.now.kept.library after) }
{
    store.keeps_good();
    let Some(hook) = store.next_hook(after) else {
        return Ok(None);
    };
    let sending = match store.first_event(hook.serial) {
        None => None,
        Some(event) => match request_of(alloc, hook, event, store.id())? {
            None => None,
            Some(out) => Some(Sending {
                event: event.serial,
                out,
            }),
        },
    };
    Ok(Some(HookDue {
        hook: hook.serial,
        sending,
    }))
}
