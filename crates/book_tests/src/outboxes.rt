//! An event that waits for its hook, and its delivery.
ghost use Rattle.std.specs.Prelude.{◌≡◌, [], IfOk};

use disk_trait::{Memory, Text};
use media_rows::{EventKind, EventList, Happened, HappenedList, Hook};
use std::alloc::Global;
use webhook_outbox::{Outbox, Posted};

/// A hook that takes new flows.
fn hook(alloc: Global) -> Result<Hook, Memory> {
    let mut events = EventList::new(alloc);
    events.push(EventKind::FlowCreated)?;
    Ok(Hook {
        url: Text::from_bytes(alloc, b"http://127.0.0.1:9/h")?,
        events,
        key_name: None,
        key_value: None,
        flow_ids: None,
        source_ids: None,
    })
}

/// A flow came.
fn happened(alloc: Global) -> Result<HappenedList, Memory> {
    let mut list = HappenedList::new(alloc);
    list.push(Happened {
        kind: EventKind::FlowCreated,
        subject: 7,
        source: 3,
        range: None,
    })?;
    Ok(list)
}

/// An outbox with a hook, for which nothing waits.
fn hooked(alloc: Global, hook: &Hook) -> Result<Outbox, Memory>
    ensures { IfOk result (λ outbox. outbox.events ≡ []) }
{
    Outbox::empty().add_hook(alloc, hook, 1)
}

/// What posting gives.
fn posted(alloc: Global, outbox: &Outbox, happened: &HappenedList) -> Result<Posted, Memory>
    requires { outbox.now.events ≡ [] }
{
    outbox.post_events(alloc, happened, 2, 0)
}

/// The number of events once the first one of the first hook was delivered.
fn after_delivery(alloc: Global, outbox: &Outbox) -> Result<u64, Memory> {
    let Some(hook) = outbox.next_hook(0) else {
        return Ok(outbox.event_count());
    };
    match outbox.first_of(hook.serial) {
        Some(row) if outbox.waits_first(row.serial) => {
            Ok(outbox.delivered(alloc, row.serial)?.event_count())
        }
        _ => Ok(outbox.event_count()),
    }
}

/// How many events wait once one was posted, the serial behind it, and how many wait once it was delivered.
fn waiting(alloc: Global) -> Result<(u64, Option<u64>, u64), Memory> {
    let Posted { outbox, next } = posted(alloc, &hooked(alloc, &hook(alloc)?)?, &happened(alloc)?)?;
    let after = after_delivery(alloc, &outbox)?;
    Ok((outbox.event_count(), next, after))
}

#[test]
fn an_event_waits_until_it_is_delivered(rt: HostRuntime) {
    assert_eq!(rt; waiting(rt.alloc()).ok(), Some((1, Some(3), 0)));
}
