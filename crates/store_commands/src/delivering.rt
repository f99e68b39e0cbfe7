//! The command that delivers: it sends the waiting events of a store to their webhooks.
ghost use Rattle.std.specs.Prelude.{◌≡◌};
ghost use Rattle.disk_trait.specs.Calls.{IsCounted};
ghost use Rattle.tams_outcomes.specs.Statuses.{no_disk_fault};
ghost use Rattle.store_commands.specs.DeliverEnds.{DeliverEnds, DeliverRun};
ghost use Rattle.store_commands.specs.Delivering.{deliver_outcome};

use crate::opening::opening_outcome;
use media_store::{Store, StoreFault};
use site_edge::{Caller, Clock};
use std::alloc::Global;
use store_delivery::{Deliveries, deliver_events};
use store_opening::{damaged_images_stand_for_none, kept_images_stand};
use store_states::an_image_stands_for_one_state;
use tams_outcomes::RunOutcome;

/// Opens the store of a site's device, and sends its waiting events to their webhooks, hooks by rising serial, each
/// hook's in order until one isn't accepted. An event that was accepted goes from the store before the next one is
/// sent. A connection that fails ends no run.
pub fn deliver<X: Caller, C: Clock>(alloc: Global, site: &mut X, clock: &mut C) -> RunOutcome
    ensures disk { IsCounted (no_disk_fault result) (X.device site.old).faults
        (X.device site.new).faults }
    ensures ends { DeliverEnds (X.device site.old) (X.device site.new) (C.tells clock.old)
        (C.given clock.old) (C.given clock.new) result }
{
    open_and_deliver(alloc, site, clock)
}

/// The same, with what opening and the delivery answer.
fn open_and_deliver<X: Caller, C: Clock>(alloc: Global, site: &mut X, clock: &mut C) -> RunOutcome
    ensures disk { IsCounted (no_disk_fault result) (X.device site.old).faults
        (X.device site.new).faults }
    ensures ends { DeliverRun (X.device site.old) (X.device site.new) (C.tells clock.old)
        (C.given clock.old) (C.given clock.new) result }
{
    damaged_images_stand_for_none();
    kept_images_stand();
    an_image_stands_for_one_state();
    match Store::open(alloc, site) {
        Ok(mut store) => {
            let waiting = store.counts().events;
            let end = deliver_events(alloc, &mut store, site, clock);
            store.close();
            deliver_outcome(waiting, end)
        }
        Err(fault) => opening_outcome(fault),
    }
}

/// The outcome of a delivery by how it ended, where so many events waited.
fn deliver_outcome(waiting: u64, end: Result<Deliveries, StoreFault>) -> RunOutcome
    ensures { result ≡ deliver_outcome waiting end }
{
    match end {
        Ok(Deliveries { delivered, full }) => RunOutcome::Delivered {
            delivered,
            waiting,
            full,
        },
        Err(StoreFault::Disk) => RunOutcome::DiskFault,
        Err(StoreFault::Memory) => RunOutcome::NoMemory,
    }
}
