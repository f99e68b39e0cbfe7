//! The delivery of all waiting events.
ghost use Rattle.std.specs.Prelude.{◌≡◌, ◌≤◌, ℕ, None, IsFalse, length};
ghost use Rattle.connection_loop.specs.Endings.{TellsAll};
ghost use Rattle.disk_trait.specs.Calls.{IsCounted};
ghost use Rattle.media_store.specs.Faults.{not_disk_fault};
ghost use Rattle.media_store.specs.Stores.{size_of};
ghost use Rattle.run_history.specs.Runs.{Beginning};
ghost use Rattle.store_states.specs.States.{StoreState};
ghost use Rattle.store_delivery.specs.Deliveries.{HasDelivered};
ghost use Rattle.store_delivery.specs.Within.Underway.{Begins, most_begun};

use crate::due::next_due;
use crate::sending::{Sent, send_due};
use media_store::{Store, StoreFault};
use site_edge::{Caller, Clock};
use std::alloc::Global;

/// What a delivery came to: how many events went, and whether the change by which the next one would go has no room.
#[derive(Clone, Copy, Debug, PartialEq, Eq)]
pub struct Deliveries {
    pub delivered: u64,
    pub full: bool,
}

/// Sends the waiting events of each hook, hooks by rising serial, in order until one isn't accepted. An event that was
/// accepted, with a status from 200 to 299, goes from the store before the next one is sent. An event whose hook isn't on
/// this machine isn't sent.
pub fn deliver_events<X: Caller, C: Clock>(
    alloc: Global,
    store: &mut Store,
    site: &mut X,
    clock: &mut C,
) -> Result<Deliveries, StoreFault>
    requires unspent { IsFalse store.old.spent }
    requires idle { store.old.put ≡ None }
    requires device { size_of store.old.kept ≤ (X.device site.old).size }
    ensures disk { IsCounted (not_disk_fault result) (X.device site.old).faults (X.device site.new).faults }
    ensures peers { (X.device site.new).link.peer_faults ≡ (X.device site.old).link.peer_faults }
    ensures under_way { IsFalse (X.device site.old).link.under_way → IsFalse (X.device site.new).link.under_way }

    // What was sent, accepted and removed, over a device of which nothing is pending.
    ensures delivered { TellsAll (X.device site.old) (C.tells clock.old)
        → length (C.given clock.old) ≤ most_begun → (b : Beginning StoreState)
        → Begins b (X.device site.old) (C.given clock.old) store.old
        → HasDelivered b (X.device site.old).link.dials (X.device site.new) (C.given clock.new) result }
{
    store.keeps_good();
    let mut delivered = 0;
    let mut after = 0;
    loop {
        let due = match next_due(alloc, store, after)? {
            Some(due) => due,
            None => {
                return Ok(Deliveries {
                    delivered,
                    full: false,
                });
            }
        };
        match send_due(alloc, store, site, clock, &due)? {
            Sent::Gone => delivered += 1,
            Sent::Kept => after = due.hook,
            Sent::Full => {
                return Ok(Deliveries {
                    delivered,
                    full: true,
                });
            }
        }
    }
}
