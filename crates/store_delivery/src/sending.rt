//! One attempt: an event is sent, and goes where it was accepted.
ghost use Rattle.std.specs.Prelude.{◌≡◌, ◌≤◌, ℕ, true, None, IsFalse, IsTrue, length};
ghost use Rattle.connection_loop.specs.Endings.{TellsAll};
ghost use Rattle.disk_trait.specs.Calls.{IsCounted, SameDevice};
ghost use Rattle.disk_trait.specs.Device.{Dials};
ghost use Rattle.media_rows.specs.Outbox.{waits_first};
ghost use Rattle.media_rows.specs.declared.hook.HookRow.{HookRow};
ghost use Rattle.media_store.specs.Faults.{is_disk, not_disk_fault};
ghost use Rattle.media_store.specs.Stores.{size_of};
ghost use Rattle.run_history.specs.Runs.{Beginning};
ghost use Rattle.store_states.specs.States.{StoreState};
ghost use Rattle.store_delivery.specs.Attempts.{accepts};
ghost use Rattle.store_delivery.specs.Within.Due.{IsHookDue, IsSending};
ghost use Rattle.store_delivery.specs.Within.Underway.{HasSent, IsUnderway, LeavesFewer, LeavesStore, Progress, most_given};

use crate::due::{HookDue, Sending};
use hook_delivery::{Answered, exchange};
use media_store::{Store, StoreFault};
use site_edge::{Caller, Clock};
use std::alloc::Global;

/// What became of an event that was sent.
#[derive(Clone, Copy, Debug, PartialEq, Eq)]
pub(crate) enum Sent {
    /// It was accepted, and has gone.
    Gone,
    /// It wasn't accepted, and waits.
    Kept,
    /// It was accepted, and waits, since the change by which it would go doesn't fit the journal.
    Full,
}

/// Sends an event, the first that waits for its hook, and where it was accepted lets it go.
pub(crate) fn send<X: Caller, C: Clock>(
    alloc: Global,
    store: &mut Store,
    site: &mut X,
    clock: &mut C,
    sending: &Sending,
) -> Result<Sent, StoreFault>
    requires unspent { IsFalse store.old.spent }
    requires idle { store.old.put ≡ None }
    requires device { size_of store.old.kept ≤ (X.device site.old).size }
    requires first { IsTrue (waits_first sending.now.event store.old.kept.library.outbox.events) }
    ensures same { SameDevice (X.device site.old) (X.device site.new) }
    ensures disk { IsCounted (not_disk_fault result) (X.device site.old).faults (X.device site.new).faults }
    ensures peers { (X.device site.new).link.peer_faults ≡ (X.device site.old).link.peer_faults }
    ensures under_way { IsFalse (X.device site.old).link.under_way → IsFalse (X.device site.new).link.under_way }
    ensures store { LeavesStore sending.now.event store.old store.new result }
    ensures sent { TellsAll (X.device site.old) (C.tells clock.old)
        → (b : Beginning StoreState) → (dials : Dials) → (after : ℕ) → (h : Progress)
        → (hook : HookRow) → IsSending store.old.kept.library after hook sending.now
        → IsUnderway b dials (X.device site.old) (C.given clock.old) store.old after h
        → length (C.given clock.old) ≤ most_given
        → HasSent b dials (X.device site.new) (C.tells clock.new) (C.given clock.new) store.new after h
        hook.serial result }
{
    store.keeps_good();
    if !accepts(exchange(alloc, site, &sending.out)?) {
        return Ok(Sent::Kept);
    }
    if store.mark_delivered(alloc, site, sending.event, clock.now())? {
        return Ok(Sent::Gone);
    }
    Ok(Sent::Full)
}

/// Sends what is due to a hook, if something is.
pub(crate) fn send_due<X: Caller, C: Clock>(
    alloc: Global,
    store: &mut Store,
    site: &mut X,
    clock: &mut C,
    due: &HookDue,
) -> Result<Sent, StoreFault>
    requires unspent { IsFalse store.old.spent }
    requires idle { store.old.put ≡ None }
    requires device { size_of store.old.kept ≤ (X.device site.old).size }
    requires due { (after : ℕ) × IsHookDue store.old.kept.library after due.now }
    ensures same { SameDevice (X.device site.old) (X.device site.new) }
    ensures disk { IsCounted (not_disk_fault result) (X.device site.old).faults (X.device site.new).faults }
    ensures peers { (X.device site.new).link.peer_faults ≡ (X.device site.old).link.peer_faults }
    ensures under_way { IsFalse (X.device site.old).link.under_way → IsFalse (X.device site.new).link.under_way }
    ensures store { LeavesFewer store.old store.new result }
    ensures sent { TellsAll (X.device site.old) (C.tells clock.old)
        → (b : Beginning StoreState) → (dials : Dials) → (after : ℕ) → (h : Progress)
        → IsHookDue store.old.kept.library after due.now
        → IsUnderway b dials (X.device site.old) (C.given clock.old) store.old after h
        → length (C.given clock.old) ≤ most_given
        → HasSent b dials (X.device site.new) (C.tells clock.new) (C.given clock.new) store.new after h
        due.now.hook result }
{
    store.keeps_good();
    match &due.sending {
        None => Ok(Sent::Kept),
        Some(sending) => send(alloc, store, site, clock, sending),
    }
}

/// Whether an answer accepts the event.
fn accepts(answer: Answered) -> bool
    ensures { result ≡ accepts answer }
{
    matches!(answer, Answered::Accepted)
}
