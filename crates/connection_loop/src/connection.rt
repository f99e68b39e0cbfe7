//! One connection, from its beginning to its end.
ghost use Rattle.std.specs.Prelude.{◌≡◌, ◌≤◌, ◌<◌, ◌+◌, ◌^◌, [], ℕ, List, Bool, true, Some};
ghost use Rattle.run_history.specs.Sessions.{Session, most_answers};
ghost use Rattle.run_history.specs.Runs.{Beginning};
ghost use Rattle.run_history.specs.Serving.{Going};
ghost use Rattle.connection_loop.specs.Turns.{ClockCalls, EndsAs, IsBetween, SiteCalls, held_with};
ghost use Rattle.connection_loop.specs.Loops.{NextCalls, NextLeads};
ghost use Rattle.connection_loop.specs.Endings.{TellsAll};

use crate::{ConnectionEnd, MOST_ANSWERS, RunTally, Service};
use site_edge::{Clock, LinkFailed, Site};
use std::alloc::Global;

/// What came of waiting for the next connection.
#[derive(Clone, Copy, Debug, PartialEq, Eq)]
pub enum Next {
    /// No more connections will come.
    NoMore,
    /// Waiting for one failed.
    Unlinked,
    /// One came, was served and has ended.
    Ended(ConnectionEnd),
}

/// Serves the connection that is under way to its end.
fn serve_connection<V: Service, X: Site, C: Clock>(
    alloc: Global,
    service: &mut V,
    site: &mut X,
    clock: &mut C,
    tally: &mut RunTally,
) -> ConnectionEnd
    requires ready { V.ready service.old }
    requires none { V.taken service.old ≡ 0 }
    requires turns { V.turns service.old ≡ 0 }
    requires room { tally.old.answers + MOST_ANSWERS < 2 ^ 60 }
    requires device { V.size service.old ≤ (X.device site.old).size }
    requires under_way { (X.device site.old).link.under_way ≡ true }
    ensures calls { SiteCalls (Some result) (X.device site.old) (X.device site.new) }
    ensures size { V.size service.new ≤ V.size service.old }
    ensures setting { V.setting service.new ≡ V.setting service.old }
    ensures clock { ClockCalls most_answers (C.tells clock.old) (C.tells clock.new)
        (C.given clock.old) (C.given clock.new) }
    ensures answers { tally.new.answers ≤ tally.old.answers + MOST_ANSWERS }
    ensures served { TellsAll (X.device site.old) (C.tells clock.new) → (b : Beginning V.State)
        → (finished : List (Session V.Request)) (s : V.State)
        → V.keeps (V.store service.old) (X.device site.old) s
        → Going (V.machine (V.setting service.old)) b (X.device site.old) (C.given clock.old)
        (held_with s (V.unread service.old) (V.taken service.old)) finished [] tally.old
        → EndsAs (V.machine (V.setting service.old)) b (X.device site.new) (C.given clock.new)
        (V.keeps (V.store service.new) (X.device site.new)) finished tally.new result }
{
    for _ in 0..u64::MAX {
        if let Some(ending) = service.take_turn(alloc, site, clock, tally) {
            return ending;
        }
    }
    unreachable!()
}

/// Waits for the next connection, serves it to its end and closes it.
pub fn serve_next<V: Service, X: Site, C: Clock>(
    alloc: Global,
    service: &mut V,
    site: &mut X,
    clock: &mut C,
    tally: &mut RunTally,
) -> Next
    requires room { tally.old.answers + MOST_ANSWERS < 2 ^ 60 }
    requires device { V.size service.old ≤ (X.device site.old).size }
    ensures calls { NextCalls result (X.device site.old) (X.device site.new) }
    ensures size { V.size service.new ≤ V.size service.old }
    ensures setting { V.setting service.new ≡ V.setting service.old }
    ensures clock { ClockCalls most_answers (C.tells clock.old) (C.tells clock.new)
        (C.given clock.old) (C.given clock.new) }
    ensures answers { tally.new.answers ≤ tally.old.answers + MOST_ANSWERS }
    ensures leads { TellsAll (X.device site.old) (C.tells clock.new) → (b : Beginning V.State)
        → (sessions : List (Session V.Request))
        → IsBetween (V.machine (V.setting service.old)) b (X.device site.old) (C.given clock.old)
        (V.keeps (V.store service.old) (X.device site.old)) sessions tally.old
        → NextLeads (V.machine (V.setting service.old)) b (X.device site.old).link.closed
        (X.device site.new) (C.given clock.new)
        (V.keeps (V.store service.new) (X.device site.new)) sessions tally.new result }
{
    match site.next_peer() {
        Ok(true) => {
            service.begin();
            let ending = serve_connection(alloc, service, site, clock, tally);
            site.close_peer();
            Next::Ended(ending)
        }
        Ok(false) => Next::NoMore,
        Err(LinkFailed) => Next::Unlinked,
    }
}
