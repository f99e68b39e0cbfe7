//! Connections one after another.
ghost use Rattle.std.specs.Prelude.{◌≡◌, ◌≤◌, ◌<◌, ◌+◌, ◌*◌, ◌^◌, [], ℕ, List, Bool, true};
ghost use Rattle.run_history.specs.Sessions.{most_answers};
ghost use Rattle.run_history.specs.Runs.{Beginning};
ghost use Rattle.connection_loop.specs.Turns.{ClockCalls, IsBetween};
ghost use Rattle.connection_loop.specs.Loops.{HasEnded, RunCalls};
ghost use Rattle.connection_loop.specs.Endings.{TellsAll};

use crate::connection::{Next, serve_next};
use crate::{RunTally, Service};
use site_edge::{Clock, Site};
use std::alloc::Global;

/// A run has at most so many connections.
pub const MOST_CONNECTIONS: u64 = 1_000_000_000;

/// How a run ended.
#[derive(Clone, Copy, Debug, PartialEq, Eq)]
pub enum RunEnd {
    /// With as many connections as it was told.
    Complete,
    /// With fewer, since no more came.
    NoMore,
    /// With fewer, since waiting for one failed.
    Unlinked,
    /// With a fault of the disk, in its last connection.
    Stopped,
}

/// Serves so many connections, one after another: after one that ended, whatever ended it but a fault of
/// the disk, the next begins.
pub fn serve<V: Service, X: Site, C: Clock>(
    alloc: Global,
    service: &mut V,
    site: &mut X,
    clock: &mut C,
    tally: &mut RunTally,
    connections: u64,
) -> RunEnd
    requires none { tally.old.answers ≡ 0 }
    requires few { connections ≤ MOST_CONNECTIONS }
    requires device { V.size service.old ≤ (X.device site.old).size }
    ensures calls { RunCalls result (X.device site.old) (X.device site.new) }
    ensures clock { ClockCalls (most_answers * connections) (C.tells clock.old) (C.tells clock.new)
        (C.given clock.old) (C.given clock.new) }
    ensures ended { TellsAll (X.device site.old) (C.tells clock.new) → (b : Beginning V.State)
        → IsBetween (V.machine (V.setting service.old)) b (X.device site.old) (C.given clock.old)
        (V.keeps (V.store service.old) (X.device site.old)) [] tally.old
        → HasEnded (V.machine (V.setting service.old)) b (X.device site.old) (X.device site.new)
        (C.given clock.new) tally.new connections result }
{
    for _ in 0..connections {
        match serve_next(alloc, service, site, clock, tally) {
            Next::NoMore => return RunEnd::NoMore,
            Next::Unlinked => return RunEnd::Unlinked,
            Next::Ended(ending) => {
                if ending.is_stopped() {
                    return RunEnd::Stopped;
                }
            }
        }
    }
    RunEnd::Complete
}
