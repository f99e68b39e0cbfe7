//! The commands that serve: `replay` has one connection, and `serve` has connections one after another.
ghost use Rattle.std.specs.Prelude.{◌≡◌, ◌≤◌, ℕ, IsTrue, true};
ghost use Rattle.std.specs.Str.{is_utf8};
ghost use Rattle.disk_trait.specs.Calls.{IsCounted};
ghost use Rattle.store_commands.specs.Histories.{replay_outcome, serve_outcome, served_with};
ghost use Rattle.store_commands.specs.ServeEnds.{ReplayEnds, ServeEnds};
ghost use Rattle.store_commands.specs.Running.{ReplayRun, ServeRun};
ghost use Rattle.tams_outcomes.specs.Statuses.{no_disk_fault};

use crate::opening::opening_outcome;
use connection_loop::{ConnectionEnd, MOST_CONNECTIONS, Next, RunEnd, RunTally, serve_next};
use disk_trait::Text;
use site_edge::{Clock, Site};
use std::alloc::Global;
use store_opening::damaged_images_stand_for_none;
use tams_histories::runs_keep_objects;
use tams_outcomes::RunOutcome;
use tams_service::TamsService;

/// Opens the store of the site's device, with this base of its addresses, and serves one connection, if a peer
/// comes.
pub fn replay<X: Site, C: Clock>(
    alloc: Global,
    site: &mut X,
    clock: &mut C,
    base: Text,
) -> RunOutcome
    requires base { IsTrue (is_utf8 base) }
    ensures disk { IsCounted (no_disk_fault result) (X.device site.old).faults
        (X.device site.new).faults }
    ensures ends { ReplayEnds base (X.device site.old) (X.device site.new) (C.tells clock.old)
        (C.given clock.old) (C.given clock.new) result }
{
    serve_peer(alloc, site, clock, base)
}

/// The same, with what opening and the connection answer.
fn serve_peer<X: Site, C: Clock>(
    alloc: Global,
    site: &mut X,
    clock: &mut C,
    base: Text,
) -> RunOutcome
    requires base { IsTrue (is_utf8 base) }
    ensures disk { IsCounted (no_disk_fault result) (X.device site.old).faults
        (X.device site.new).faults }
    ensures ends { ReplayRun base (X.device site.old) (X.device site.new) (C.tells clock.old)
        (C.given clock.old) (C.given clock.new) result }
{
    damaged_images_stand_for_none();
    runs_keep_objects();
    let mut service = match TamsService::open(alloc, site, base) {
        Ok(service) => service,
        Err(fault) => return opening_outcome(fault),
    };
    let mut tally = RunTally::new();
    let next = serve_next(alloc, &mut service, site, clock, &mut tally);
    service.close();
    match next {
        Next::Ended(ending) => replay_outcome(ending, &tally),
        Next::NoMore => served_with(&tally),
        Next::Unlinked => RunOutcome::LinkFault,
    }
}

/// Opens the store of the site's device, with this base, and serves so many connections.
pub fn serve<X: Site, C: Clock>(
    alloc: Global,
    site: &mut X,
    clock: &mut C,
    base: Text,
    connections: u64,
) -> RunOutcome
    requires base { IsTrue (is_utf8 base) }
    requires few { connections ≤ MOST_CONNECTIONS }
    ensures disk { IsCounted (no_disk_fault result) (X.device site.old).faults
        (X.device site.new).faults }
    ensures ends { ServeEnds base (X.device site.old) (X.device site.new) (C.tells clock.old)
        (C.given clock.old) (C.given clock.new) connections result }
{
    serve_peers(alloc, site, clock, base, connections)
}

/// The same, with what opening and the connections answer.
fn serve_peers<X: Site, C: Clock>(
    alloc: Global,
    site: &mut X,
    clock: &mut C,
    base: Text,
    connections: u64,
) -> RunOutcome
    requires base { IsTrue (is_utf8 base) }
    requires few { connections ≤ MOST_CONNECTIONS }
    ensures disk { IsCounted (no_disk_fault result) (X.device site.old).faults
        (X.device site.new).faults }
    ensures ends { ServeRun base (X.device site.old) (X.device site.new) (C.tells clock.old)
        (C.given clock.old) (C.given clock.new) connections result }
{
    damaged_images_stand_for_none();
    runs_keep_objects();
    let mut service = match TamsService::open(alloc, site, base) {
        Ok(service) => service,
        Err(fault) => return opening_outcome(fault),
    };
    let mut tally = RunTally::new();
    let end = connection_loop::serve(alloc, &mut service, site, clock, &mut tally, connections);
    service.close();
    serve_outcome(end, &tally)
}

/// The outcome of one connection by how it ended. A turn that was skipped for want of memory stands before
/// what its link or its input gives.
fn replay_outcome(ending: ConnectionEnd, tally: &RunTally) -> RunOutcome
    ensures { result ≡ replay_outcome ending tally.now }
{
    match ending {
        ConnectionEnd::Stopped => RunOutcome::DiskFault,
        ConnectionEnd::Starved => RunOutcome::NoMemory,
        _ if tally.skipped() > 0 => RunOutcome::NoMemory,
        ConnectionEnd::Unlinked => RunOutcome::LinkFault,
        ConnectionEnd::Cut => RunOutcome::Cut,
        ConnectionEnd::Complete => served_with(tally),
    }
}

/// The outcome of connections one after another.
fn serve_outcome(end: RunEnd, tally: &RunTally) -> RunOutcome
    ensures { result ≡ serve_outcome end tally.now }
{
    match end {
        RunEnd::Complete | RunEnd::NoMore => served_with(tally),
        RunEnd::Unlinked => RunOutcome::LinkFault,
        RunEnd::Stopped => RunOutcome::DiskFault,
    }
}

/// The outcome with the numbers of a run.
fn served_with(tally: &RunTally) -> RunOutcome
    ensures { result ≡ served_with tally.now }
{
    RunOutcome::Served {
        requests: tally.answers(),
        changes: tally.changes(),
        skipped: tally.skipped(),
    }
}
