//! The top call.
ghost use Rattle.tams_top.specs.Ends.{EndsByWords};
ghost use Rattle.tams_top.specs.Within.{EndsWithCause};

use disk_trait::{Memory, TextList};
use site_edge::{Caller, Clock, Sink};
use std::alloc::Global;
use store_commands::{check, deliver, format, manifest, migrate, replay, serve, work, workload};
use tams_outcomes::RunOutcome;
use tams_words::{Invocation, read_words};

/// Does what the words ask for on this site, puts a line about it into the notes, and answers the status. It ends
/// as the command does that its words spell, by the record of that command's ends, or as words that are none.
/// A fault of the notes changes no status.
pub fn run<X: Caller, C: Clock, N: Sink>(
    alloc: Global,
    words: &TextList,
    site: &mut X,
    clock: &mut C,
    notes: &mut N,
) -> u8
    ensures { EndsByWords words.now record {
      old = X.device site.old;
      new = X.device site.new;
      clock = C.tells clock.old;
      begun = C.given clock.old;
      given = C.given clock.new;
      notes = record {
        tells = N.tells notes.old;
        faults = N.faults notes.old;
        faults_after = N.faults notes.new;
        taken = N.taken notes.old;
        taken_after = N.taken notes.new;
      };
    } result }
{
    let outcome = outcome_of(alloc, words, site, clock);
    let _ = outcome.put_line(notes);
    outcome.status().number()
}

/// Does what the words ask for.
fn outcome_of<X: Caller, C: Clock>(
    alloc: Global,
    words: &TextList,
    site: &mut X,
    clock: &mut C,
) -> RunOutcome
    ensures { EndsWithCause words.now (X.device site.old) (X.device site.new) (C.tells clock.old)
        (C.given clock.old) (C.given clock.new) result }
{
    match read_words(alloc, words) {
        Err(Memory) => RunOutcome::NoMemory,
        Ok(None) => RunOutcome::BadWords,
        Ok(
            Some(
                Invocation::Format {
                    path: _,
                    blocks,
                    half,
                    id,
                },
            ),
        ) => format(alloc, site, blocks, half, id),
        Ok(Some(Invocation::Check { path: _ })) => check(alloc, site),
        Ok(Some(Invocation::Migrate { path: _ })) => migrate(alloc, site),
        Ok(Some(Invocation::Work { path: _ })) => work(alloc, site, clock),
        Ok(Some(Invocation::Deliver { path: _ })) => deliver(alloc, site, clock),
        Ok(Some(Invocation::Replay { path: _, base })) => replay(alloc, site, clock, base),
        Ok(
            Some(
                Invocation::Serve {
                    path: _,
                    port: _,
                    base,
                    connections,
                },
            ),
        ) => serve(alloc, site, clock, base, connections),
        Ok(
            Some(
                Invocation::Manifest {
                    path: _,
                    base,
                    flow,
                    range,
                },
            ),
        ) => manifest(alloc, site, &base, flow, &range),
        Ok(Some(Invocation::Workload { number, count })) => workload(alloc, number, count),
    }
}
