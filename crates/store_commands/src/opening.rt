//! Outcomes of opening a store, and its counts.
ghost use Rattle.std.specs.Prelude.{◌≡◌};
ghost use Rattle.store_commands.specs.Opening.{line_counts, opening_outcome};

use media_journal::JournalFault;
use store_core::Counts;
use tams_outcomes::{RunOutcome, StoreCounts};

/// The outcome where the store couldn't be opened.
pub fn opening_outcome(fault: JournalFault) -> RunOutcome
    ensures { result ≡ opening_outcome fault }
{
    match fault {
        JournalFault::NotStore => RunOutcome::NotStore,
        JournalFault::Damaged(at) => RunOutcome::Damaged(at),
        JournalFault::OldForm => RunOutcome::OldForm,
        JournalFault::Disk => RunOutcome::DiskFault,
        JournalFault::Memory => RunOutcome::NoMemory,
    }
}

/// The counts of a store as its line has them.
pub fn line_counts(counts: Counts) -> StoreCounts
    ensures { result ≡ line_counts counts }
{
    StoreCounts {
        flows: counts.flows,
        segments: counts.segments,
        objects: counts.objects,
        requests: counts.requests,
        hooks: counts.hooks,
        events: counts.events,
    }
}
