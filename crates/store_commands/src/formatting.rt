//! The command that makes a store.
ghost use Rattle.std.specs.Prelude.{◌≡◌, ◌≤◌};
ghost use Rattle.disk_trait.specs.Calls.{IsCounted};
ghost use Rattle.tams_outcomes.specs.Statuses.{no_disk_fault};
ghost use Rattle.store_commands.specs.FormatEnds.{FormatCause, FormatEnds, FormatMoments};
ghost use Rattle.store_commands.specs.Formatting.{empty_rows};

use media_journal::{FormatFault, MOST_BLOCKS, MOST_HALF, format_device};
use site_edge::Site;
use std::alloc::Global;
use tams_outcomes::RunOutcome;

/// Makes an empty store of the site's device, of so many blocks, of which each half has so many.
pub fn format<X: Site>(alloc: Global, site: &mut X, blocks: u64, half: u64, id: u128) -> RunOutcome
    requires some_half { 1 ≤ half }
    requires half { half ≤ MOST_HALF }
    requires blocks { blocks ≤ MOST_BLOCKS }
    ensures disk { IsCounted (no_disk_fault result) (X.device site.old).faults
        (X.device site.new).faults }
    ensures ends { FormatEnds record { blocks = blocks; half = half; id = id }
        (X.device site.old) (X.device site.new) result }
{
    make_store(alloc, site, blocks, half, id)
}

/// The same, with what the journal answers.
fn make_store<X: Site>(alloc: Global, site: &mut X, blocks: u64, half: u64, id: u128) -> RunOutcome
    requires some_half { 1 ≤ half }
    requires half { half ≤ MOST_HALF }
    requires blocks { blocks ≤ MOST_BLOCKS }
    ensures disk { IsCounted (no_disk_fault result) (X.device site.old).faults
        (X.device site.new).faults }
    ensures nobody { (X.device site.new).link ≡ (X.device site.old).link }
    ensures ends { FormatCause (X.device site.old) (X.device site.new)
        record { blocks = blocks; half = half; id = id } result }
    ensures moments { FormatMoments (X.device site.old) (X.device site.new)
        record { blocks = blocks; half = half; id = id } result }
{
    match format_device(alloc, site, blocks, half, id, &empty_rows()) {
        Ok(()) => RunOutcome::Formatted {
            blocks,
            half,
            media: blocks.saturating_sub(2 * half + 2),
        },
        Err(FormatFault::AlreadyStore) => RunOutcome::AlreadyStore,
        Err(FormatFault::TooSmall) => RunOutcome::TooSmall,
        Err(FormatFault::Disk) => RunOutcome::DiskFault,
        Err(FormatFault::Memory) => RunOutcome::NoMemory,
    }
}

/// The rows of the empty library: one row with the next serial, which is 1.
fn empty_rows() -> [u8; 13]
    ensures { result ≡ empty_rows }
{
    [8, 0, 0, 0, 8, 0, 0, 0, 0, 0, 0, 0, 1]
}
