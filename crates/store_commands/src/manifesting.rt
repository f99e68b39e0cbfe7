//! The command that says a playlist: of a flow's whole objects within a range, to its one peer.
ghost use Rattle.std.specs.Prelude.{◌≡◌};
ghost use Rattle.disk_trait.specs.Calls.{IsCounted};
ghost use Rattle.tams_outcomes.specs.Statuses.{no_disk_fault};
ghost use Rattle.store_commands.specs.ManifestEnds.{ManifestEnds, ManifestRun};

use crate::opening::opening_outcome;
use disk_trait::Text;
use media_store::Store;
use site_edge::Site;
use std::alloc::Global;
use store_manifest::tell_playlist;
use store_opening::kept_images_stand;
use store_states::an_image_stands_for_one_state;
use tams_outcomes::RunOutcome;
use time_range::TimeRange;

/// Opens the store of a site's device, and says the playlist of a flow's whole objects within a range to the one peer of
/// the site, behind a base of their addresses (RFC 8216). It writes nothing.
pub fn manifest<X: Site>(
    alloc: Global,
    site: &mut X,
    base: &Text,
    flow: u128,
    range: &TimeRange,
) -> RunOutcome
    ensures disk { IsCounted (no_disk_fault result) (X.device site.old).faults
        (X.device site.new).faults }
    ensures ends { ManifestEnds (record { base = base.now; flow = flow; range = range.now })
        (X.device site.old) (X.device site.new) result }
{
    open_and_tell(alloc, site, base, flow, range)
}

/// The same, with what opening and the saying answer.
fn open_and_tell<X: Site>(
    alloc: Global,
    site: &mut X,
    base: &Text,
    flow: u128,
    range: &TimeRange,
) -> RunOutcome
    ensures disk { IsCounted (no_disk_fault result) (X.device site.old).faults
        (X.device site.new).faults }
    ensures ends { ManifestRun (record { base = base.now; flow = flow; range = range.now })
        (X.device site.old) (X.device site.new) result }
{
    kept_images_stand();
    an_image_stands_for_one_state();
    match Store::open(alloc, site) {
        Ok(store) => {
            let outcome = tell_playlist(alloc, store.core(), site, base, flow, range);
            store.close();
            outcome
        }
        Err(fault) => opening_outcome(fault),
    }
}
