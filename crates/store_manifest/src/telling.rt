//! A peer that is told a playlist.
ghost use Rattle.std.specs.Prelude.{◌≡◌, IfErr, IfOk, true};
ghost use Rattle.segment_pages.specs.Pages.{RefusesFlow};
ghost use Rattle.store_manifest.specs.Telling.{HasSaid, IsPlaylistIn, PlaylistEnds, TellsPeer};

use crate::gathering::manifest_of;
use disk_trait::Text;
use media_rows::BookFault;
use site_edge::{LinkFailed, Site};
use std::alloc::Global;
use store_core::Core;
use tams_outcomes::{PlaylistRefusal, RunOutcome};
use time_range::TimeRange;

/// Says the playlist of a flow's whole objects within a range to the one peer of a site, behind a base of their
/// addresses (RFC 8216). All memory is taken before the peer is waited for.
pub fn tell_playlist<X: Site>(
    alloc: Global,
    core: &Core,
    site: &mut X,
    base: &Text,
    flow: u128,
    range: &TimeRange,
) -> RunOutcome
    ensures ends { PlaylistEnds (record { base = base.now; flow = flow; range = range.now })
        core.now.library (X.device site.old) (X.device site.new) result }

    // No call of the disk is made.
    ensures disk { (X.device site.new).faults ≡ (X.device site.old).faults }
{
    match playlist_of(alloc, core, base, flow, range) {
        Ok((text, objects)) => tell(site, text.bytes(), objects),
        Err(BookFault::Refused(_)) => RunOutcome::NoPlaylist(PlaylistRefusal::NoFlow),
        Err(BookFault::Memory) => RunOutcome::NoMemory,
    }
}

/// The text of the playlist, and how many objects it names.
fn playlist_of(
    alloc: Global,
    core: &Core,
    base: &Text,
    flow: u128,
    range: &TimeRange,
) -> Result<(Text, u64), BookFault>
    ensures playlist { IfOk result (IsPlaylistIn core.now.library
        (record { base = base.now; flow = flow; range = range.now })) }
    ensures refused { IfErr result (RefusesFlow core.now.library flow) }
{
    let manifest = manifest_of(alloc, core, base, flow, range)?;
    let text = manifest.finish(alloc)?;
    Ok((text, manifest.objects()))
}

/// Says a text that names so many objects to the next peer, and ends its connection.
fn tell<X: Site>(site: &mut X, text: &[u8], objects: u64) -> RunOutcome
    ensures { TellsPeer text.now objects (X.device site.old) (X.device site.new) result }
{
    match site.next_peer() {
        Ok(true) => say_and_close(site, text, objects),
        Ok(false) => RunOutcome::NoPlaylist(PlaylistRefusal::NoPeer),
        Err(LinkFailed) => RunOutcome::LinkFault,
    }
}

/// Says a text on the connection that is under way, and ends it.
fn say_and_close<X: Site>(site: &mut X, text: &[u8], objects: u64) -> RunOutcome
    requires under_way { (X.device site.old).link.under_way ≡ true }
    ensures { HasSaid text.now objects (X.device site.old) (X.device site.new) result }
{
    let said = site.say(text);
    site.close_peer();
    match said {
        Ok(()) => RunOutcome::Playlist(objects),
        Err(LinkFailed) => RunOutcome::LinkFault,
    }
}
