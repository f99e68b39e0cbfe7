//! What meets the premises of the headline.
ghost use Rattle.std.specs.Prelude.{◌≡◌, ◌≤◌, ◌<◌, [], ℕ, List, true, length};
ghost use Rattle.disk_trait.specs.MemoryDisk.{fresh_disk};
ghost use Rattle.site_edge.specs.MemorySite.{fresh_site, site_device};
ghost use Rattle.store_states.specs.States.{StandsFor, StoreState};
ghost use Rattle.store_commands.specs.Beginning.{BeginsFrom, most_given};

use disk_trait::{MemoryDisk, NumberList, Text};
use site_edge::{MemorySite, PeerList};
use std::alloc::Global;

/// A site in memory over the bytes of a file, as `format` leaves them, say, with these peers to come, whose
/// calls fail for want of memory alone. One `hear` gives at most `piece` bytes. With a clock that tells, as
/// one over a list, and has given few moments so far, it meets the premises of a run over a file that stands
/// for a state. It takes no memory.
pub fn site_over(alloc: Global, bytes: Text, peers: PeerList, piece: usize) -> MemorySite
    requires { 0 < piece }
    ensures site { result ≡ fresh_site (fresh_disk bytes []) peers piece [] }
    ensures premises { (from : StoreState) → StandsFor bytes from
        → (given : List ℕ) → length given ≤ most_given
        → BeginsFrom from (site_device result) true given }
{
    let disk = MemoryDisk::from_bytes(alloc, bytes, NumberList::new(alloc));
    MemorySite::new(alloc, disk, peers, piece, NumberList::new(alloc))
}
