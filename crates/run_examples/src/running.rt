//! Runs over a small store in memory.
ghost use Rattle.std.specs.Prelude.{IfOk, IfSome, All, [], true};
ghost use Rattle.site_edge.specs.Clocks.{IsMoment};
ghost use Rattle.site_edge.specs.MemorySite.{site_device};
ghost use Rattle.store_commands.specs.Beginning.{BeginsFrom};
ghost use Rattle.run_examples.specs.Premises.{small_start};
ghost use Rattle.run_examples.specs.Runs.{IsSmallRun};

use disk_trait::{Memory, MemoryDisk, NumberList, TextList};
use site_edge::{ListClock, MemorySink, MemorySite, PeerList};
use std::alloc::Global;
use store_commands::format;
use tams_outcomes::RunOutcome;

/// The bytes of the store's five blocks.
const SIZE: u64 = 20_480;

/// One call hears so many bytes at most.
const PIECE: usize = 65_536;

/// The site that a run left, and its status.
pub struct SmallRun {
    pub site: MemorySite,
    pub status: u8,
}

/// Runs these words over a small store that is made in memory, with these peers to come and a clock that gives
/// these moments. There is none where there is no memory to make the store.
pub fn run_over_small_store(
    alloc: Global,
    words: &TextList,
    peers: PeerList,
    moments: NumberList,
) -> Result<Option<SmallRun>, Memory>
    requires { All IsMoment moments }
    ensures { IfOk result (λ found. IfSome found
        (λ ran. IsSmallRun words.now ran.site ran.status)) }
{
    let Some(mut site) = small_store(alloc, peers)? else {
        return Ok(None);
    };
    let mut clock = ListClock::new(moments);
    let mut notes = MemorySink::new(alloc, false);
    let status = tams_top::run(alloc, words, &mut site, &mut clock, &mut notes);
    Ok(Some(SmallRun { site, status }))
}

/// The small store in memory, with these peers to come.
fn small_store(alloc: Global, peers: PeerList) -> Result<Option<MemorySite>, Memory>
    ensures { IfOk result (λ found. IfSome found
        (λ site. BeginsFrom small_start (site_device site) true [])) }
{
    let disk = MemoryDisk::new(alloc, SIZE, NumberList::new(alloc))?;
    let mut site = MemorySite::new(alloc, disk, peers, PIECE, NumberList::new(alloc));
    match format(alloc, &mut site, 5, 1, 1) {
        RunOutcome::Formatted { .. } => Ok(Some(site)),
        _ => Ok(None),
    }
}
