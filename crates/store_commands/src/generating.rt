//! The command that generates its requests: one connection over a store in memory, at moment 0 throughout.
ghost use Rattle.std.specs.Prelude.{◌≡◌, ◌≤◌, IfOk, IfSome, IsTrue};
ghost use Rattle.generated_workload.specs.StoredBytes.{stored_total};
ghost use Rattle.generated_workload.specs.Workload.{workload_requests};
ghost use Rattle.site_edge.specs.MemorySite.{site_device};
ghost use Rattle.store_states.specs.States.{StandsFor, StoreState};
ghost use Rattle.store_commands.specs.Generating.{IsWorkloadRun};
ghost use Rattle.store_commands.specs.WorkloadEnds.{WorkloadCause, WorkloadEnds};
ghost use Rattle.store_commands.specs.Standing.{HasAnswered, HeardToItsEnd, IsMadeInMemory, kept_of_library};

use crate::formatting::format;
use crate::opening::line_counts;
use crate::serving::replay;
use crate::still_clock::StillClock;
use disk_trait::{FORM_IN_USE, Memory, MemoryDisk, NumberList, Text, same_bytes};
use generated_workload::{
    MOST_COUNT, MOST_NUMBER, stored_bytes, stored_bytes_are_the_objects, workload_bytes,
};
use media_journal::BLOCK;
use site_edge::{MemorySite, PeerList};
use snapshot_rows::{read_rows, texts_have_one_meaning};
use std::alloc::Global;
use store_core::Core;
use store_opening::{OpenedStore, kept_images_stand, open_store};
use store_states::an_image_stands_for_one_state;
use tams_outcomes::{RunOutcome, StoreCounts, WorkloadRun};

/// The blocks of the store, and of each of its halves.
const BLOCKS: u64 = 2_048;

const HALF: u64 = 256;

/// The store's id: 00000000-0000-4000-8000-000000000001.
const STORE_ID: u128 = 0x4000_8000_0000_0000_0001;

/// One call hears so many bytes at most.
const PIECE: usize = 65_536;

/// How many requests were answered, and the changes.
#[derive(Clone, Copy)]
struct Answered {
    requests: u64,
    changes: u64,
}

/// How much a store keeps, and the bytes of its objects.
#[derive(Clone, Copy)]
struct StoreSizes {
    counts: StoreCounts,
    bytes: u64,
}

/// Serves one connection with the requests that are generated from two numbers, over a store in memory.
pub fn workload(alloc: Global, number: u64, count: u64) -> RunOutcome
    requires number { number ≤ MOST_NUMBER }
    requires count { count ≤ MOST_COUNT }
    ensures { WorkloadEnds number count result }
{
    run_generated(alloc, number, count)
}

/// The same, with what the run answers.
fn run_generated(alloc: Global, number: u64, count: u64) -> RunOutcome
    requires number { number ≤ MOST_NUMBER }
    requires count { count ≤ MOST_COUNT }
    ensures { WorkloadCause number count result }
{
    match run_requests(alloc, number, count) {
        Ok(Some(run)) => RunOutcome::Generated(run),
        Ok(None) | Err(Memory) => RunOutcome::NoMemory,
    }
}

/// The numbers of that run. Nothing in memory fails but for want of memory, which `None` is too.
fn run_requests(alloc: Global, number: u64, count: u64) -> Result<Option<WorkloadRun>, Memory>
    requires number { number ≤ MOST_NUMBER }
    requires count { count ≤ MOST_COUNT }
    ensures { IfOk result (λ found. IfSome found (IsWorkloadRun number count)) }
{
    let requests = workload_bytes(alloc, number, count)?;
    let Some(mut site) = empty_store(alloc, &requests)? else {
        return Ok(None);
    };
    let run = run_over(alloc, &mut site, &requests, number, count);
    let_go(site);
    run
}

/// Lets a site go.
fn let_go(site: MemorySite) {}

/// The numbers of a run over this site, whose peer sends these requests.
fn run_over(
    alloc: Global,
    site: &mut MemorySite,
    requests: &Text,
    number: u64,
    count: u64,
) -> Result<Option<WorkloadRun>, Memory>
    requires made { IsMadeInMemory (site_device site.old) }
    requires requests { requests.now ≡ workload_requests number count }
    ensures { IfOk result (λ found. IfSome found (IsWorkloadRun number count)) }
{
    let Some(answered) = answer_requests(alloc, site, requests)? else {
        return Ok(None);
    };
    let Some(kept) = kept_in(alloc, site) else {
        return Ok(None);
    };
    Ok(Some(WorkloadRun {
        number,
        count,
        requests: answered.requests,
        changes: answered.changes,
        kept: kept.counts,
        bytes: kept.bytes,
    }))
}

/// An empty store in memory, and a peer to come that sends these bytes.
fn empty_store(alloc: Global, requests: &Text) -> Result<Option<MemorySite>, Memory>
    ensures { IfOk result (λ found. IfSome found (λ site. IsMadeInMemory (site_device site))) }
{
    let mut peers = PeerList::new(alloc);
    peers.push(requests.bytes())?;
    let disk = MemoryDisk::new(alloc, BLOCK * BLOCKS, NumberList::new(alloc))?;
    let mut site = MemorySite::new(alloc, disk, peers, PIECE, NumberList::new(alloc));
    match format(alloc, &mut site, BLOCKS, HALF, STORE_ID) {
        RunOutcome::Formatted { .. } => Ok(Some(site)),
        _ => Ok(None),
    }
}

/// Serves the peer, whose bytes these are.
fn answer_requests(
    alloc: Global,
    site: &mut MemorySite,
    requests: &Text,
) -> Result<Option<Answered>, Memory>
    requires { IsMadeInMemory (site_device site.old) }
    ensures { IfOk result (λ found. IfSome found (HasAnswered requests.now (site_device site.new))) }
{
    let base = Text::from_bytes(alloc, b"http://s")?;
    let mut clock = StillClock::new();
    let outcome = replay(alloc, site, &mut clock, base);
    let RunOutcome::Served {
        requests: answers,
        changes,
        ..
    } = outcome
    else {
        return Ok(None);
    };
    if !has_heard(site, requests.bytes()) {
        return Ok(None);
    }
    Ok(Some(Answered {
        requests: answers,
        changes,
    }))
}

/// Whether one peer came, and these bytes of it were heard to their end.
fn has_heard(site: &MemorySite, bytes: &[u8]) -> bool
    ensures { IsTrue result → HeardToItsEnd bytes.now (site_device site.now).link.connections }
{
    if site.connections() != 1 {
        return false;
    }
    site.has_ended(0) && same_bytes(site.heard(0), bytes)
}

/// What the store of a site keeps.
fn kept_in(alloc: Global, site: &mut MemorySite) -> Option<StoreSizes>
    ensures { IfSome result (λ kept. (from : StoreState)
        → StandsFor (site_device site.old).seen from → kept ≡ kept_of_library from.archive.library) }
{
    kept_images_stand();
    an_image_stands_for_one_state();
    match open_store(alloc, site) {
        Ok(opened) => kept_by(alloc, opened),
        Err(_) => None,
    }
}

/// What a store keeps, which is closed.
fn kept_by(alloc: Global, opened: OpenedStore) -> Option<StoreSizes>
    ensures { IfSome result (λ kept. kept ≡ kept_of_library opened.core.library) }
{
    let counts = line_counts(opened.core.counts());
    let bytes = bytes_in(alloc, &opened.core);
    opened.close();
    Some(StoreSizes {
        counts,
        bytes: bytes?,
    })
}

/// The bytes of all stored objects of a library, by its rows.
fn bytes_in(alloc: Global, core: &Core) -> Option<u64>
    ensures { IfSome result (λ bytes. bytes ≡ stored_total core.now.library.objects) }
{
    texts_have_one_meaning();
    stored_bytes_are_the_objects();
    let text = core.rows(alloc).ok()?;
    let rows = read_rows(alloc, text.bytes(), FORM_IN_USE).ok()?;
    stored_bytes(&rows)
}
