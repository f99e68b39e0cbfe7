//! Runs of the program over a site in memory, and what they are compared with.
use case_files::{Ends, Fault, Given, PeerAnswer, Problem};
use disk_trait::{MemoryDisk, NumberList, Text, TextList, same_bytes};
use site_edge::{LAST_MOMENT, ListClock, MemorySink, MemorySite, PeerList};
use std::alloc::Global;

/// How a run ended, what it said to each peer, and the site that it left.
#[derive(Drop)]
pub(crate) struct Ran {
    pub(crate) status: u8,
    pub(crate) notes: Text,
    pub(crate) told: TextList,
    pub(crate) site: MemorySite,
}

/// The call that fails in a run, besides those that the run itself names.
#[derive(Clone, Copy)]
pub(crate) enum FailingCall {
    Nothing,
    Disk(u64),
    Link(u64),
}

/// Runs the program on a file.
pub(crate) fn run_on(
    alloc: Global,
    image: &[u8],
    given: &Given,
    failing: FailingCall,
) -> Result<Ran, Problem> {
    let mut site = site_of(alloc, image, given, failing)?;
    let mut clock = clock_of(alloc, given)?;
    let mut notes = MemorySink::new(alloc, given.notes_fail);
    let status = tams_top::run(alloc, &given.words, &mut site, &mut clock, &mut notes);
    Ok(Ran {
        status,
        notes: Text::from_bytes(alloc, notes.bytes())?,
        told: told_by(alloc, &site)?,
        site,
    })
}

/// What each peer of a site was told.
fn told_by(alloc: Global, site: &MemorySite) -> Result<TextList, Problem> {
    let mut told = TextList::new(alloc);
    for peer in 0..site.connections() {
        told.push(Text::from_bytes(alloc, site.said(peer))?)?;
    }
    Ok(told)
}

fn site_of(
    alloc: Global,
    image: &[u8],
    given: &Given,
    failing: FailingCall,
) -> Result<MemorySite, Problem> {
    let (disk_call, link_call) = match failing {
        FailingCall::Nothing => (None, None),
        FailingCall::Disk(call) => (Some(call), None),
        FailingCall::Link(call) => (None, Some(call)),
    };
    let disk = disk_of(alloc, image, fails_of(alloc, &given.disk_fails, disk_call)?)?;
    let peers = peers_of(alloc, &given.peers)?;
    let fails = fails_of(alloc, &given.link_fails, link_call)?;
    let piece = (given.piece as usize).max(1);
    Ok(MemorySite::new(alloc, disk, peers, piece, fails))
}

fn disk_of(alloc: Global, image: &[u8], fails: NumberList) -> Result<MemoryDisk, Problem> {
    let bytes = Text::from_bytes(alloc, image)?;
    Ok(MemoryDisk::from_bytes(alloc, bytes, fails))
}

/// The peers that send these bytes.
fn peers_of(alloc: Global, sends: &TextList) -> Result<PeerList, Problem> {
    let mut peers = PeerList::new(alloc);
    for sent in sends.items() {
        peers.push(sent.bytes())?;
    }
    Ok(peers)
}

/// The numbers of a list, and one more.
fn fails_of(alloc: Global, fails: &NumberList, more: Option<u64>) -> Result<NumberList, Problem> {
    let mut all = NumberList::from_slice(alloc, fails.numbers())?;
    if let Some(call) = more {
        all.push(call)?;
    }
    Ok(all)
}

/// A clock that gives the moments of a run.
fn clock_of(alloc: Global, given: &Given) -> Result<ListClock, Problem> {
    let moments = NumberList::from_slice(alloc, given.moments.numbers())?;
    if moments
        .numbers()
        .iter()
        .all(|moment| *moment <= LAST_MOMENT)
    {
        Ok(ListClock::new(moments))
    } else {
        Err(Fault::Number.at(given.moments_line))
    }
}

/// Compares a run with how it was to end.
pub(crate) fn compare(alloc: Global, ran: &Ran, given: &Given, ends: &Ends) -> Result<(), Problem> {
    let status = u64::from(ran.status);
    if status != ends.status {
        let wanted = ends.status;
        let what = format!(in alloc; "the status is {status}, not {wanted}")?;
        return Err(Problem::Differs {
            line: ends.line,
            what,
        });
    }
    compare_bytes(
        alloc,
        ends.line,
        "the notes",
        ran.notes.bytes(),
        ends.notes.bytes(),
    )?;
    for peer in 0..given.peers.items().len() {
        let wanted = answers_to(alloc, &ends.answers, peer)?;
        let told = ran
            .told
            .items()
            .get(peer)
            .map_or(b"".as_slice(), Text::bytes);
        compare_bytes(alloc, ends.line, "what is said", told, wanted.bytes())?;
    }
    Ok(())
}

/// All that the peer of this number is to be told.
fn answers_to(alloc: Global, answers: &[PeerAnswer], peer: usize) -> Result<Text, Problem> {
    let mut all = Text::new(alloc);
    for answer in answers {
        if answer.peer == peer {
            all.append(answer.bytes.bytes())?;
        }
    }
    Ok(all)
}

/// Compares bytes with those that were wanted.
pub(crate) fn compare_bytes(
    alloc: Global,
    line: u64,
    of: &str,
    are: &[u8],
    wanted: &[u8],
) -> Result<(), Problem> {
    if same_bytes(are, wanted) {
        return Ok(());
    }
    let mut at = 0usize;
    for (one, other) in are.iter().zip(wanted) {
        if one != other {
            break;
        }
        at = at.saturating_add(1);
    }
    let rest = are.get(at..).unwrap_or_default();
    let rest = rest.get(..SHOWN).unwrap_or(rest).escape_ascii();
    let what = format!(in alloc; "{of} from byte {at} on: `{rest}`")?;
    Err(Problem::Differs { line, what })
}

/// The most bytes of a difference that are shown.
const SHOWN: usize = 60;
