//! Exchanges with peers in memory.
ghost use Rattle.std.specs.Prelude.{◌<◌};

use crate::requests::request;
use disk_trait::{Memory, MemoryDisk, NumberList};
use hook_delivery::{Answered, exchange};
use site_edge::{MemorySite, PeerList};
use std::alloc::Global;

/// A site of one peer, who sends this in pieces. The link call of this number fails; 0 is none.
fn site_of(alloc: Global, sends: &[u8], piece: usize, fail: u64) -> Result<MemorySite, Memory>
    requires { 0 < piece }
{
    let disk = MemoryDisk::new(alloc, 4, NumberList::new(alloc))?;
    let mut peers = PeerList::new(alloc);
    peers.push(sends)?;
    let fails = NumberList::from_slice(alloc, &[fail])?;
    Ok(MemorySite::new(alloc, disk, peers, piece, fails))
}

/// What the exchanges of the worked event with such a peer come to, the second one without a peer.
fn answers(
    alloc: Global,
    sends: &[u8],
    piece: usize,
    fail: u64,
) -> Result<Option<(Answered, Answered)>, Memory>
    requires { 0 < piece }
{
    let mut site = site_of(alloc, sends, piece, fail)?;
    match request(alloc, "http://127.0.0.1:9/h", None)? {
        Some(out) => {
            let first = exchange(alloc, &mut site, &out)?;
            let second = exchange(alloc, &mut site, &out)?;
            Ok(Some((first, second)))
        }
        None => Ok(None),
    }
}

#[test]
fn peers_answer(rt: HostRuntime) {
    let ok = b"HTTP/1.1 100 Continue\r\n\r\nHTTP/1.1 204 No Content\r\n\r\n";
    let cases = [
        (ok.as_slice(), 0, Answered::Accepted),
        (b"HTTP/1.1 500 Oh\n\n".as_slice(), 0, Answered::Other(500)),
        (b"HTTP/1.1 200 OK\r\n".as_slice(), 0, Answered::Silent),
        (ok.as_slice(), 1, Answered::Failed),
        (ok.as_slice(), 3, Answered::Failed),
    ];
    for (sends, fail, answer) in cases {
        let found = answers(rt.alloc(), sends, 7, fail).ok();
        assert_eq!(rt; found, Some(Some((answer, Answered::Failed))));
    }
}
