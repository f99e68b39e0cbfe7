//! Requests that are heard over a site in memory, with what was said before their answer (RFC 9110, section
//! 10.1.1).
ghost use Rattle.std.specs.Prelude.{◌<◌, length};

use disk_trait::{MemoryDisk, NumberList};
use request_hearing::{Body, Heard, Hearing};
use site_edge::{MemorySite, PeerList, Site};
use std::alloc::Global;
use std::process::Abort;
use std::test::Fail;

/// The interim response, and what is said of it where the saying fails.
const INTERIM: &[u8] = b"HTTP/1.1 100 Continue\r\n\r\n";

const HALF: &[u8] = b"HTTP/1.1 100";

/// One row of a table: what a peer sends, at most how many bytes one `hear` gives, the number of the link
/// call that fails, what is answered, and what was told. No call has the number 0.
struct HearingRow {
    sends: &'static [u8],
    piece: usize,
    fail: u64,
    answer: u8,
    told: &'static [u8],
}

const ROWS: [HearingRow; 14] = [
    HearingRow {
        sends: b"",
        piece: 9,
        fail: 0,
        answer: b'e',
        told: b"",
    },
    HearingRow {
        sends: b"GET / HTTP/1.1\r\n\r\n",
        piece: 1,
        fail: 0,
        answer: b'w',
        told: b"",
    },
    HearingRow {
        sends: b"GET / HTTP/1.1\r\n\r\nGET",
        piece: 999,
        fail: 0,
        answer: b'w',
        told: b"",
    },
    HearingRow {
        sends: b"GET / HTTP/1.1\r\n",
        piece: 5,
        fail: 0,
        answer: b'c',
        told: b"",
    },
    HearingRow {
        sends: b"GET / HTTP/7\r\n\r\n",
        piece: 5,
        fail: 0,
        answer: b'r',
        told: b"",
    },
    // A body for which the client waits.
    HearingRow {
        sends: b"POST /a HTTP/1.1\r\nContent-Length: 2\r\nExpect: 100-continue\r\n\r\nab",
        piece: 1,
        fail: 0,
        answer: b'w',
        told: INTERIM,
    },
    HearingRow {
        sends: b"POST /a HTTP/1.1\r\nContent-Length: 2\r\nExpect: 100-continue\r\n\r\nab",
        piece: 999,
        fail: 0,
        answer: b'w',
        told: INTERIM,
    },
    HearingRow {
        sends: b"POST /a HTTP/1.1\r\nContent-Length: 2\r\nExpect: 100-continue\r\n\r\na",
        piece: 1,
        fail: 0,
        answer: b'c',
        told: INTERIM,
    },
    HearingRow {
        sends: b"POST /a HTTP/1.1\r\nTransfer-Encoding: chunked\r\nExpect: 100-continue\r\n\r\nz\r\n",
        piece: 999,
        fail: 0,
        answer: b'r',
        told: INTERIM,
    },
    HearingRow {
        sends: b"PUT /media/a HTTP/1.1\r\nContent-Length: 2\r\nExpect: 100-continue\r\n\r\n",
        piece: 999,
        fail: 0,
        answer: b'm',
        told: INTERIM,
    },
    // Calls that fail: the first waits for the peer, and the second hears.
    HearingRow {
        sends: b"GET / HTTP/1.1\r\n\r\n",
        piece: 999,
        fail: 2,
        answer: b'u',
        told: b"",
    },
    HearingRow {
        sends: b"POST /a HTTP/1.1\r\nContent-Length: 2\r\nExpect: 100-continue\r\n\r\nab",
        piece: 999,
        fail: 3,
        answer: b's',
        told: HALF,
    },
    HearingRow {
        sends: b"POST /a HTTP/1.1\r\nContent-Length: 2\r\nExpect: 100-continue\r\n\r\n",
        piece: 999,
        fail: 4,
        answer: b'u',
        told: INTERIM,
    },
    HearingRow {
        sends: b"PUT /media/a HTTP/1.1\r\nContent-Length: 2\r\nExpect: 100-continue\r\n\r\n",
        piece: 999,
        fail: 3,
        answer: b'p',
        told: HALF,
    },
];

/// A letter for each answer.
fn letter(heard: &Heard) -> u8 {
    match heard {
        Heard::Whole(_) => b'w',
        Heard::Media(_) => b'm',
        Heard::Refused(_) => b'r',
        Heard::Ended => b'e',
        Heard::Cut => b'c',
        Heard::Unheard => b'u',
        Heard::Unsaid => b's',
        Heard::MediaUnsaid => b'p',
    }
}

/// What is answered to the first request of the next peer.
fn hear_peer<X: Site>(hearing: &mut Hearing, site: &mut X) -> u8 {
    match site.next_peer() {
        Ok(true) => {
            hearing.restart();
            letter(&hearing.hear_request(site))
        }
        Ok(false) => b'0',
        Err(_) => b'1',
    }
}

/// The first piece of the body of a media PUT, and how many bytes it has.
fn hear_piece<X: Site>(hearing: &mut Hearing, site: &mut X, out: &mut [u8]) -> usize
    requires { 0 < length out.old }
{
    match site.next_peer() {
        Ok(true) => {
            hearing.restart();
            match hearing.hear_request(site) {
                Heard::Media(head) if head.length > 0 => match hearing.take_body(site, out) {
                    Body::Piece(count) => count,
                    Body::Ended => 0,
                    Body::Unheard => 0,
                },
                _ => 0,
            }
        }
        Ok(false) => 0,
        Err(_) => 0,
    }
}

/// A site of one peer, who sends this.
fn site_of(
    alloc: Global,
    sends: &[u8],
    piece: usize,
    fail: u64,
) -> Result<MemorySite, disk_trait::Memory>
    requires { 0 < piece }
{
    let disk = MemoryDisk::new(alloc, 4, NumberList::new(alloc))?;
    let mut peers = PeerList::new(alloc);
    peers.push(sends)?;
    let fails = NumberList::from_slice(alloc, &[fail])?;
    Ok(MemorySite::new(alloc, disk, peers, piece, fails))
}

/// What the peer was told, or nothing where it didn't come.
fn told(site: &MemorySite) -> &[u8] {
    if 0 < site.connections() {
        site.said(0)
    } else {
        b""
    }
}

fn check_row(
    rt: &impl Abort,
    alloc: Global,
    hearing: &mut Hearing,
    row: &HearingRow,
) -> Result<(), disk_trait::Memory> {
    if row.piece == 0 {
        assert!(rt; false, "a piece has a byte at least");
        return Ok(());
    }
    let mut site = site_of(alloc, row.sends, row.piece, row.fail)?;
    assert_eq!(rt; hear_peer(hearing, &mut site), row.answer);
    assert_eq!(rt; told(&site), row.told);
    Ok(())
}

#[test]
fn requests_are_heard(rt: HostRuntime) -> Result<(), Fail> {
    let mut hearing = Hearing::new(rt.alloc())?;
    for row in &ROWS {
        check_row(&rt, rt.alloc(), &mut hearing, row)?;
    }
    Ok(())
}

#[test]
fn a_media_body_is_heard_in_pieces(rt: HostRuntime) -> Result<(), Fail> {
    let mut hearing = Hearing::new(rt.alloc())?;
    let mut out = [0u8; 4];
    let sends = b"PUT /media/a HTTP/1.1\r\nContent-Length: 3\r\n\r\nabcGET";
    let mut site = site_of(rt.alloc(), sends, 999, 0)?;
    assert_eq!(rt; hear_piece(&mut hearing, &mut site, &mut out), 3);
    assert_eq!(rt; out.as_slice(), b"abc\0".as_slice());
    let mut other = site_of(rt.alloc(), sends, 46, 0)?;
    assert_eq!(rt; hear_piece(&mut hearing, &mut other, &mut out), 2);
    Ok(())
}
