//! Heads and bodies as clients and attackers send them, with the answer to each (RFC 9112). Each is fed at
//! once and byte by byte.

use disk_trait::{Memory, Text};
use http_wire::{Feed, FeedStep, FieldList, HeadField, MethodKind, write_response};
use std::alloc::Global;

const MORE: u8 = 0;

const BAD_HEAD: u8 = 1;

const BAD_FRAMING: u8 = 2;

const LENGTH_REQUIRED: u8 = 3;

const TOO_LARGE: u8 = 4;

const CODING: u8 = 5;

const HEAD: u8 = 100;

const WHOLE: u8 = 101;

/// The number of a refusal, or a number for each other answer.
fn number(step: &FeedStep) -> u8 {
    match step {
        FeedStep::More => MORE,
        FeedStep::Head(_) => HEAD,
        FeedStep::Whole(_) => WHOLE,
        FeedStep::Refused(fault) => fault.refusal().number(),
    }
}

/// What a new connection answers to bytes that come at once.
fn at_once(feed: &mut Feed, bytes: &[u8]) -> u8 {
    feed.restart();
    feed.push(bytes);
    number(&feed.next_request())
}

/// What it answers to bytes that come one by one.
fn one_by_one(feed: &mut Feed, bytes: &[u8]) -> u8 {
    feed.restart();
    for i in 0..bytes.len() {
        feed.push(&bytes[i..i + 1]);
        let step = feed.next_request();
        match step {
            FeedStep::More => {}
            _ => return number(&step),
        }
    }
    MORE
}

/// Whether both answer so.
fn answers(feed: &mut Feed, bytes: &[u8], wanted: u8) -> bool {
    at_once(feed, bytes) == wanted && one_by_one(feed, bytes) == wanted
}

/// Rows of a table.
const ROWS: [(&[u8], u8); 65] = [
    // What is let through.
    (b"GET / HTTP/1.1\r\n\r\n", WHOLE),
    (b"GET / HTTP/1.1\n\n", WHOLE),
    (b"\r\n\nGET / HTTP/1.0\r\n\r\n", WHOLE),
    (b"POST /a HTTP/1.1\r\nContent-Length: 2\r\n\r\nab", WHOLE),
    (
        b"POST /a HTTP/1.1\r\ncontent-length: 2\r\nCONTENT-LENGTH: 2\r\n\r\nab",
        WHOLE,
    ),
    (
        b"POST /a HTTP/1.1\r\nContent-Length: 0000000000000000002\r\n\r\nab",
        WHOLE,
    ),
    (
        b"POST /a HTTP/1.1\r\nTransfer-Encoding: CHUNKED\r\n\r\n0\r\n\r\n",
        WHOLE,
    ),
    (
        b"POST /a HTTP/1.1\r\nTransfer-Encoding: chunked\r\n\r\n1;a=b\r\nx\r\n00\r\nA: b\r\n\r\n",
        WHOLE,
    ),
    (
        b"POST /a HTTP/1.1\r\nTransfer-Encoding:\tchunked \r\n\r\nA \t\r\n0123456789\r\n0\r\n\r\n",
        WHOLE,
    ),
    (
        b"POST /a HTTP/1.1\r\nContent-Encoding: Identity\r\nContent-Length: 1\r\n\r\na",
        WHOLE,
    ),
    (
        b"PUT /media/a HTTP/1.1\r\nContent-Length: 1073741824\r\n\r\n",
        HEAD,
    ),
    (b"PUT /media/ HTTP/1.1\r\n\r\n", HEAD),
    (b"FOO / HTTP/1.1\r\n\r\n", WHOLE),
    // What isn't whole as yet.
    (b"", MORE),
    (b"\r\n\r\n", MORE),
    (b"GET / HTTP/1.1\r\n\r", MORE),
    (b"GET / HTTP/1.1\r\nA: b\r\n", MORE),
    (b"POST /a HTTP/1.1\r\nContent-Length: 2\r\n\r\na", MORE),
    (
        b"POST /a HTTP/1.1\r\nTransfer-Encoding: chunked\r\n\r\n1\r\nx\r",
        MORE,
    ),
    (
        b"POST /a HTTP/1.1\r\nTransfer-Encoding: chunked\r\n\r\n0\r\nA: b\r\n\r",
        MORE,
    ),
    // A head that isn't one.
    (b"\x16\x03\x01\x00\xa5\n\n", BAD_HEAD),
    (b"GET  / HTTP/1.1\r\n\r\n", BAD_HEAD),
    (b"GET / HTTP/1.1 \r\n\r\n", BAD_HEAD),
    (b" GET / HTTP/1.1\r\n\r\n", BAD_HEAD),
    (b"GET /\r\n\r\n", BAD_HEAD),
    (b"GET / HTTP/1.2\r\n\r\n", BAD_HEAD),
    (b"GET / HTTP/2.0\r\n\r\n", BAD_HEAD),
    (b"GET / http/1.1\r\n\r\n", BAD_HEAD),
    (b"GE(T / HTTP/1.1\r\n\r\n", BAD_HEAD),
    (b"GET /a\x00b HTTP/1.1\r\n\r\n", BAD_HEAD),
    (b"GET /\xff HTTP/1.1\r\n\r\n", BAD_HEAD),
    (b"GET / HTTP/1.1\rHost: a\r\n\r\n", BAD_HEAD),
    (b"GET / HTTP/1.1\r\nContent-Length : 5\r\n\r\n", BAD_HEAD),
    (b"GET / HTTP/1.1\r\n Content-Length: 5\r\n\r\n", BAD_HEAD),
    (b"GET / HTTP/1.1\r\nA: b\r\n c: d\r\n\r\n", BAD_HEAD),
    (b"GET / HTTP/1.1\r\nA: b\rc\r\n\r\n", BAD_HEAD),
    (b"GET / HTTP/1.1\r\nA: b\x00\r\n\r\n", BAD_HEAD),
    (
        b"GET / HTTP/1.1\r\nTransfer-Encoding\x0b: chunked\r\n\r\n",
        BAD_HEAD,
    ),
    (
        b"GET / HTTP/1.1\r\nTransfer-Encoding: \x0bchunked\r\n\r\n",
        BAD_HEAD,
    ),
    (b"GET / HTTP/1.1\r\nA\r\n\r\n", BAD_HEAD),
    (b"GET / HTTP/1.1\r\n: b\r\n\r\n", BAD_HEAD),
    // Framing that two readers could take in two ways.
    (
        b"POST / HTTP/1.1\r\nContent-Length: 4\r\nTransfer-Encoding: chunked\r\n\r\n",
        BAD_FRAMING,
    ),
    (
        b"POST / HTTP/1.1\r\nTransfer-Encoding: chunked\r\nContent-Length: 4\r\n\r\n",
        BAD_FRAMING,
    ),
    (
        b"POST / HTTP/1.1\r\nContent-Length: 4\r\nContent-Length: 5\r\n\r\n",
        BAD_FRAMING,
    ),
    (
        b"POST / HTTP/1.1\r\nContent-Length: 5\r\nContent-Length: 05\r\n\r\n",
        BAD_FRAMING,
    ),
    (
        b"POST / HTTP/1.1\r\nContent-Length: +4\r\n\r\n",
        BAD_FRAMING,
    ),
    (
        b"POST / HTTP/1.1\r\nContent-Length: -4\r\n\r\n",
        BAD_FRAMING,
    ),
    (
        b"POST / HTTP/1.1\r\nContent-Length: 0x4\r\n\r\n",
        BAD_FRAMING,
    ),
    (
        b"POST / HTTP/1.1\r\nContent-Length: 4, 4\r\n\r\n",
        BAD_FRAMING,
    ),
    (b"POST / HTTP/1.1\r\nContent-Length:\r\n\r\n", BAD_FRAMING),
    (
        b"POST / HTTP/1.1\r\nContent-Length: 99999999999999999999\r\n\r\n",
        BAD_FRAMING,
    ),
    (
        b"POST / HTTP/1.1\r\nTransfer-Encoding: xchunked\r\n\r\n",
        BAD_FRAMING,
    ),
    (
        b"POST / HTTP/1.1\r\nTransfer-Encoding: gzip, chunked\r\n\r\n",
        BAD_FRAMING,
    ),
    (
        b"POST / HTTP/1.1\r\nTransfer-Encoding: chunked\r\nTransfer-Encoding: chunked\r\n\r\n",
        BAD_FRAMING,
    ),
    (
        b"POST / HTTP/1.1\r\nTransfer-Encoding: identity\r\n\r\n",
        BAD_FRAMING,
    ),
    (
        b"POST / HTTP/1.0\r\nTransfer-Encoding: chunked\r\n\r\n",
        BAD_FRAMING,
    ),
    // Chunks that can't be read.
    (
        b"POST / HTTP/1.1\r\nTransfer-Encoding: chunked\r\n\r\n1\nx\r\n",
        BAD_FRAMING,
    ),
    (
        b"POST / HTTP/1.1\r\nTransfer-Encoding: chunked\r\n\r\n0x1\r\n",
        BAD_FRAMING,
    ),
    (
        b"POST / HTTP/1.1\r\nTransfer-Encoding: chunked\r\n\r\n00000000000000001\r\n",
        BAD_FRAMING,
    ),
    (
        b"POST / HTTP/1.1\r\nTransfer-Encoding: chunked\r\n\r\n1\r\nxy",
        BAD_FRAMING,
    ),
    (
        b"POST / HTTP/1.1\r\nTransfer-Encoding: chunked\r\n\r\n1\r\nx\n",
        BAD_FRAMING,
    ),
    // The other refusals.
    (
        b"PUT /media/a HTTP/1.1\r\nTransfer-Encoding: chunked\r\n\r\n",
        LENGTH_REQUIRED,
    ),
    (
        b"POST / HTTP/1.1\r\nContent-Length: 1048577\r\n\r\n",
        TOO_LARGE,
    ),
    (
        b"PUT /media/a HTTP/1.1\r\nContent-Length: 1073741825\r\n\r\n",
        TOO_LARGE,
    ),
    (b"POST / HTTP/1.1\r\nContent-Encoding: gzip\r\n\r\n", CODING),
];

#[test]
fn each_is_answered(rt: HostRuntime) {
    let Ok(mut feed) = Feed::new(rt.alloc()) else {
        assert!(rt; false, "there is memory");
        return;
    };
    for row in ROWS.iter().enumerate() {
        let (i, (bytes, wanted)) = row;
        assert!(rt; answers(&mut feed, bytes, *wanted), "row {i}");
    }
}

/// Whether a chunked body is told decoded, and an interim response is due to its head.
fn tells_chunks(feed: &mut Feed) -> bool {
    feed.restart();
    feed.push(b"POST /a?b HTTP/1.1\r\nTransfer-Encoding: chunked\r\nExpect: 100-Continue\r\n\r\n");
    feed.push(b"3\r\nabc\r\n2\r\nde\r\n0\r\n\r\nGET");
    match feed.next_request() {
        FeedStep::Whole(head) => {
            let target = feed.bytes(head.target) == b"/a?b".as_slice();
            let body = feed.bytes(head.body) == b"abcde".as_slice();
            target && body && head.method == MethodKind::Post && head.wants_interim && !head.ends
        }
        _ => false,
    }
}

/// Whether the body of a media PUT is handed on, and no more.
fn hands_on(feed: &mut Feed) -> bool {
    let mut out = [0u8; 8];
    feed.restart();
    feed.push(b"PUT /media/o HTTP/1.1\r\nContent-Length: 3\r\nConnection: Close\r\n\r\nabcGET");
    match feed.next_request() {
        FeedStep::Head(head) => {
            let count = feed.take_body(&mut out);
            let none = feed.take_body(&mut out);
            head.length == 3 && head.ends && count == 3 && none == 0 && out[2] == b'c'
        }
        _ => false,
    }
}

/// Whether an interim response is due once the head is whole, and not before.
fn waits(feed: &mut Feed) -> bool {
    feed.restart();
    feed.push(b"PUT /flows/a HTTP/1.1\r\nContent-Length: 3\r\nExpect: 100-continue\r\n");
    let before = feed.interim_due();
    feed.push(b"\r\n");
    !before && feed.interim_due()
}

/// A response with one field.
fn response(alloc: Global) -> Result<Text, Memory> {
    let mut fields = FieldList::new(alloc);
    fields.push(HeadField {
        name: Text::from_bytes(alloc, b"Content-Length")?,
        value: Text::from_bytes(alloc, b"2")?,
    })?;
    let head_only = false;
    write_response(alloc, 413, &fields, b"{}", head_only)
}

#[test]
fn parts_are_told(rt: HostRuntime) {
    let Ok(mut feed) = Feed::new(rt.alloc()) else {
        assert!(rt; false, "there is memory");
        return;
    };
    assert!(rt; tells_chunks(&mut feed), "a chunked body");
    assert!(rt; hands_on(&mut feed), "a media PUT");
    assert!(rt; waits(&mut feed), "an interim response");
    let wanted = b"HTTP/1.1 413 Payload Too Large\r\nContent-Length: 2\r\n\r\n{}";
    let same = response(rt.alloc()).map_or(false, |text| text.bytes() == wanted.as_slice());
    assert!(rt; same, "a response");
}
