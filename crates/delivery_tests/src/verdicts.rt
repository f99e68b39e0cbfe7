//! Answers, and what they say.
use hook_delivery::{Verdict, judge};

const OK: &[u8] = b"HTTP/1.1 200 OK\r\n\r\n";

const LINE_FEEDS: &[u8] = b"\n\nHTTP/1.1 204\n\n{}";

const INTERIM: &[u8] =
    b"HTTP/1.1 100 Continue\r\n\r\nHTTP/1.1 102\n\nHTTP/1.0 500 Oh\r\nA: b\r\n\r\n";

const CUT: &[u8] = b"HTTP/1.1 100 Continue\r\n\r\nHTTP/1.1 200 OK\r\n";

const NO_ANSWER: &[u8] = b"HTTP/2 200\r\n\r\n";

#[test]
fn answers_have_verdicts(rt: HostRuntime) {
    let cases = [
        (OK, false, Verdict::Status(200)),
        (LINE_FEEDS, false, Verdict::Status(204)),
        (INTERIM, true, Verdict::Status(500)),
        (CUT, false, Verdict::More),
        (CUT, true, Verdict::Silent),
        (NO_ANSWER, false, Verdict::Silent),
        (b"".as_slice(), false, Verdict::More),
        (b"".as_slice(), true, Verdict::Silent),
    ];
    for (bytes, ended, verdict) in cases {
        assert_eq!(rt; judge(bytes, ended), verdict);
    }
}

#[test]
fn much_without_an_end_is_silence(rt: HostRuntime) {
    let bytes = [b'a'; 16_384];
    assert_eq!(rt; judge(&bytes, false), Verdict::Silent);
    assert_eq!(rt; judge(&bytes[..16_383], false), Verdict::More);
}
