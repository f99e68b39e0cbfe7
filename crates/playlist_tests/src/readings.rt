//! Texts with the answer of reading to each, by the definition of a playlist.

use disk_trait::{Memory, Text};
use hls_manifest::{PlaylistFault, read_playlist};
use std::alloc::Global;

/// The lines of a head.
const HEAD: &[u8] =
    b"#EXTM3U\n#EXT-X-VERSION:3\n#EXT-X-TARGETDURATION:6\n#EXT-X-MEDIA-SEQUENCE:0\n";

/// The first two lines of a head, and what begins its third one.
const FRONT: &[u8] = b"#EXTM3U\n#EXT-X-VERSION:3\n#EXT-X-TARGETDURATION:";

/// What reading answers: the number of the first faulty line, or 0 where the text is a playlist.
fn answer(alloc: Global, front: &[u8], behind: &[u8]) -> Result<u64, Memory> {
    let mut text = Text::from_bytes(alloc, front)?;
    text.append(behind)?;
    match read_playlist(alloc, text.bytes()) {
        Ok(_) => Ok(0),
        Err(PlaylistFault::Line(number)) => Ok(number),
        Err(PlaylistFault::Memory) => Err(Memory),
    }
}

/// Whole texts.
const TEXTS: [(&[u8], u64); 8] = [
    (b"", 1),
    (b"\n", 1),
    (b"#EXTM3U", 1),
    (b"#EXTM3U\n", 2),
    (b"#EXTM3U\r\n#EXT-X-VERSION:3\r\n", 1),
    (b" #EXTM3U\n", 1),
    (b"#EXTM3U\n#EXT-X-TARGETDURATION:6\n", 2),
    (b"#EXTM3U\n#EXT-X-VERSION:4\n", 2),
];

/// What stands behind the beginning of the third line.
const TARGETS: [(&[u8], u64); 12] = [
    (b"1\n#EXT-X-MEDIA-SEQUENCE:0\n#EXT-X-ENDLIST\n", 0),
    (
        b"18446744073709551615\n#EXT-X-MEDIA-SEQUENCE:0\n#EXT-X-ENDLIST\n",
        0,
    ),
    (
        b"18446744073709551616\n#EXT-X-MEDIA-SEQUENCE:0\n#EXT-X-ENDLIST\n",
        3,
    ),
    (
        b"99999999999999999999\n#EXT-X-MEDIA-SEQUENCE:0\n#EXT-X-ENDLIST\n",
        3,
    ),
    (
        b"100000000000000000000\n#EXT-X-MEDIA-SEQUENCE:0\n#EXT-X-ENDLIST\n",
        3,
    ),
    (b"0\n#EXT-X-MEDIA-SEQUENCE:0\n#EXT-X-ENDLIST\n", 3),
    (b"06\n#EXT-X-MEDIA-SEQUENCE:0\n#EXT-X-ENDLIST\n", 3),
    (b"+6\n#EXT-X-MEDIA-SEQUENCE:0\n#EXT-X-ENDLIST\n", 3),
    (b"\n#EXT-X-MEDIA-SEQUENCE:0\n#EXT-X-ENDLIST\n", 3),
    (b"6\r\n#EXT-X-MEDIA-SEQUENCE:0\n#EXT-X-ENDLIST\n", 3),
    (b"6", 3),
    (
        b"18446744073709551615\n#EXT-X-MEDIA-SEQUENCE:0\n#EXTINF:562949953421312.000000001,\na\n",
        5,
    ),
];

/// What stands behind a head with a target duration of 6 s.
const BODIES: [(&[u8], u64); 30] = [
    (b"", 5),
    (b"#EXT-X-ENDLIST", 5),
    (b"#EXT-X-ENDLIST\n", 0),
    (b"#EXT-X-ENDLIST\n\n", 6),
    (b"#EXT-X-ENDLIST\nx", 6),
    (b"#EXT-X-ENDLIST\r\n", 5),
    (b"#EXTINF:0.000000000,\na\n#EXT-X-ENDLIST\n", 0),
    (b"#EXTINF:4.000000000,\na\r\n#EXT-X-ENDLIST\n", 0),
    (b"#EXTINF:4.000000000,\r\na\n#EXT-X-ENDLIST\n", 5),
    (b"#EXTINF:6.499999999,\na\n#EXT-X-ENDLIST\n", 0),
    (b"#EXTINF:6.500000000,\na\n#EXT-X-ENDLIST\n", 5),
    (b"#EXTINF:4.00000000,\na\n#EXT-X-ENDLIST\n", 5),
    (b"#EXTINF:4.0000000000,\na\n#EXT-X-ENDLIST\n", 5),
    (b"#EXTINF:.000000000,\na\n#EXT-X-ENDLIST\n", 5),
    (b"#EXTINF:04.000000000,\na\n#EXT-X-ENDLIST\n", 5),
    (b"#EXTINF:4.000000000\na\n#EXT-X-ENDLIST\n", 5),
    (b"#EXTINF:4.000000000,title\na\n#EXT-X-ENDLIST\n", 5),
    (b"#EXTINF:4.000000000,\n", 6),
    (b"#EXTINF:4.000000000,\na", 6),
    (b"#EXTINF:4.000000000,\na\n", 7),
    (b"#EXTINF:4.000000000,\n\n#EXT-X-ENDLIST\n", 6),
    (b"#EXTINF:4.000000000,\n#a\n#EXT-X-ENDLIST\n", 6),
    (b"#EXTINF:4.000000000,\n#EXT-X-ENDLIST\n", 6),
    (b"#EXTINF:4.000000000,\n\xff#\n#EXT-X-ENDLIST\n", 0),
    (
        b"#EXT-X-DISCONTINUITY\n#EXTINF:4.000000000,\na\n#EXT-X-ENDLIST\n",
        5,
    ),
    (
        b"#EXTINF:4.000000000,\na\n#EXT-X-DISCONTINUITY\n#EXTINF:4.000000000,\nb\n#EXT-X-ENDLIST\n",
        0,
    ),
    (
        b"#EXTINF:4.000000000,\na\n#EXT-X-DISCONTINUITY\n#EXT-X-DISCONTINUITY\n",
        8,
    ),
    (
        b"#EXTINF:4.000000000,\na\n#EXT-X-DISCONTINUITY\n#EXT-X-ENDLIST\n",
        8,
    ),
    (b"#EXTINF:4.000000000,\na\n#EXT-X-DISCONTINUITY\n", 8),
    (b"a\n#EXT-X-ENDLIST\n", 5),
];

#[test]
fn each_is_answered(rt: HostRuntime) {
    for row in TEXTS.iter().enumerate() {
        let (i, (text, wanted)) = row;
        let same = answer(rt.alloc(), b"", text).map_or(false, |number| number == *wanted);
        assert!(rt; same, "text {i}");
    }
    for row in TARGETS.iter().enumerate() {
        let (i, (text, wanted)) = row;
        let same = answer(rt.alloc(), FRONT, text).map_or(false, |number| number == *wanted);
        assert!(rt; same, "target {i}");
    }
    for row in BODIES.iter().enumerate() {
        let (i, (text, wanted)) = row;
        let same = answer(rt.alloc(), HEAD, text).map_or(false, |number| number == *wanted);
        assert!(rt; same, "body {i}");
    }
}

/// Whether the longest duration is read, with its target, its break and its address.
fn reads_parts(alloc: Global) -> Result<bool, Memory> {
    let mut text = Text::from_bytes(alloc, FRONT)?;
    text.append(b"562949953421312\n#EXT-X-MEDIA-SEQUENCE:0\n#EXTINF:1.500000000,\na\n")?;
    text.append(
        b"#EXT-X-DISCONTINUITY\n#EXTINF:562949953421312.000000000,\nb/c\n#EXT-X-ENDLIST\n",
    )?;
    let Ok(listing) = read_playlist(alloc, text.bytes()) else {
        return Ok(false);
    };
    let [first, last] = listing.entries.items() else {
        return Ok(false);
    };
    let begins = first.nanos == 1_500_000_000
        && !first.broken
        && first.address.bytes() == b"a".as_slice();
    let ends = last.nanos == 562_949_953_421_312_000_000_000 && last.broken;
    Ok(
        listing.target == 562_949_953_421_312
            && begins
            && ends
            && last.address.bytes() == b"b/c".as_slice(),
    )
}

#[test]
fn parts_are_read(rt: HostRuntime) {
    let whole = reads_parts(rt.alloc()).map_or(false, |reads| reads);
    assert!(rt; whole, "a playlist of two entries");
}
