//! Lines of playlists (RFC 8216, section 4.3), each with its line feed.
ghost use Rattle.std.specs.Prelude.{◌≡◌, ◌≤◌, ◌++◌, OnOk, codes, decimal};
ghost use Rattle.hls_manifest.specs.Playlists.{break_lines, duration_text, ended, entry_lines, head_lines, last_digits, longest, text_of_lines};

use crate::durations::SECOND;
use crate::listing::Entry;
use disk_trait::{Memory, Text};
use itoa::Buffer;

/// Adds the lines before the first entry.
pub(crate) fn append_head(out: &mut Text, target: u64) -> Result<(), Memory>
    ensures { OnOk result (out.new ≡ out.old ++ text_of_lines (head_lines target)) }
{
    append_line(out, b"#EXTM3U")?;
    append_line(out, b"#EXT-X-VERSION:3")?;
    append_tag(out, b"#EXT-X-TARGETDURATION:", target)?;
    append_line(out, b"#EXT-X-MEDIA-SEQUENCE:0")
}

/// Adds the line behind the last entry.
pub(crate) fn append_end(out: &mut Text) -> Result<(), Memory>
    ensures { OnOk result (out.new ≡ out.old ++ ended (codes "#EXT-X-ENDLIST")) }
{
    append_line(out, b"#EXT-X-ENDLIST")
}

/// Adds the lines of an entry.
pub(crate) fn append_entry(out: &mut Text, entry: &Entry) -> Result<(), Memory>
    requires { entry.now.nanos ≤ longest }
    ensures { OnOk result (out.new ≡ out.old ++ text_of_lines (entry_lines entry.now)) }
{
    append_break(out, entry.broken)?;
    append_duration(out, entry.nanos)?;
    append_line(out, entry.address.bytes())
}

/// Adds a line.
fn append_line(out: &mut Text, line: &[u8]) -> Result<(), Memory>
    ensures { OnOk result (out.new ≡ out.old ++ ended line.now) }
{
    out.append(line)?;
    out.push(b'\n')
}

/// Adds the line of a tag with a number.
fn append_tag(out: &mut Text, tag: &[u8], number: u64) -> Result<(), Memory>
    ensures { OnOk result (out.new ≡ out.old ++ ended (tag.now ++ decimal number)) }
{
    out.append(tag)?;
    append_number(out, number)?;
    out.push(b'\n')
}

/// Adds a number in decimal.
fn append_number(out: &mut Text, number: u64) -> Result<(), Memory>
    ensures { OnOk result (out.new ≡ out.old ++ decimal number) }
{
    let mut buffer = Buffer::new();
    out.append(buffer.format(number).as_bytes())
}

/// Adds the line of a discontinuity, where there is one.
fn append_break(out: &mut Text, broken: bool) -> Result<(), Memory>
    ensures { OnOk result (out.new ≡ out.old ++ text_of_lines (break_lines broken)) }
{
    if broken {
        append_line(out, b"#EXT-X-DISCONTINUITY")
    } else {
        Ok(())
    }
}

/// Adds the line of a duration.
fn append_duration(out: &mut Text, nanos: u128) -> Result<(), Memory>
    requires { nanos ≤ longest }
    ensures { OnOk result (out.new
        ≡ out.old ++ ended (codes "#EXTINF:" ++ duration_text nanos ++ codes ",")) }
{
    out.append(b"#EXTINF:")?;
    append_seconds(out, nanos)?;
    append_line(out, b",")
}

/// Adds a duration in seconds: the whole ones, a point, and nine digits of nanoseconds.
fn append_seconds(out: &mut Text, nanos: u128) -> Result<(), Memory>
    requires { nanos ≤ longest }
    ensures { OnOk result (out.new ≡ out.old ++ duration_text nanos) }
{
    append_number(out, (nanos / SECOND) as u64)?;
    out.append(b".")?;
    append_last_digits(out, 9, (nanos % SECOND) as u64)
}

/// Adds so many decimal digits of a number, its last ones.
fn append_last_digits(out: &mut Text, count: u32, number: u64) -> Result<(), Memory>
    ensures { OnOk result (out.new ≡ out.old ++ last_digits count number) }
{
    if count == 0 {
        Ok(())
    } else {
        append_last_digits(out, count - 1, number / 10)?;
        out.push(b'0' + (number % 10) as u8)
    }
}
