//! Reading a playlist, line by line.
ghost use Rattle.std.specs.Prelude.{IfOk};
ghost use Rattle.hls_manifest.specs.Playlists.{Spells};
ghost use Rattle.hls_manifest.specs.Reading.{FailsAtLine, IfLine};

use crate::fault::PlaylistFault;
use crate::line_reading::first_line;
use crate::listing::Listing;
use crate::progress::Reader;
use std::alloc::Global;

/// The listing that a text spells (RFC 8216, section 4), of the tags alone that a manifest has.
pub fn read_playlist(alloc: Global, text: &[u8]) -> Result<Listing, PlaylistFault>
    ensures listing { IfOk result (Spells text.now) }
    ensures line { IfLine result (FailsAtLine text.now) }
{
    // The length fits a `usize`, and so does the number of lines.
    let _size = text.len();
    let mut reader = Reader::new(alloc);
    let mut rest = text;
    let mut before = 0u64;
    while let Some((line, behind)) = first_line(rest) {
        if !reader.read_line(alloc, line)? {
            return Err(PlaylistFault::Line(before + 1));
        }
        rest = behind;
        before += 1;
    }
    let is_whole = rest.is_empty();
    match reader.into_listing() {
        Some(listing) if is_whole => Ok(listing),
        _ => Err(PlaylistFault::Line(before + 1)),
    }
}
