//! How far a playlist is read, by whole lines.
ghost use Rattle.std.specs.Prelude.{◌≡◌, ◌++◌, ◌∷◌, [], true, false, IfOk, IfSome, IfNone, IsNone, OnOk};
ghost use Rattle.hls_manifest.specs.declared.progress.Progress.{Progress};
ghost use Rattle.hls_manifest.specs.Playlists.{IsLine, IsListing};
ghost use Rattle.hls_manifest.specs.Progress.{BreaksOrGoesOn, entries_after, Follows, IsEndOf, IsOpen, IsReached, IsTimed, lines_to};

use crate::line_reading::{is_address, read_target, read_timing};
use crate::listing::{Entry, EntryList, Listing};
use disk_trait::{Listed, Memory, Text, same_bytes};
use std::alloc::Global;

/// The longest duration, in nanoseconds: from the least timestamp to the greatest.
const LONGEST: u128 = 562_949_953_421_312_000_000_000;

/// What the lines so far end with.
#[derive(Clone, Copy)]
pub(crate) enum Progress {
    /// Nothing stands yet.
    Begun,
    /// The line that opens a playlist.
    Opened,
    /// The version.
    Versioned,
    /// The target duration.
    Targeted {
        target: u64,
    },
    /// The sequence number, or an entry's address.
    Between {
        target: u64,
    },
    /// The line before an entry that doesn't go on where the last one ended.
    Broken {
        target: u64,
    },
    /// The line of an entry's duration in nanoseconds, behind such a line or not.
    Timed {
        target: u64,
        broken: bool,
        nanos: u128,
    },
    /// The line that ends a playlist.
    Ended {
        target: u64,
    },
}

impl Progress {
    /// What the lines end with once this line stands behind them and these entries, if it may.
    fn next(self, entries: &[Entry], line: &[u8]) -> Option<Progress>
        requires { IsLine line.now }
        ensures found { IfSome result (Follows self entries.now line.now) }
        ensures none { IsNone result → (next : Progress) → Follows self entries.now line.now next → ⊥ }
    {
        match self {
            Progress::Begun => same_bytes(line, b"#EXTM3U").then_some(Progress::Opened),
            Progress::Opened => same_bytes(line, b"#EXT-X-VERSION:3").then_some(
                Progress::Versioned,
            ),
            Progress::Versioned => {
                let target = read_target(line)?;
                Some(Progress::Targeted { target })
            }
            Progress::Targeted { target } => {
                same_bytes(line, b"#EXT-X-MEDIA-SEQUENCE:0").then_some(Progress::Between { target })
            }
            Progress::Between { target } => next_between(target, entries, line),
            Progress::Broken { target } => next_timed(target, true, line),
            Progress::Timed { target, .. } => is_address(line).then_some(Progress::Between {
                target,
            }),
            Progress::Ended { .. } => None,
        }
    }
}

/// What stands once this line stands behind the head or an address, if it may.
fn next_between(target: u64, entries: &[Entry], line: &[u8]) -> Option<Progress>
    ensures found { IfSome result (BreaksOrGoesOn target entries.now line.now) }
    ensures none { IsNone result
        → (next : Progress) → BreaksOrGoesOn target entries.now line.now next → ⊥ }
{
    if same_bytes(line, b"#EXT-X-ENDLIST") {
        return Some(Progress::Ended { target });
    }
    if !entries.is_empty() && same_bytes(line, b"#EXT-X-DISCONTINUITY") {
        return Some(Progress::Broken { target });
    }
    next_timed(target, false, line)
}

/// What stands once this line gives an entry's duration, if it does.
fn next_timed(target: u64, broken: bool, line: &[u8]) -> Option<Progress>
    ensures found { IfSome result (IsTimed target broken line.now) }
    ensures none { IsNone result → (next : Progress) → IsTimed target broken line.now next → ⊥ }
{
    let nanos = read_timing(line)?;
    if nanos > LONGEST || (nanos + 500_000_000) / 1_000_000_000 > u128::from(target) {
        return None;
    }
    Some(Progress::Timed {
        target,
        broken,
        nanos,
    })
}

/// A reader of a playlist: what its lines so far end with, and the entries that stand whole.
#[derive(Drop)]
pub(crate) struct Reader {
    progress: Progress,
    entries: EntryList,
}

impl Reader {
    /// A reader of no line.
    pub(crate) fn new(alloc: Global) -> Reader
        ensures reached { IsReached result.progress result.entries }
        ensures lines { lines_to result.progress result.entries ≡ [] }
    {
        Reader {
            progress: Progress::Begun,
            entries: Listed::new(alloc),
        }
    }

    /// Whether this line, without its line feed, may stand behind those so far. Then it is read.
    pub(crate) fn read_line(&mut self, alloc: Global, line: &[u8]) -> Result<bool, Memory>
        requires line { IsLine line.now }
        ensures taken { IfOk result (λ taken. taken ≡ true
            → (self.new.entries ≡ entries_after self.old.progress self.old.entries line.now)
            × Follows self.old.progress self.old.entries line.now self.new.progress) }
        ensures refused { IfOk result (λ taken. taken ≡ false
            → (next : Progress) → Follows self.old.progress self.old.entries line.now next → ⊥) }
        ensures kept { IfOk result (λ taken. taken ≡ false → self.new ≡ self.old) }
    {
        let Some(next) = self.progress.next(self.entries.items(), line) else {
            return Ok(false);
        };
        if let Progress::Timed { broken, nanos, .. } = self.progress {
            let address = Text::from_bytes(alloc, line)?;
            self.entries.push(Entry {
                nanos,
                broken,
                address,
            })?;
        }
        self.progress = next;
        Ok(true)
    }

    /// The listing, where the lines end one.
    pub(crate) fn into_listing(self) -> Option<Listing>
        ensures found { IfSome result (IsEndOf self.progress self.entries) }
        ensures none { IsNone result → IsOpen self.progress }
    {
        match self.progress {
            Progress::Ended { target } => Some(Listing {
                target,
                entries: self.entries,
            }),
            _ => None,
        }
    }
}
