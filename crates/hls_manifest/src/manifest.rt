//! A manifest under way.
ghost use Rattle.std.specs.Prelude.{◌≡◌, ◌≤◌, ◌++◌, ◌∷◌, [], List, Option, IfOk, IfSome, OnErr, OnOk, option_map};
ghost use Rattle.media_rows.specs.declared.segment.SegmentRow.{SegmentRow};
ghost use Rattle.time_range.specs.Points.{IsLow};
ghost use Rattle.hls_manifest.specs.Entries.{entry_of, goes_on, is_broken, is_next, is_whole, manifest_text};
ghost use Rattle.hls_manifest.specs.Playlists.{longest};
ghost use Rattle.hls_manifest.specs.Manifests.{IsManifestOf, end_of, named_of};

use crate::durations::{duration_of, rounded};
use crate::lines::{append_end, append_entry, append_head};
use crate::listing::Entry;
use disk_trait::{Memory, Text};
use json_replies::media_address;
use media_rows::{SegmentRow, range_covers};
use std::alloc::Global;
use std::marker::Model;
use time_range::{TimeRange, Ts};

/// How a segment ends: its last point, in half nanoseconds, and its offset.
#[derive(Drop)]
struct SegmentEnd {
    high: Option<i128>,
    ts_offset: Ts,
}

impl Model for SegmentEnd {
    ghost use Rattle.hls_manifest.specs.Manifests.{EndSeen};

    ghost Value = { EndSeen };

    ghost view = { λ e. record { high = e.high; ts_offset = e.ts_offset } };
}

/// A playlist of segments that come one after another. It names those that show whole objects.
#[derive(Drop)]
pub struct Manifest {
    base: Text,
    body: Text,
    target: u64,
    objects: u64,
    last: Option<SegmentEnd>,
}

impl Model for Manifest {
    ghost use Rattle.hls_manifest.specs.Manifests.{ManifestSeen};

    ghost Value = { ManifestSeen };

    ghost view = { λ m. record {
      base = m.base;
      body = m.body;
      target = m.target;
      objects = m.objects;
      last = m.last;
    } };
}

impl Manifest {
    /// A manifest without segments, whose objects are got behind a base: the address of the store, which is UTF-8.
    /// Another base would be answered as want of memory once an object is named.
    pub fn new(alloc: Global, base: &Text) -> Result<Manifest, Memory>
        ensures base { IfOk result (λ manifest. manifest.base ≡ base.now) }
        ensures empty { IfOk result (IsManifestOf []) }
    {
        Ok(Manifest {
            base: base.copy(alloc)?,
            body: Text::new(alloc),
            target: 1,
            objects: 0,
            last: None,
        })
    }

    /// Adds a segment, where it shows a whole object within the range. Segments come by rising first point. After an
    /// error it is as it was.
    pub fn push(&mut self, alloc: Global, row: &SegmentRow, range: &TimeRange) -> Result<(), Memory>
        ensures base { self.new.base ≡ self.old.base }
        ensures names { OnOk result ((rows : List SegmentRow) → IsManifestOf rows self.old
            → IsManifestOf (rows ++ named_of range.now row.now) self.new) }
        ensures err { OnErr result (self.new ≡ self.old) }
    {
        if is_whole(range, row) {
            self.name(alloc, row)
        } else {
            Ok(())
        }
    }

    /// Names the object of a segment. After an error it is as it was.
    fn name(&mut self, alloc: Global, row: &SegmentRow) -> Result<(), Memory>
        ensures base { self.new.base ≡ self.old.base }
        ensures names { OnOk result ((rows : List SegmentRow) → IsManifestOf rows self.old
            → IsManifestOf (rows ++ row.now ∷ []) self.new) }
        ensures err { OnErr result (self.new ≡ self.old) }
    {
        let entry = self.entry_of(alloc, row)?;
        let mut lines = Text::new(alloc);
        append_entry(&mut lines, &entry)?;
        self.body.append(lines.bytes())?;
        self.target = self.target.max(rounded(entry.nanos));
        self.objects = self.objects.saturating_add(1);
        self.last = Some(SegmentEnd {
            high: row.segment.range.high(),
            ts_offset: row.segment.ts_offset,
        });
        Ok(())
    }

    /// The entry of a segment that comes next.
    fn entry_of(&self, alloc: Global, row: &SegmentRow) -> Result<Entry, Memory>
        ensures longest { IfOk result (λ entry. entry.nanos ≤ longest) }
        ensures value { (last : Option SegmentRow) → self.now.last ≡ option_map end_of last
            → IfOk result (λ entry. entry ≡ entry_of self.now.base last row.now) }
    {
        let segment = &row.segment;
        let address = media_address(alloc, self.base.bytes(), segment.object.bytes())?;
        Ok(Entry {
            nanos: duration_of(&segment.range),
            broken: is_broken(&self.last, row),
            address: Text::from_vec(address.into_bytes()),
        })
    }

    /// How many objects it names, at most the last number of 64 bits.
    pub fn objects(&self) -> u64
        ensures { result ≡ self.now.objects }
    {
        self.objects
    }

    /// Its text (RFC 8216, section 4).
    pub fn finish(&self, alloc: Global) -> Result<Text, Memory>
        ensures { (rows : List SegmentRow) → IsManifestOf rows self.now
            → IfOk result (λ text. text ≡ manifest_text self.now.base rows) }
    {
        let mut text = Text::new(alloc);
        append_head(&mut text, self.target)?;
        text.append(self.body.bytes())?;
        append_end(&mut text)?;
        Ok(text)
    }
}

/// Whether a segment shows a whole object within the range.
fn is_whole(range: &TimeRange, row: &SegmentRow) -> bool
    ensures { result ≡ is_whole range.now row.now }
{
    range_covers(range, &row.segment.range)
        && row.segment.sample_offset == 0
        && duration_of(&row.segment.range) != 0
}

/// Whether media break off before a segment, behind the end of the last one, if there is one.
fn is_broken(last: &Option<SegmentEnd>, row: &SegmentRow) -> bool
    ensures { (before : Option SegmentRow) → last.now ≡ option_map end_of before
        → result ≡ is_broken before row.now }
{
    match last {
        Some(end) => !end.goes_on(row),
        None => false,
    }
}

impl SegmentEnd {
    /// Whether a segment goes on where one that ends so did, on the same clock of media.
    fn goes_on(&self, row: &SegmentRow) -> bool
        ensures { (last : SegmentRow) → self.now ≡ end_of last → result ≡ goes_on last row.now }
    {
        is_next(self.high, row.segment.range.low()) && self.ts_offset == row.segment.ts_offset
    }
}

/// Whether a first point is the one behind a last point.
fn is_next(last: Option<i128>, first: Option<i128>) -> bool
    requires { IfSome first IsLow }
    ensures { result ≡ is_next last first }
{
    match (last, first) {
        (Some(last), Some(first)) => last == first - 1,
        _ => false,
    }
}
