//! Media from rows, as when a file is opened.
ghost use Rattle.std.specs.Prelude.{◌≡◌, [], ◌∷◌, IfOk, IsFalse, IsTrue, None, Some, is_some};
ghost use Rattle.media_rows.specs.Answer.{keep_refusal};
ghost use Rattle.media_rows.specs.Good.{rises_by};
ghost use Rattle.media_rows.specs.Objects.{object_of};
ghost use Rattle.media_rows.specs.Ranges.{has_both_ends};
ghost use Rattle.media_book.specs.Media.{only_media, Media, MediaAreGood, are_media_good, are_objects_below, are_objects_good, are_rows_good, are_segments_below, can_take, media_if, no_media, with_allocated, with_stored};
ghost use Rattle.media_book.specs.Within.Restoring.{can_come, can_follow, can_hold, with_objects, with_segments_behind};

use crate::MediaBook;
use disk_trait::{Duplicate, Memory};
use media_rows::{BookFault, Digest, Extent, ObjectRow, ObjectState, SegmentRow};
use std::alloc::Global;
use time_range::TimeRange;

impl MediaBook {
    /// The book of these segments and objects and of so many media blocks. `None` comes exactly where they are the
    /// media of no good library: segments and objects stand by rising serial, no two objects have one id, extents
    /// are disjoint and lie within the blocks, each segment is bounded at both ends and its object is stored, and
    /// no two segments of a flow overlap.
    pub fn from_rows(
        alloc: Global,
        blocks: u64,
        segments: &[SegmentRow],
        objects: &[ObjectRow],
    ) -> Result<Option<MediaBook>, Memory>
        ensures { let rows : Media = record { blocks = blocks; segments = segments.now; objects = objects.now } in
            IfOk result (λ media. only_media media
            ≡ media_if (are_media_good rows) rows) }
    {
        match MediaBook::of_objects(alloc, blocks, objects)? {
            Some(bare) => bare.with_segments(alloc, segments),
            None => Ok(None),
        }
    }

    /// The book of these objects alone.
    fn of_objects(
        alloc: Global,
        blocks: u64,
        objects: &[ObjectRow],
    ) -> Result<Option<MediaBook>, Memory>
        ensures { IfOk result (λ media. only_media media
            ≡ media_if (are_objects_good blocks objects.now) (with_objects objects.now (no_media blocks))) }
    {
        let mut media = MediaBook::empty(alloc, blocks)?;
        for index in 0..objects.len() {
            match media.with_next_object(alloc, &objects[..index], &objects[index])? {
                Some(next) => media = next,
                None => return Ok(None),
            }
        }
        Ok(Some(media))
    }

    /// Adds an object as its row has it behind all others, which are these.
    fn with_next_object(
        &self,
        alloc: Global,
        front: &[ObjectRow],
        row: &ObjectRow,
    ) -> Result<Option<MediaBook>, Memory>
        requires front { front.now ≡ self.now.media.objects }
        ensures { IfOk result (λ media. only_media media
            ≡ media_if (can_follow self.now.media row.now) (with_objects (row.now ∷ []) self.now.media)) }
    {
        self.is_in_order();
        if !is_behind_objects(front, row.serial) {
            return Ok(None);
        }
        match self.with_object(alloc, &row.id, row.serial, row.idle_since) {
            Ok(bare) => self.with_state(alloc, bare, row),
            Err(BookFault::Refused(_)) => Ok(None),
            Err(BookFault::Memory) => Err(Memory),
        }
    }

    /// The book with a new object, which has no bytes in `bare`, in the state of its row.
    fn with_state(
        &self,
        alloc: Global,
        bare: MediaBook,
        row: &ObjectRow,
    ) -> Result<Option<MediaBook>, Memory>
        requires new { IsFalse (is_some (object_of row.now.id self.now.media.objects)) }
        requires bare { bare.media
            ≡ with_allocated row.now.serial row.now.idle_since (row.now.id ∷ []) self.now.media }
        ensures { IfOk result (λ media. only_media media
            ≡ media_if (can_hold self.now.media row.now.state) (with_objects (row.now ∷ []) self.now.media)) }
    {
        match row.state {
            ObjectState::Allocated => Ok(Some(bare)),
            ObjectState::Stored {
                start_block,
                length,
                digest,
            } => {
                let extent = Extent {
                    start: start_block,
                    length,
                };
                if !self.takes(extent) {
                    return Ok(None);
                }
                stored(alloc, &bare, row, extent, digest)
            }
        }
    }

    /// Adds these segments to a book without any.
    fn with_segments(
        &self,
        alloc: Global,
        segments: &[SegmentRow],
    ) -> Result<Option<MediaBook>, Memory>
        requires none { self.now.media.segments ≡ [] }
        ensures { IfOk result (λ media. only_media media
            ≡ media_if
            (are_rows_good self.now.media.objects segments.now) (with_segments_behind segments.now self.now.media)) }
    {
        let mut media = self.share(alloc)?;
        for index in 0..segments.len() {
            match media.with_next_segment(alloc, &segments[..index], &segments[index])? {
                Some(next) => media = next,
                None => return Ok(None),
            }
        }
        Ok(Some(media))
    }

    /// Adds a segment behind all others, which are these.
    fn with_next_segment(
        &self,
        alloc: Global,
        front: &[SegmentRow],
        row: &SegmentRow,
    ) -> Result<Option<MediaBook>, Memory>
        requires front { front.now ≡ self.now.media.segments }
        ensures { IfOk result (λ media. only_media media
            ≡ media_if (can_come self.now.media row.now) (with_segments_behind (row.now ∷ []) self.now.media)) }
    {
        self.is_in_order();
        if !is_behind_segments(front, row.serial) || !has_both_ends(&row.segment.range) {
            return Ok(None);
        }
        match self.with_row(alloc, row.duplicate(alloc)?) {
            Ok(next) => Ok(Some(next)),
            Err(BookFault::Refused(_)) => Ok(None),
            Err(BookFault::Memory) => Err(Memory),
        }
    }
}

/// A law: the media of a good library are good.
pub fn media_are_good()
    ensures { MediaAreGood }
{}

/// The book in which the last object, which is that of a row, has its bytes.
fn stored(
    alloc: Global,
    bare: &MediaBook,
    row: &ObjectRow,
    extent: Extent,
    digest: Option<Digest>,
) -> Result<Option<MediaBook>, Memory>
    requires place { IsTrue (can_take bare.now.media extent) }
    requires bare { keep_refusal (object_of row.now.id bare.now.media.objects) ≡ None }
    ensures { IfOk result (λ media. only_media media
        ≡ Some (with_stored row.now.id extent digest row.now.idle_since bare.now.media)) }
{
    match bare.store(alloc, &row.id, extent, digest, row.idle_since) {
        Ok(next) => Ok(Some(next)),
        Err(BookFault::Refused(_)) => unreachable!(),
        Err(BookFault::Memory) => Err(Memory),
    }
}

/// Whether a serial is above those of objects that stand by rising serial.
fn is_behind_objects(objects: &[ObjectRow], serial: u64) -> bool
    requires rising { IsTrue (rises_by (λ row. row.serial) objects.now) }
    ensures { result ≡ are_objects_below serial objects.now }
{
    match objects.last() {
        Some(last) => last.serial < serial,
        None => true,
    }
}

/// Whether a serial is above those of segments that stand by rising serial.
fn is_behind_segments(segments: &[SegmentRow], serial: u64) -> bool
    requires rising { IsTrue (rises_by (λ row. row.serial) segments.now) }
    ensures { result ≡ are_segments_below serial segments.now }
{
    match segments.last() {
        Some(last) => last.serial < serial,
        None => true,
    }
}

/// Whether a range isn't never and is open at neither end.
fn has_both_ends(range: &TimeRange) -> bool
    ensures { result ≡ has_both_ends range.now }
{
    range.low().is_some() && range.high().is_some()
}
