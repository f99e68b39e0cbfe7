//! The book and its looks.
ghost use Rattle.std.specs.Prelude.{◌≡◌, ◌-◌, ◌^◌, IfOk, IsTrue, is_some, length, min, option_copied, option_map};
ghost use Rattle.media_rows.specs.Good.{are_object_ids_distinct, rises_by};
ghost use Rattle.media_rows.specs.Objects.{due_objects, flows_naming, free_place, object_of, reference_count};
ghost use Rattle.media_rows.specs.Segments.{hull_of_segments, overlapping, segments_of};
ghost use Rattle.media_rows.specs.Views.{shown_object, shown_segments};
ghost use Rattle.segment_book.specs.Answers.{is_flow_met};
ghost use Rattle.shared_tree.specs.Pairs.{first};
ghost use Rattle.media_book.specs.Media.{library_with, no_media, stored_bytes};

use disk_trait::{Duplicate, Memory, Text};
use media_rows::{IdList, ObjectList, ObjectRow, Page, SegmentFilter, View};
use object_blobs::Space;
use object_refs::ObjectBook;
use reference_laws::{counts_are_same, due_are_same, flows_are_same};
use segment_book::SegmentBook;
use std::alloc::Global;
use std::marker::Model;
use time_range::TimeRange;

/// Segments and objects by rising serial, and which media blocks are free, as a library has them. A change
/// makes a new book and leaves this one as it is; moments are seconds since 1970-01-01T00:00:00Z. The row of
/// the object that was stored last may be held apart, where its digest can still be set; a book is seen with
/// that object's serial.
#[derive(Drop)]
pub struct MediaBook {
    pub(crate) segments: SegmentBook,
    pub(crate) objects: ObjectBook,
    pub(crate) space: Space,
    /// The bytes of all stored objects.
    pub(crate) bytes: u64,
}

impl Model for MediaBook {
    ghost use Rattle.media_book.specs.Media.{HeldMedia};
    ghost use Rattle.media_book.specs.Within.Ties.{IsMedia, held_seen};

    ghost Value = { HeldMedia };

    ghost view = { λ b. held_seen b.segments b.objects b.space };

    ghost invariant = { λ b. IsMedia b.segments b.objects.kept b.space b.bytes };
}

impl MediaBook {
    /// A book without segments and objects, of so many media blocks.
    pub fn empty(alloc: Global, blocks: u64) -> Result<MediaBook, Memory>
        ensures { IfOk result (λ next. next.media ≡ no_media blocks) }
    {
        Ok(MediaBook {
            segments: SegmentBook::empty(),
            objects: ObjectBook::empty(),
            space: Space::new(alloc, blocks)?,
            bytes: 0,
        })
    }

    /// The same book once more, with a copy of the row that is held apart.
    pub fn share(&self, alloc: Global) -> Result<MediaBook, Memory>
        ensures { IfOk result (λ media. media ≡ self.now) }
    {
        Ok(MediaBook {
            segments: self.segments.share()?,
            objects: self.objects.share(alloc)?,
            space: self.space.share()?,
            bytes: self.bytes,
        })
    }

    /// The object of this id, if it is kept, be it allocated or stored. It takes no memory.
    pub fn object(&self, id: &Text) -> Option<&ObjectRow>
        ensures { option_copied result ≡ object_of id.now self.now.media.objects }
    {
        self.objects.find(id)
    }

    /// The least place at which so many media blocks are free in a row, and `None` exactly where there is none.
    /// No blocks are placed at 0. It takes no memory.
    pub fn place(&self, blocks: u64) -> Option<u64>
        ensures { result ≡ free_place self.now.media.objects self.now.media.blocks blocks }
    {
        self.space.place(blocks)
    }

    /// The object that is swept first, if one is due. It takes no memory.
    pub fn first_due(&self, now: u64) -> Option<&ObjectRow>
        ensures { option_copied result
            ≡ first (due_objects self.now.media.segments self.now.media.objects now) }
    {
        due_are_same();
        self.objects.first_idle(now)
    }

    /// The least range that covers all segments of a flow, and never where there are none.
    pub fn hull(&self, flow: u128) -> TimeRange
        ensures { result ≡ hull_of_segments (segments_of flow self.now.media.segments) }
    {
        self.segments.hull(flow)
    }

    /// The number of segments of a flow, or the last value of a `u64` where there are more.
    pub fn flow_len(&self, flow: u128) -> u64
        ensures { result ≡ min (length (segments_of flow self.now.media.segments)) (2 ^ 64 - 1) }
    {
        self.segments.flow_len(flow)
    }

    /// Whether a segment of a flow has a point in a range.
    pub fn is_met(&self, alloc: Global, flow: u128, range: &TimeRange) -> Result<bool, Memory>
        ensures { IfOk result (λ met. met ≡ is_flow_met self.now.media.segments flow range.now) }
    {
        self.segments.is_met(alloc, flow, range)
    }

    /// A page of the segments of a flow that have a point in a range and name an object, where one is asked for.
    pub fn page(
        &self,
        alloc: Global,
        flow: u128,
        wanted: &SegmentFilter,
        page: &Page,
    ) -> Result<View, Memory>
        ensures { IfOk result (λ view. view ≡ shown_segments page.now
            (overlapping self.now.media.segments flow wanted.now.range wanted.now.object)) }
    {
        self.segments.page(alloc, flow, wanted, page)
    }

    /// The flows whose segments name a kept object, by rising id, each once.
    pub fn flows_of(&self, alloc: Global, id: &Text) -> Result<IdList, Memory>
        requires kept { IsTrue (is_some (object_of id.now self.now.media.objects)) }
        ensures { IfOk result (λ flows. flows ≡ flows_naming self.now.media.segments id.now) }
    {
        flows_are_same();
        self.objects.is_in_order();
        self.objects.flows_of(alloc, id)
    }

    /// The number of segments that name a kept object. It takes no memory.
    pub fn references(&self, id: &Text) -> u64
        requires kept { IsTrue (is_some (object_of id.now self.now.media.objects)) }
        ensures { result ≡ reference_count self.now.media.segments id.now }
    {
        counts_are_same();
        self.objects.is_in_order();
        self.objects.count(id)
    }

    /// What is shown of the object of an id, if it is kept: it and the flows whose segments name it.
    pub fn shown_object(&self, alloc: Global, id: &Text) -> Result<Option<View>, Memory>
        ensures { IfOk result (λ view. view ≡ option_map (shown_object (library_with self.now.media 0))
            (object_of id.now self.now.media.objects)) }
    {
        match self.object(id) {
            Some(row) => {
                let flows = self.flows_of(alloc, id)?;
                Ok(Some(View::Object {
                    row: row.duplicate(alloc)?,
                    flows,
                }))
            }
            None => Ok(None),
        }
    }

    /// The number of segments.
    pub fn segment_count(&self) -> u64
        ensures { result ≡ length self.now.media.segments }
    {
        self.segments.len()
    }

    /// The number of objects, or the last value of a `u64` where there are more.
    pub fn object_count(&self) -> u64
        ensures { result ≡ min (length self.now.media.objects) (2 ^ 64 - 1) }
    {
        self.objects.object_count()
    }

    /// The number of the bytes of all stored objects.
    pub fn stored_bytes(&self) -> u64
        ensures { result ≡ stored_bytes self.now.media.objects }
    {
        self.bytes
    }

    /// A law: segments and objects stand by rising serial, and no two objects have one id.
    pub fn is_in_order(&self)
        ensures segments { IsTrue (rises_by (λ row. row.serial) self.now.media.segments) }
        ensures objects { IsTrue (rises_by (λ row. row.serial) self.now.media.objects) }
        ensures ids { IsTrue (are_object_ids_distinct self.now.media.objects) }
    {
        self.objects.is_in_order();
    }

    /// All objects, by rising serial.
    pub fn object_rows(&self, alloc: Global) -> Result<ObjectList, Memory>
        ensures { IfOk result (λ rows. rows ≡ self.now.media.objects) }
    {
        self.objects.list(alloc)
    }
}
