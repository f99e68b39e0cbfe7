//! Segments that come and go.
ghost use Rattle.std.specs.Prelude.{◌≡◌, ◌+◌, ◌<◌, ◌^◌, ◌∷◌, [], Contains, IfOk, IsTrue, length};
ghost use Rattle.media_rows.specs.Posts.{posts_refusal};
ghost use Rattle.media_rows.specs.Ranges.{has_both_ends};
ghost use Rattle.media_rows.specs.Refusals.{IsChange};
ghost use Rattle.media_rows.specs.Sound.{are_posts_good};
ghost use Rattle.media_book.specs.Media.{given_media, AreSome, PostsAreRefusedAlike, are_segments_below, library_with, with_posts, without_rows};
ghost use Rattle.media_book.specs.Within.Ties.{row_refusal};

use crate::MediaBook;
use disk_trait::{Duplicate, Memory};
use media_rows::{BookFault, Segment, SegmentRow};
use reference_laws::{references_come, references_go};
use std::alloc::Global;

impl MediaBook {
    /// Adds the segments of a post to a flow, with rising serials from this one on, which is above those of all
    /// segments. Each is bounded at both ends. It is refused as the library refuses a post, by the first
    /// segment whose object isn't stored (`NoObject`) or that overlaps one of its flow (`Overlap`).
    pub fn add(
        &self,
        alloc: Global,
        flow: u128,
        posts: &[Segment],
        serial: u64,
    ) -> Result<MediaBook, BookFault>
        requires bounded { IsTrue (are_posts_good posts.now) }
        requires above { IsTrue (are_segments_below serial self.now.media.segments) }
        requires fits { serial + length posts.now < 2 ^ 64 }
        ensures { IsChange (posts_refusal (library_with self.now.media serial) flow posts.now)
            (with_posts flow serial posts.now self.now.media) (given_media result) }
    {
        let mut media = self.share(alloc)?;
        for index in 0..posts.len() {
            let row = SegmentRow {
                flow,
                serial: serial + index as u64,
                segment: posts[index].duplicate(alloc)?,
            };
            match media.with_row(alloc, row) {
                Ok(next) => media = next,
                Err(fault) => return Err(fault),
            }
        }
        Ok(media)
    }

    /// Adds one of them.
    pub(crate) fn with_row(&self, alloc: Global, row: SegmentRow) -> Result<MediaBook, BookFault>
        requires bounded { IsTrue (has_both_ends row.segment.range) }
        requires above { IsTrue (are_segments_below row.serial self.now.media.segments) }
        ensures { IsChange (row_refusal self.now.media row)
            (with_posts row.flow row.serial (row.segment ∷ []) self.now.media) (given_media result) }
    {
        references_come();
        let objects = match self.objects.refer(alloc, &row.segment.object, row.flow) {
            Ok(objects) => objects,
            Err(fault) => return Err(fault),
        };
        match self.segments.add(alloc, row) {
            Ok(segments) => Ok(MediaBook {
                segments,
                objects,
                space: self.space.share()?,
                bytes: self.bytes,
            }),
            Err(fault) => Err(fault),
        }
    }

    /// Leaves out these segments. An object that loses its last reference is idle since now.
    pub fn remove(&self, alloc: Global, rows: &[SegmentRow], now: u64) -> Result<MediaBook, Memory>
        requires some { AreSome rows.now self.now.media.segments }
        ensures { IfOk result (λ next. next.media ≡ without_rows rows.now now self.now.media) }
    {
        let mut media = self.share(alloc)?;
        for row in rows {
            media = media.without_row(alloc, row, now)?;
        }
        Ok(media)
    }

    /// Leaves out one of them.
    fn without_row(&self, alloc: Global, row: &SegmentRow, now: u64) -> Result<MediaBook, Memory>
        requires there { Contains self.now.media.segments row.now }
        ensures { IfOk result (λ next. next.media ≡ without_rows (row.now ∷ []) now self.now.media) }
    {
        references_go();
        Ok(MediaBook {
            segments: self.segments.remove(alloc, row)?,
            objects: self
                .objects
                .unrefer(alloc, &row.segment.object, row.flow, now)?,
            space: self.space.share()?,
            bytes: self.bytes,
        })
    }
}

/// A law: a library refuses a post as its media alone do.
pub fn posts_are_refused_alike()
    ensures { PostsAreRefusedAlike }
{}
