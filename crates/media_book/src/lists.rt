//! Lists of segments that are answered segment by segment.
ghost use Rattle.std.specs.Prelude.{◌≡◌, ◌+◌, ◌<◌, ◌^◌, IfOk, IsTrue, length};
ghost use Rattle.media_rows.specs.Sound.{are_posts_good};
ghost use Rattle.media_book.specs.Media.{are_segments_below, list_told, with_posts, ListsAreToldAlike};

use crate::MediaBook;
use disk_trait::{Duplicate, Memory};
use media_rows::{BookFault, Segment, SegmentRow, SortedPosts};
use std::alloc::Global;

/// The media with those segments of a list that are kept, and what is told of each.
#[derive(Drop)]
pub struct ListAdded {
    pub media: MediaBook,
    pub told: SortedPosts,
}

impl MediaBook {
    /// Adds those segments of a list to a flow that aren't refused, with rising serials from this one on,
    /// which is above those of all segments. Each is bounded at both ends. One whose object isn't stored
    /// (`NoObject`), or that overlaps one of its flow (`Overlap`), the ones of the list before it that are kept
    /// among them, fails and takes no serial.
    pub fn add_list(
        &self,
        alloc: Global,
        flow: u128,
        posts: &[Segment],
        serial: u64,
    ) -> Result<ListAdded, Memory>
        requires bounded { IsTrue (are_posts_good posts.now) }
        requires above { IsTrue (are_segments_below serial self.now.media.segments) }
        requires fits { serial + length posts.now < 2 ^ 64 }
        ensures told { IfOk result (λ added. added.told ≡ list_told self.now.media serial flow posts.now) }
        ensures media { IfOk result (λ added.
            added.media.media ≡ with_posts flow serial added.told.kept self.now.media) }
    {
        let mut media = self.share(alloc)?;
        let mut told = SortedPosts::new(alloc);
        let mut next = serial;
        for post in posts {
            let row = SegmentRow {
                flow,
                serial: next,
                segment: post.duplicate(alloc)?,
            };
            match media.with_row(alloc, row) {
                Ok(more) => {
                    media = more;
                    next += 1;
                    told.kept.push(post.duplicate(alloc)?)?;
                }
                Err(BookFault::Refused(refusal)) => told.failed.push(post.failed(alloc, refusal)?)?,
                Err(BookFault::Memory) => return Err(Memory),
            }
        }
        Ok(ListAdded { media, told })
    }
}

/// A law: a library tells a list as its media alone do.
pub fn lists_are_told_alike()
    ensures { ListsAreToldAlike }
{}
