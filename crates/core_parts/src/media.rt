//! Objects that come and are stored, and segments that come.
ghost use Rattle.std.specs.Prelude.{◌≡◌, IfOk, IsTrue};
ghost use Rattle.media_book.specs.Media.{media_of, serial_in};
ghost use Rattle.media_rows.specs.declared.change.Change.TheVariants as changes;
ghost use Rattle.media_rows.specs.Answer.{keep_refusal, posting_refusal};
ghost use Rattle.media_rows.specs.Changes.{after};
ghost use Rattle.media_rows.specs.Objects.{object_of};
ghost use Rattle.media_rows.specs.Refusals.{IsChange};
ghost use Rattle.media_rows.specs.Segments.{list_post};
ghost use Rattle.media_rows.specs.Sound.{are_posts_good};
ghost use Rattle.core_parts.specs.Conditions.{HasRoom, IsReady, allocate_refusal};
ghost use Rattle.core_parts.specs.Parts.{apart_in, given_library, within_serials};

use crate::Parts;
use disk_trait::Text;
use media_book::posts_are_refused_alike;
use media_rows::{BookFault, Digest, Extent, ObjectState, Refusal, Segment};
use std::alloc::Global;

impl Parts {
    /// Adds objects without bytes for a flow, with the next serials, idle since now. A number of serials that
    /// passes a `u64` is want of memory.
    pub fn allocate(
        &self,
        alloc: Global,
        flow: u128,
        ids: &[Text],
        now: u64,
    ) -> Result<Option<Parts>, BookFault>
        requires ready { IsReady self.now.library }
        ensures { IsChange (allocate_refusal self.now.library flow ids.now)
            (within_serials (after (changes.Allocate now flow ids.now) self.now.library)) (given_library result) }
    {
        let refusal = self.registry.change_refusal(flow);
        if let Some(why) = refusal {
            return Err(BookFault::Refused(why));
        }
        let serial = self.registry.next_serial();
        let count = ids.len() as u64;
        if count > u64::MAX - serial {
            return Err(BookFault::Memory);
        }
        match self.media.allocate(alloc, ids, serial, now) {
            Ok(media) => {
                let registry = self.registry.take_serials(count)?;
                Ok(self.with_both(media, registry))
            }
            Err(fault) => Err(fault),
        }
    }

    /// Notes that an object has its bytes at a place, with their digest where one is kept, and is idle since
    /// now. A number of all bytes that passes a `u64` is want of memory.
    pub fn store(
        &self,
        alloc: Global,
        object: &Text,
        extent: Extent,
        digest: Option<Digest>,
        now: u64,
    ) -> Result<Option<Parts>, BookFault>
        requires ready { IsReady self.now.library }
        requires room { HasRoom self.now.library object.now extent }
        ensures library { IsChange (keep_refusal (object_of object.now self.now.library.objects))
            (within_serials (after
            (changes.Store now object.now extent.start extent.length digest) self.now.library))
            (given_library result) }
        ensures apart { IfOk result
            (λ next. apart_in next ≡ serial_in object.now (media_of self.now.library)) }
    {
        let refusal = self.keep_refusal(object);
        if let Some(why) = refusal {
            return Err(BookFault::Refused(why));
        }
        match self.media.store(alloc, object, extent, digest, now) {
            Ok(media) => Ok(Some(Parts::of(self.id, media, self.registry.share()?))),
            Err(fault) => Err(fault),
        }
    }

    /// Why an object isn't to get bytes: it isn't kept, or has its bytes already.
    pub fn keep_refusal(&self, object: &Text) -> Option<Refusal>
        ensures { result ≡ keep_refusal (object_of object.now self.now.library.objects) }
    {
        match self.media.object(object) {
            None => Some(Refusal::UnknownObject),
            Some(row) => match row.state {
                ObjectState::Allocated => None,
                ObjectState::Stored { .. } => Some(Refusal::OtherBytes),
            },
        }
    }

    /// Adds the segments of a post to a flow, all or none, with the next serials. A number of serials that passes
    /// a `u64` is want of memory.
    pub fn add(
        &self,
        alloc: Global,
        flow: u128,
        posts: &[Segment],
        now: u64,
    ) -> Result<Option<Parts>, BookFault>
        requires ready { IsReady self.now.library }
        requires bounded { IsTrue (are_posts_good posts.now) }
        ensures { IsChange (posting_refusal self.now.library flow posts.now)
            (within_serials (after (changes.AddSegments now flow (list_post posts.now)) self.now.library)) (given_library result) }
    {
        posts_are_refused_alike();
        let refusal = self.registry.change_refusal(flow);
        if let Some(why) = refusal {
            return Err(BookFault::Refused(why));
        }
        let serial = self.registry.next_serial();
        if (posts.len() as u64) > u64::MAX - serial {
            return Err(BookFault::Memory);
        }
        match self.media.add(alloc, flow, posts, serial) {
            Ok(media) => {
                let registry = self.registry.add_segments(alloc, flow, posts, now)?;
                Ok(self.with_both(media, registry))
            }
            Err(fault) => Err(fault),
        }
    }
}
