//! Objects that come and are stored.
ghost use Rattle.std.specs.Prelude.{◌≡◌, ◌+◌, ◌<◌, ◌/◌, ◌^◌, ◌∷◌, [], IfOk, IsTrue, is_some, length};
ghost use Rattle.media_rows.specs.Answer.{keep_refusal};
ghost use Rattle.media_rows.specs.Objects.{blocks_of, object_of};
ghost use Rattle.media_rows.specs.Refusals.{IsChange, when};
ghost use Rattle.media_rows.specs.declared.refusal.Refusal.TheVariants.{IdTaken};
ghost use Rattle.media_book.specs.Media.{allocation_refusal, are_objects_below, can_take, given_media, media_digested, serial_in, with_allocated, with_stored};

use crate::MediaBook;
use disk_trait::{Memory, Text};
use media_rows::{BookFault, Digest, Extent};
use object_blobs::BLOCK;
use reference_laws::{objects_change, objects_come};
use std::alloc::Global;

impl MediaBook {
    /// Adds objects without bytes, with rising serials from this one on, which is above those of all objects,
    /// idle since now. It is refused as `IdTaken` for the first id that an object has or that the list repeats.
    pub fn allocate(
        &self,
        alloc: Global,
        ids: &[Text],
        serial: u64,
        now: u64,
    ) -> Result<MediaBook, BookFault>
        requires above { IsTrue (are_objects_below serial self.now.media.objects) }
        requires fits { serial + length ids.now < 2 ^ 64 }
        ensures { IsChange (allocation_refusal self.now.media ids.now)
            (with_allocated serial now ids.now self.now.media) (given_media result) }
    {
        let mut media = self.share(alloc)?;
        for index in 0..ids.len() {
            match media.with_object(alloc, &ids[index], serial + index as u64, now) {
                Ok(next) => media = next,
                Err(fault) => return Err(fault),
            }
        }
        Ok(media)
    }

    /// Adds one of them.
    pub(crate) fn with_object(
        &self,
        alloc: Global,
        id: &Text,
        serial: u64,
        now: u64,
    ) -> Result<MediaBook, BookFault>
        requires above { IsTrue (are_objects_below serial self.now.media.objects) }
        ensures { IsChange (when (is_some (object_of id.now self.now.media.objects)) (IdTaken id.now))
            (with_allocated serial now (id.now ∷ []) self.now.media) (given_media result) }
    {
        objects_come();
        match self.objects.allocate(alloc, id, serial, now) {
            Ok(objects) => Ok(MediaBook {
                segments: self.segments.share()?,
                objects,
                space: self.space.share()?,
                bytes: self.bytes,
            }),
            Err(fault) => Err(fault),
        }
    }

    /// Whether the blocks of an extent are free, so that an object may have its bytes there. An extent without
    /// bytes begins at block 0. It takes no memory.
    pub fn takes(&self, extent: Extent) -> bool
        ensures { result ≡ can_take self.now.media extent }
    {
        if extent.length == 0 {
            return extent.start == 0;
        }
        self.space.is_free(extent.start, blocks_of(extent.length))
    }

    /// Notes that an object has its bytes, at a place whose blocks are free and with their digest where one is
    /// kept, and is idle since now. It is refused as `UnknownObject` where there is no such object, and as
    /// `OtherBytes` where it has its bytes already. Its row is held apart then. A number of all bytes that passes a `u64` is want of memory.
    pub fn store(
        &self,
        alloc: Global,
        id: &Text,
        extent: Extent,
        digest: Option<Digest>,
        now: u64,
    ) -> Result<MediaBook, BookFault>
        requires place { IsTrue (can_take self.now.media extent) }
        ensures media { IsChange (keep_refusal (object_of id.now self.now.media.objects))
            (with_stored id.now extent digest now self.now.media) (given_media result) }
        ensures apart { IfOk result (λ next. next.apart ≡ serial_in id.now self.now.media) }
    {
        objects_change();
        self.objects.is_in_order();
        match self.objects.mark_stored(alloc, id, extent, digest, now) {
            Ok(objects) => Ok(MediaBook {
                segments: self.segments.share()?,
                objects,
                space: self
                    .space
                    .take(alloc, extent.start, blocks_of(extent.length))?,
                bytes: total(self.bytes, extent.length)?,
            }),
            Err(fault) => Err(fault),
        }
    }

    /// Sets the digest of the object whose row is held apart. It takes no memory.
    pub fn set_digest(&mut self, digest: Digest)
        requires apart { IsTrue (is_some self.old.apart) }
        ensures { self.new ≡ media_digested digest self.old }
    {
        self.objects.set_digest(digest);
    }
}

/// The blocks that so many bytes take.
pub(crate) fn blocks_of(bytes: u64) -> u64
    ensures { result ≡ blocks_of bytes }
{
    bytes.div_ceil(BLOCK)
}

/// Two numbers of bytes together. One that passes a `u64` is want of memory.
fn total(bytes: u64, more: u64) -> Result<u64, Memory>
    ensures { IfOk result (λ all. all ≡ bytes + more) }
{
    bytes.checked_add(more).ok_or(Memory)
}
