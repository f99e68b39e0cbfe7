//! The two parts of a library, and its looks.
ghost use Rattle.std.specs.Prelude.{◌≡◌, IfOk, IsTrue, is_some};
ghost use Rattle.media_rows.specs.Library.{empty_library};
ghost use Rattle.media_book.specs.Media.{media_of};
ghost use Rattle.core_registry.specs.Registry.{registry_of};
ghost use Rattle.core_parts.specs.Parts.{held_media_of, held_of_parts, library_digested, made_of, only_library};

use core_registry::Registry;
use disk_trait::Memory;
use media_book::MediaBook;
use media_rows::Digest;
use std::alloc::Global;
use std::marker::Model;

/// A library of this id. A change makes new parts, which share with these what the change leaves;
/// moments are seconds since 1970-01-01T00:00:00Z. Where a change would bring the next serial past its
/// last value, there are no new parts. The row of the object that was stored last may be held apart, where its
/// digest can still be set; parts are seen with that object's serial.
#[derive(Drop)]
pub struct Parts {
    pub(crate) id: u128,
    pub(crate) media: MediaBook,
    pub(crate) registry: Registry,
}

impl Model for Parts {
    ghost use Rattle.core_parts.specs.Parts.{HeldLibrary, held_of_parts};

    ghost Value = { HeldLibrary };

    ghost view = { λ p. held_of_parts p.id p.media p.registry };
}

impl Parts {
    /// The library of a new store, with its id and the number of its media blocks.
    pub fn empty(alloc: Global, id: u128, blocks: u64) -> Result<Parts, Memory>
        ensures { IfOk result (λ parts. parts.library ≡ empty_library id blocks) }
    {
        Ok(Parts {
            id,
            media: MediaBook::empty(alloc, blocks)?,
            registry: Registry::empty(alloc)?,
        })
    }

    /// The library of this id that has these media, and all else of this registry. It takes no memory.
    pub fn of(id: u128, media: MediaBook, registry: Registry) -> Parts
        ensures { result ≡ held_of_parts id media registry }
    {
        Parts {
            id,
            media,
            registry,
        }
    }

    /// The same library once more, with a copy of the row that is held apart.
    pub fn share(&self, alloc: Global) -> Result<Parts, Memory>
        ensures { IfOk result (λ parts. parts ≡ self.now) }
    {
        Ok(Parts {
            id: self.id,
            media: self.media.share(alloc)?,
            registry: self.registry.share()?,
        })
    }

    /// The store's id.
    pub fn id(&self) -> u128
        ensures { result ≡ self.now.library.id }
    {
        self.id
    }

    /// Segments, objects and media blocks.
    pub fn media(&self) -> &MediaBook
        ensures { result.now ≡ held_media_of self.now }
    {
        &self.media
    }

    /// All else.
    pub fn registry(&self) -> &Registry
        ensures { result.now ≡ registry_of self.now.library }
    {
        &self.registry
    }

    /// Sets the digest of the object whose row is held apart. It takes no memory.
    pub fn set_digest(&mut self, digest: Digest)
        requires apart { IsTrue (is_some self.old.apart) }
        ensures { self.new ≡ library_digested digest self.old }
    {
        self.media.set_digest(digest);
    }

    /// The library with this registry, where there is one.
    pub(crate) fn with_registry(
        &self,
        alloc: Global,
        registry: Option<Registry>,
    ) -> Result<Option<Parts>, Memory>
        ensures { IfOk result (λ next. only_library next
            ≡ made_of self.now.library.id (media_of self.now.library) registry) }
    {
        match registry {
            None => Ok(None),
            Some(registry) => Ok(Some(Parts {
                id: self.id,
                media: self.media.share(alloc)?,
                registry,
            })),
        }
    }

    /// The library with these media, and with this registry, where there is one. It takes no memory.
    pub(crate) fn with_both(&self, media: MediaBook, registry: Option<Registry>) -> Option<Parts>
        ensures { only_library result ≡ made_of self.now.library.id media.media registry }
    {
        match registry {
            None => None,
            Some(registry) => Some(Parts {
                id: self.id,
                media,
                registry,
            }),
        }
    }
}
