//! The store and its looks.
ghost use Rattle.std.specs.Prelude.{◌≡◌, IfOk, is_some};
ghost use Rattle.media_rows.specs.Good.{Good};
ghost use Rattle.media_rows.specs.Objects.{object_of};
ghost use Rattle.store_core.specs.Prepared.{counts_of, stored_objects};
ghost use Rattle.store_states.specs.States.{media_start};
ghost use Rattle.media_store.specs.Stores.{extent_of};

use crate::Put;
use disk_trait::{Memory, Text};
use media_journal::{BLOCK, Journal};
use media_rows::{Extent, ObjectList, ObjectState};
use std::alloc::Global;
use std::marker::Model;
use store_core::{Core, Counts};

/// A store that was opened. The bytes of its objects stay on the disk, which is handed to each call that needs
/// it. While a put is under way it takes no change but the put's.
#[derive(Drop)]
pub struct Store {
    pub(crate) library: Core,
    pub(crate) journal: Journal,
    pub(crate) spent: bool,
    pub(crate) put: Option<Put>,
}

impl Model for Store {
    ghost use Rattle.std.specs.Prelude.{◌≡◌, false};
    ghost use Rattle.media_store.specs.Puts.{IsStore};
    ghost use Rattle.media_store.specs.Stores.{StoreSeen};

    ghost Value = { StoreSeen };

    ghost view = { λ s. record {
      kept = record { library = s.library.library; journal = s.journal };
      spent = s.spent;
      put = s.put;
    } };

    ghost invariant = { λ s. s.spent ≡ false
        → IsStore (record { library = s.library.library; journal = s.journal }) s.put };
}

impl Store {
    /// Lets the store go. What was changed stands in its file already.
    pub fn close(self) {}

    /// Whether a call of the disk failed. Then the store must be opened again.
    pub fn spent(&self) -> bool
        ensures { result ≡ self.now.spent }
    {
        self.spent
    }

    /// Whether a put is under way.
    pub fn has_put(&self) -> bool
        ensures { result ≡ is_some self.now.put }
    {
        self.put.is_some()
    }

    /// A store's library is a good one, which is told to callers here. It does nothing.
    pub fn keeps_good(&self)
        ensures { Good self.now.kept.library }
    {
        self.library.keeps_good();
    }

    /// The library as it stands, for questions. It takes no memory.
    pub fn core(&self) -> &Core
        ensures { result.now.library ≡ self.now.kept.library }
    {
        &self.library
    }

    /// The store's id.
    pub fn id(&self) -> u128
        ensures { result ≡ self.now.kept.library.id }
    {
        self.library.id()
    }

    /// How much is kept. It takes no memory.
    pub fn counts(&self) -> Counts
        ensures { result ≡ counts_of self.now.kept.library }
    {
        self.library.counts()
    }

    /// The rows of all stored objects, by rising serial.
    pub fn stored(&self, alloc: Global) -> Result<ObjectList, Memory>
        ensures { IfOk result (λ rows. rows ≡ stored_objects self.now.kept.library.objects) }
    {
        self.library.stored(alloc)
    }

    /// Where the bytes of the object of this id lie, in media blocks and bytes; `None` exactly where it isn't
    /// stored. It takes no memory.
    pub fn extent_of(&self, object: &Text) -> Option<Extent>
        ensures { result ≡ extent_of (object_of object.now self.now.kept.library.objects) }
    {
        let row = self.library.object(object)?;
        match row.state {
            ObjectState::Allocated => None,
            ObjectState::Stored {
                start_block,
                length,
                ..
            } => Some(Extent {
                start: start_block,
                length,
            }),
        }
    }

    /// Where the media blocks begin in the file, in bytes.
    pub(crate) fn area(&self) -> u64
        ensures { result ≡ media_start self.now.kept.journal.half }
    {
        BLOCK * (2 * self.journal.half() + 2)
    }
}
