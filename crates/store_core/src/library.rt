//! The core and its looks.
ghost use Rattle.std.specs.Prelude.{◌≡◌, ◌≤◌, ◌∷◌, ◌++◌, [], IfOk, IfSome, OnOk, option_copied};
ghost use Rattle.media_rows.specs.Good.{Good};
ghost use Rattle.media_rows.specs.Library.{empty_library};
ghost use Rattle.media_rows.specs.Objects.{free_place, object_of};
ghost use Rattle.media_rows.specs.Outbox.{waiting_for};
ghost use Rattle.shared_tree.specs.Pairs.{first};
ghost use Rattle.store_core.specs.Prepared.{counts_of, stored_objects};
ghost use Rattle.webhook_outbox.specs.Ordered.{IsLeastFor, IsNextHook, next_hook};

use crate::Prepared;
use core_parts::Parts;
use disk_trait::{Duplicate, Listed, Memory, Text};
use media_rows::{EventRow, HookRow, ObjectList, ObjectRow, ObjectState};
use std::alloc::Global;
use std::marker::Model;

/// A good library. What a command or a turn makes of it is prepared apart, as another core, which shares with this one all
/// that the change leaves. The row of the object that was stored last may be held apart, where its digest can still be set;
/// a core is seen with that object's serial.
#[derive(Drop)]
pub struct Core {
    pub(crate) parts: Parts,
}

impl Model for Core {
    ghost use Rattle.media_rows.specs.Good.{Good};
    ghost use Rattle.core_parts.specs.Parts.{HeldLibrary};

    ghost Value = { HeldLibrary };

    ghost view = { λ c. c.parts };

    ghost invariant = { λ c. Good c.parts.library };
}

/// The numbers of rows of each kind, each cut at the last value of its type, and that of the bytes of all stored objects.
#[derive(Clone, Copy, Debug, PartialEq, Eq)]
pub struct Counts {
    pub flows: u64,
    pub segments: u64,
    pub objects: u64,
    pub requests: u64,
    pub hooks: u64,
    pub events: u64,
    pub bytes: u64,
}

impl Core {
    /// The library of a new store, with its id and the number of its media blocks.
    pub fn empty(alloc: Global, id: u128, blocks: u64) -> Result<Core, Memory>
        ensures { IfOk result (λ core. core.library ≡ empty_library id blocks) }
    {
        Ok(Core {
            parts: Parts::empty(alloc, id, blocks)?,
        })
    }

    /// The same library once more, with a copy of the row that is held apart.
    pub fn share(&self, alloc: Global) -> Result<Core, Memory>
        ensures { IfOk result (λ core. core ≡ self.now) }
    {
        Ok(Core {
            parts: self.parts.share(alloc)?,
        })
    }

    /// A core is a good library, which is told to callers here. It does nothing.
    pub fn keeps_good(&self)
        ensures { Good self.now.library }
    {
        // Where a field is read, the invariant is known.
        let _parts = &self.parts;
    }

    /// The store's id.
    pub fn id(&self) -> u128
        ensures { result ≡ self.now.library.id }
    {
        self.parts.id()
    }

    /// The least place at which so many media blocks are free in a row, and `None` exactly where there is none. No blocks
    /// are placed at 0. It takes no memory.
    pub fn place(&self, blocks: u64) -> Option<u64>
        ensures { result ≡ free_place self.now.library.objects self.now.library.blocks blocks }
    {
        self.parts.media().place(blocks)
    }

    /// The object of this id, if it is kept, be it allocated or stored. It takes no memory.
    pub fn object(&self, id: &Text) -> Option<&ObjectRow>
        ensures { option_copied result ≡ object_of id.now self.now.library.objects }
    {
        self.parts.media().object(id)
    }

    /// The hook of least serial above this one; `None` exactly where there is none. It takes no memory.
    pub fn next_hook(&self, after: u64) -> Option<&HookRow>
        ensures next { option_copied result ≡ next_hook after self.now.library.outbox.hooks }
        ensures least { IfSome result (λ row. IsNextHook after self.now.library.outbox.hooks row.now) }
    {
        self.parts.registry().outbox().next_hook(after)
    }

    /// The event of least serial that waits for the hook of this serial; `None` exactly where none does. It takes no
    /// memory.
    pub fn first_event(&self, hook: u64) -> Option<&EventRow>
        ensures first { option_copied result ≡ first (waiting_for hook self.now.library.outbox.events) }
        ensures least { IfSome result
            (λ row. IsLeastFor hook self.now.library.outbox.events row.now) }
    {
        self.parts.registry().outbox().first_of(hook)
    }

    /// How much is kept. It takes no memory.
    pub fn counts(&self) -> Counts
        ensures { result ≡ counts_of self.now.library }
    {
        let media = self.parts.media();
        let registry = self.parts.registry();
        Counts {
            flows: registry.catalog().flow_count(),
            segments: media.segment_count(),
            objects: media.object_count(),
            requests: registry.requests().request_count(),
            hooks: registry.outbox().hook_count(),
            events: registry.outbox().event_count(),
            bytes: media.stored_bytes(),
        }
    }

    /// The rows of all objects, by rising serial.
    pub fn objects(&self, alloc: Global) -> Result<ObjectList, Memory>
        ensures { IfOk result (λ rows. rows ≡ self.now.library.objects) }
    {
        self.parts.media().object_rows(alloc)
    }

    /// The rows of all stored objects, by rising serial.
    pub fn stored(&self, alloc: Global) -> Result<ObjectList, Memory>
        ensures { IfOk result (λ rows. rows ≡ stored_objects self.now.library.objects) }
    {
        let objects = self.objects(alloc)?;
        let mut stored = Listed::new(alloc);
        for row in objects.items() {
            add_stored(alloc, &mut stored, row)?;
        }
        Ok(stored)
    }

    /// Becomes what was prepared. It takes no memory.
    pub fn install(&mut self, prepared: Prepared)
        ensures { self.new ≡ prepared.core }
    {
        *self = prepared.core;
    }
}

/// Adds the row of an object where it is stored.
fn add_stored(alloc: Global, stored: &mut ObjectList, row: &ObjectRow) -> Result<(), Memory>
    ensures { OnOk result (stored.new ≡ stored.old ++ stored_objects (row.now ∷ [])) }
{
    match row.state {
        ObjectState::Allocated => Ok(()),
        ObjectState::Stored { .. } => stored.push(row.duplicate(alloc)?),
    }
}
