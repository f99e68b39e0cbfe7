//! The book and its public calls.
ghost use Rattle.std.specs.Prelude.{◌≡◌, ◌-◌, ◌^◌, [], IfOk, IsFalse, IsTrue, is_some, length, min, not, option_copied};
ghost use Rattle.media_rows.specs.Answer.{keep_refusal};
ghost use Rattle.media_rows.specs.Good.{are_object_ids_distinct, rises_by};
ghost use Rattle.media_rows.specs.Objects.{due_objects, flows_naming, idled, is_named, is_stored_object, object_of, reference_count};
ghost use Rattle.media_rows.specs.Refusals.{IsChange, Restores, when};
ghost use Rattle.media_rows.specs.Restoring.{can_restore_objects};
ghost use Rattle.media_rows.specs.declared.refusal.Refusal.TheVariants.{IdTaken, NoObject};
ghost use Rattle.shared_tree.specs.Pairs.{first};
ghost use Rattle.object_refs.specs.References.{are_below, book_of, changed_at, flows_in, held_apart, objects_in, references_in, referred, refers, released, released_at, settled, stored_at, with_digest, with_new, without_id};

use crate::apart::{row_copy, shown_if_any, with_digest};
use crate::trees::ObjectTrees;
use disk_trait::{Duplicate, Memory, Text};
use media_rows::{
    ApplyFault, BookFault, Digest, Extent, IdList, ObjectList, ObjectRow, SegmentList,
};
use std::alloc::Global;
use std::marker::Model;

/// Objects by rising serial, each with the references to it: the flows that name it, each as often as it
/// does. A change gives a new book and leaves this one as it is; moments are seconds since
/// 1970-01-01T00:00:00Z. The row of the object that was stored last may be held apart, where its digest can
/// still be set; the next change puts it with the others.
#[derive(Drop)]
pub struct ObjectBook {
    trees: ObjectTrees,
    /// The row that is held apart. It stands for the one of its serial in the trees.
    apart: Option<ObjectRow>,
}

impl Model for ObjectBook {
    ghost use Rattle.object_refs.specs.References.{Book};
    ghost use Rattle.object_refs.specs.Within.Apart.{IsHeld, book_seen};

    ghost Value = { Book };

    ghost view = { λ b. book_seen b.trees b.apart };

    ghost invariant = { λ b. IsHeld b.apart b.trees };
}

impl ObjectBook {
    /// A book without objects. It takes no memory.
    pub fn empty() -> ObjectBook
        ensures { result ≡ settled [] }
    {
        ObjectBook::of_trees(ObjectTrees::empty())
    }

    /// The book of these objects and of the references of these segments, each in any order. It is refused
    /// exactly where ids or serials repeat, or a segment names an object that isn't kept or has no bytes.
    pub fn from_rows(
        alloc: Global,
        objects: &ObjectList,
        segments: &SegmentList,
    ) -> Result<ObjectBook, ApplyFault>
        ensures { Restores (can_restore_objects objects.now segments.now)
            (settled (book_of objects.now segments.now)) result }
    {
        match ObjectTrees::from_rows(alloc, objects, segments) {
            Ok(trees) => Ok(ObjectBook::of_trees(trees)),
            Err(fault) => Err(fault),
        }
    }

    /// The object of this id, if it is kept, be it allocated or stored.
    pub fn find(&self, id: &Text) -> Option<&ObjectRow>
        ensures { option_copied result ≡ object_of id.now (objects_in self.now.kept) }
    {
        shown_if_any(&self.apart, self.trees.find(id))
    }

    /// How many references there are to the object of this id.
    pub fn count(&self, id: &Text) -> u64
        ensures { result ≡ reference_count (references_in self.now.kept) id.now }
    {
        self.trees.count(id)
    }

    /// The number of objects, or the last value of a `u64` where there are more.
    pub fn object_count(&self) -> u64
        ensures { result ≡ min (length (objects_in self.now.kept)) (2 ^ 64 - 1) }
    {
        self.trees.object_count()
    }

    /// Adds an object without bytes, idle since now, whose serial is above all others. It is refused as
    /// `IdTaken` where an object has its id.
    pub fn allocate(
        &self,
        alloc: Global,
        id: &Text,
        serial: u64,
        now: u64,
    ) -> Result<ObjectBook, BookFault>
        requires above { IsTrue (are_below serial self.now.kept) }
        ensures { IsChange
            (when (is_some (object_of id.now (objects_in self.now.kept))) (IdTaken id.now))
            (settled (with_new id.now serial now self.now.kept)) result }
    {
        let trees = self.settled(alloc)?;
        match trees.allocate(alloc, id, serial, now) {
            Ok(next) => Ok(ObjectBook::of_trees(next)),
            Err(fault) => Err(fault),
        }
    }

    /// Notes that an object has its bytes, at this place and with this digest where one is kept, and is idle
    /// since now. The new book holds its row apart. It is refused as `UnknownObject` where there is no such
    /// object, and as `OtherBytes` where it has its bytes already.
    pub fn mark_stored(
        &self,
        alloc: Global,
        id: &Text,
        extent: Extent,
        digest: Option<Digest>,
        now: u64,
    ) -> Result<ObjectBook, BookFault>
        ensures { IsChange (keep_refusal (object_of id.now (objects_in self.now.kept)))
            (held_apart id.now (changed_at id.now (stored_at extent digest now) self.now.kept))
            result }
    {
        let trees = self.settled(alloc)?;
        match trees.mark_stored(alloc, id, extent, digest, now) {
            Ok(next) => Ok(ObjectBook::holding(alloc, next, id)?),
            Err(fault) => Err(fault),
        }
    }

    /// Sets the digest of the object whose row is held apart, where it has its bytes. It takes no memory.
    pub fn set_digest(&mut self, digest: Digest)
        requires apart { IsTrue (is_some self.old.apart) }
        ensures { self.new ≡ with_digest digest self.old }
    {
        self.apart = with_digest(self.apart.take(), digest);
    }

    /// Adds one reference of a flow to an object. It is refused as `NoObject` where no object of this id has
    /// its bytes.
    pub fn refer(&self, alloc: Global, id: &Text, flow: u128) -> Result<ObjectBook, BookFault>
        ensures { IsChange
            (when (not (is_stored_object (objects_in self.now.kept) id.now)) (NoObject id.now))
            (settled (changed_at id.now (referred flow) self.now.kept)) result }
    {
        let trees = self.settled(alloc)?;
        match trees.refer(alloc, id, flow) {
            Ok(next) => Ok(ObjectBook::of_trees(next)),
            Err(fault) => Err(fault),
        }
    }

    /// Takes one reference of a flow from an object. An object that loses its last one is idle since now.
    pub fn unrefer(
        &self,
        alloc: Global,
        id: &Text,
        flow: u128,
        now: u64,
    ) -> Result<ObjectBook, Memory>
        requires there { IsTrue (refers (references_in self.now.kept) id.now flow) }
        ensures objects { IfOk result (λ next. objects_in next.kept
            ≡ idled (references_in self.now.kept) (references_in next.kept) now
            (objects_in self.now.kept)) }
        ensures flows { IfOk result (λ next. flows_in next.kept
            ≡ flows_in (changed_at id.now (released flow) self.now.kept)) }
        ensures book { IfOk result
            (λ next. next ≡ settled (changed_at id.now (released_at flow now) self.now.kept)) }
    {
        let trees = self.settled(alloc)?;
        let next = trees.unrefer(alloc, id, flow, now)?;
        Ok(ObjectBook::of_trees(next))
    }

    /// The flows that refer to the object of this id, by rising id, each once.
    pub fn flows_of(&self, alloc: Global, id: &Text) -> Result<IdList, Memory>
        ensures { IfOk result
            (λ list. list ≡ flows_naming (references_in self.now.kept) id.now) }
    {
        self.trees.flows_of(alloc, id)
    }

    /// The object that is swept first, if one is due: of those to which nothing refers, the one that is idle
    /// for the longest, once it is so for a day. Objects that are idle since one moment go by serial.
    pub fn first_idle(&self, now: u64) -> Option<&ObjectRow>
        ensures { option_copied result ≡ first (due_objects (references_in self.now.kept)
            (objects_in self.now.kept) now) }
    {
        shown_if_any(&self.apart, self.trees.first_idle(now))
    }

    /// Leaves out the object of this id, to which nothing refers.
    pub fn sweep(&self, alloc: Global, id: &Text) -> Result<ObjectBook, Memory>
        requires unnamed { IsFalse (is_named (references_in self.now.kept) id.now) }
        ensures { IfOk result (λ next. next ≡ settled (without_id id.now self.now.kept)) }
    {
        let trees = self.settled(alloc)?;
        let next = trees.sweep(alloc, id)?;
        Ok(ObjectBook::of_trees(next))
    }

    /// All objects, by rising serial.
    pub fn list(&self, alloc: Global) -> Result<ObjectList, Memory>
        ensures { IfOk result (λ list. list ≡ objects_in self.now.kept) }
    {
        self.trees.list(alloc, &self.apart)
    }

    /// A law: objects stand by rising serial, and no two have one id.
    pub fn is_in_order(&self)
        ensures serials { IsTrue (rises_by (λ row. row.serial) (objects_in self.now.kept)) }
        ensures ids { IsTrue (are_object_ids_distinct (objects_in self.now.kept)) }
    {
        self.trees.is_in_order();
    }

    /// The same book once more, the row apart with it.
    pub fn share(&self, alloc: Global) -> Result<ObjectBook, Memory>
        ensures { IfOk result (λ next. next ≡ self.now) }
    {
        Ok(ObjectBook {
            trees: self.trees.share()?,
            apart: self.apart.duplicate(alloc)?,
        })
    }

    /// The objects with the row that is held apart in its place.
    fn settled(&self, alloc: Global) -> Result<ObjectTrees, Memory>
        ensures { IfOk result (λ next. next ≡ self.now.kept) }
    {
        self.trees.with_held(alloc, &self.apart)
    }

    /// The book of these objects, which holds none apart.
    fn of_trees(trees: ObjectTrees) -> ObjectBook
        ensures { result ≡ settled trees }
    {
        ObjectBook { trees, apart: None }
    }

    /// The book of these objects, which holds a copy of the one of an id apart.
    fn holding(alloc: Global, trees: ObjectTrees, id: &Text) -> Result<ObjectBook, Memory>
        ensures { IfOk result (λ next. next ≡ held_apart id.now trees) }
    {
        trees.is_in_order();
        let apart = row_copy(alloc, trees.find(id))?;
        Ok(ObjectBook { trees, apart })
    }
}
