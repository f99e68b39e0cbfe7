//! Objects in trees: the whole of a book but for a row that it holds apart.
ghost use Rattle.std.specs.Prelude.{◌≡◌, ◌+◌, ◌-◌, ◌^◌, [], IfOk, IsFalse, IsTrue, is_some, length, map, min, nat_le, not, option_copied, pos};
ghost use Rattle.media_rows.specs.Answer.{keep_refusal};
ghost use Rattle.media_rows.specs.Good.{are_object_ids_distinct, rises_by};
ghost use Rattle.media_rows.specs.Objects.{due_objects, flows_naming, idle_time, idled, is_named, is_stored_object, object_of, reference_count};
ghost use Rattle.media_rows.specs.Refusals.{IsChange, Restores, when};
ghost use Rattle.media_rows.specs.Restoring.{can_restore_objects};
ghost use Rattle.media_rows.specs.declared.refusal.Refusal.TheVariants.{IdTaken, NoObject};
ghost use Rattle.shared_tree.specs.Pairs.{first, values_of};
ghost use Rattle.object_refs.specs.References.{are_below, book_of, changed_at, flows_in, kept_of, objects_in, references_in, referred, refers, released, released_at, stored_at, with_new, without_id};
ghost use Rattle.object_refs.specs.Within.Apart.{shown_row};
ghost use Rattle.object_refs.specs.Within.Books.{has_serial, stored_of};
ghost use Rattle.object_refs.specs.Within.Names.{id_number};

use crate::apart::shown;
use crate::changes::{is_stored, referred_kept, released_kept, stored_kept};
use crate::kept::Kept;
use crate::keys::{all_values, first_value, value_at};
use crate::names::{NameTable, id_number};
use crate::restores::{gathered, referred_by};
use disk_trait::{Duplicate, Memory, Text};
use media_rows::{
    ApplyFault, BookFault, Digest, Extent, IdList, ObjectList, ObjectRow, Refusal, SegmentList,
};
use shared_tree::Version;
use std::alloc::Global;
use std::marker::Model;

/// Seconds for which an object to which nothing refers is kept.
const IDLE_TIME: u64 = 86400;

/// Objects by rising serial, each with the references to it: the flows that name it, each as often as it
/// does. A change gives new trees and leaves these as they are.
#[derive(Drop)]
pub(crate) struct ObjectTrees {
    /// The objects by their serials.
    pub(crate) rows: Version<Kept>,
    /// Their serials by the numbers of their ids.
    pub(crate) names: NameTable,
    /// The serials of the objects to which nothing refers, in the order in which they are swept.
    pub(crate) idle: Version<u64>,
}

impl Model for ObjectTrees {
    ghost use Rattle.std.specs.Prelude.{List};
    ghost use Rattle.shared_tree.specs.Pairs.{values};
    ghost use Rattle.object_refs.specs.declared.kept.Kept.{Kept};
    ghost use Rattle.object_refs.specs.Within.Books.{IsBook};

    ghost Value = { List Kept };

    ghost view = { λ b. values b.rows };

    ghost invariant = { λ b. IsBook b.rows b.names b.idle };
}

impl ObjectTrees {
    /// Trees without objects.
    pub(crate) fn empty() -> ObjectTrees
        ensures { result ≡ [] }
    {
        ObjectTrees {
            rows: Version::empty(),
            names: NameTable::empty(),
            idle: Version::empty(),
        }
    }

    /// The trees of these objects and of the references of these segments, each in any order. They are refused
    /// exactly where ids or serials repeat, or a segment names an object that isn't kept or has no bytes.
    pub(crate) fn from_rows(
        alloc: Global,
        objects: &ObjectList,
        segments: &SegmentList,
    ) -> Result<ObjectTrees, ApplyFault>
        ensures { Restores (can_restore_objects objects.now segments.now)
            (book_of objects.now segments.now) result }
    {
        match gathered(alloc, objects.items()) {
            Ok(bare) => referred_by(alloc, &bare, segments.items()),
            Err(fault) => Err(fault),
        }
    }

    /// The object of this id, if it is kept, be it allocated or stored.
    pub(crate) fn find(&self, id: &Text) -> Option<&ObjectRow>
        ensures { option_copied result ≡ object_of id.now (objects_in self.now) }
    {
        match self.kept(id) {
            Some(kept) => Some(&kept.row),
            None => None,
        }
    }

    /// How many references there are to the object of this id.
    pub(crate) fn count(&self, id: &Text) -> u64
        ensures { result ≡ reference_count (references_in self.now) id.now }
    {
        self.rows.keys_rise();
        match self.kept(id) {
            Some(kept) => kept.flows.len(),
            None => 0,
        }
    }

    /// The number of objects, or the last value of a `u64` where there are more.
    pub(crate) fn object_count(&self) -> u64
        ensures { result ≡ min (length (objects_in self.now)) (2 ^ 64 - 1) }
    {
        self.rows.len()
    }

    /// Adds an object without bytes, idle since now, whose serial is above all others. It is refused as
    /// `IdTaken` where an object has its id.
    pub(crate) fn allocate(
        &self,
        alloc: Global,
        id: &Text,
        serial: u64,
        now: u64,
    ) -> Result<ObjectTrees, BookFault>
        requires above { IsTrue (are_below serial self.now) }
        ensures { IsChange
            (when (is_some (object_of id.now (objects_in self.now))) (IdTaken id.now))
            (with_new id.now serial now self.now) result }
    {
        let number = id_number(id);
        if self.has_id(number, id) {
            return Err(BookFault::Refused(Refusal::IdTaken(id.copy(alloc)?)));
        }
        Ok(self.with_new(alloc, id, number, serial, now)?)
    }

    /// Notes that an object has its bytes, at this place and with this digest where one is kept, and is idle
    /// since now. It is refused as `UnknownObject` where there is no such object, and as `OtherBytes` where it has its bytes already.
    pub(crate) fn mark_stored(
        &self,
        alloc: Global,
        id: &Text,
        extent: Extent,
        digest: Option<Digest>,
        now: u64,
    ) -> Result<ObjectTrees, BookFault>
        ensures { IsChange (keep_refusal (object_of id.now (objects_in self.now)))
            (changed_at id.now (stored_at extent digest now) self.now) result }
    {
        let Some(old) = self.kept(id) else {
            return Err(BookFault::Refused(Refusal::UnknownObject));
        };
        if is_stored(old.row.state) {
            return Err(BookFault::Refused(Refusal::OtherBytes));
        }
        let new = stored_kept(alloc, old, extent, digest, now)?;
        Ok(self.with_kept(alloc, old, new)?)
    }

    /// Adds one reference of a flow to an object. It is refused as `NoObject` where no object of this id has
    /// its bytes.
    pub(crate) fn refer(
        &self,
        alloc: Global,
        id: &Text,
        flow: u128,
    ) -> Result<ObjectTrees, BookFault>
        ensures { IsChange
            (when (not (is_stored_object (objects_in self.now) id.now)) (NoObject id.now))
            (changed_at id.now (referred flow) self.now) result }
    {
        match self.stored(id) {
            Some(old) => {
                let new = referred_kept(alloc, old, flow)?;
                Ok(self.with_kept(alloc, old, new)?)
            }
            None => Err(BookFault::Refused(Refusal::NoObject(id.copy(alloc)?))),
        }
    }

    /// Takes one reference of a flow from an object. An object that loses its last one is idle since now.
    pub(crate) fn unrefer(
        &self,
        alloc: Global,
        id: &Text,
        flow: u128,
        now: u64,
    ) -> Result<ObjectTrees, Memory>
        requires there { IsTrue (refers (references_in self.now) id.now flow) }
        ensures objects { IfOk result (λ next. objects_in next
            ≡ idled (references_in self.now) (references_in next) now (objects_in self.now)) }
        ensures flows { IfOk result
            (λ next. flows_in next ≡ flows_in (changed_at id.now (released flow) self.now)) }
        ensures book { IfOk result
            (λ next. next ≡ changed_at id.now (released_at flow now) self.now) }
    {
        self.rows.keys_rise();
        let Some(old) = self.kept(id) else {
            unreachable!()
        };
        let new = released_kept(alloc, old, flow, now)?;
        self.with_kept(alloc, old, new)
    }

    /// The flows that refer to the object of this id, by rising id, each once.
    pub(crate) fn flows_of(&self, alloc: Global, id: &Text) -> Result<IdList, Memory>
        ensures { IfOk result (λ list. list ≡ flows_naming (references_in self.now) id.now) }
    {
        self.rows.keys_rise();
        match self.kept(id) {
            Some(kept) => kept.flows.distinct(alloc),
            None => Ok(IdList::new(alloc)),
        }
    }

    /// The object that is swept first, if one is due: of those to which nothing refers, the one that is idle
    /// for the longest, once it is so for a day. Objects that are idle since one moment go by serial.
    pub(crate) fn first_idle(&self, now: u64) -> Option<&ObjectRow>
        ensures { option_copied result
            ≡ first (due_objects (references_in self.now) (objects_in self.now) now) }
    {
        self.rows.keys_rise();
        self.idle.keys_rise();
        let Some(serial) = first_value(&self.idle) else {
            return None;
        };
        let Some(kept) = value_at(&self.rows, &serial_key(*serial)) else {
            unreachable!()
        };
        if is_over(kept.row.idle_since, now) {
            Some(&kept.row)
        } else {
            None
        }
    }

    /// Leaves out the object of this id, to which nothing refers.
    pub(crate) fn sweep(&self, alloc: Global, id: &Text) -> Result<ObjectTrees, Memory>
        requires unnamed { IsFalse (is_named (references_in self.now) id.now) }
        ensures { IfOk result (λ next. next ≡ without_id id.now self.now) }
    {
        let number = id_number(id);
        match self.kept_at(number, id) {
            Some(old) => self.without_kept(alloc, number, old),
            None => self.share(),
        }
    }

    /// All objects, by rising serial, with a row that is held, if one is, in its place.
    pub(crate) fn list(&self, alloc: Global, held: &Option<ObjectRow>) -> Result<ObjectList, Memory>
        ensures { IfOk result
            (λ list. list ≡ map (shown_row held.now) (objects_in self.now)) }
    {
        let kept = all_values(alloc, &self.rows)?;
        object_list(alloc, &kept, held)
    }

    /// A law: objects stand by rising serial, and no two have one id.
    pub(crate) fn is_in_order(&self)
        ensures serials { IsTrue (rises_by (λ row. row.serial) (objects_in self.now)) }
        ensures ids { IsTrue (are_object_ids_distinct (objects_in self.now)) }
    {
        self.rows.keys_rise();
    }

    /// The same trees once more.
    pub(crate) fn share(&self) -> Result<ObjectTrees, Memory>
        ensures { IfOk result (λ next. next ≡ self.now) }
    {
        Ok(ObjectTrees {
            rows: self.rows.share()?,
            names: self.names.share()?,
            idle: self.idle.share()?,
        })
    }

    /// Whether an object has this serial.
    pub(crate) fn has_serial(&self, serial: u64) -> bool
        ensures { result ≡ has_serial serial self.now }
    {
        value_at(&self.rows, &serial_key(serial)).is_some()
    }

    /// The object of this id, where it has its bytes.
    fn stored(&self, id: &Text) -> Option<&Kept>
        ensures { option_copied result ≡ stored_of (kept_of id.now self.now) }
    {
        let kept = self.kept(id)?;
        if is_stored(kept.row.state) {
            Some(kept)
        } else {
            None
        }
    }

    /// The object of this id, with the references to it.
    fn kept(&self, id: &Text) -> Option<&Kept>
        ensures { option_copied result ≡ kept_of id.now self.now }
    {
        self.kept_at(id_number(id), id)
    }

    /// Whether an object has this id, whose number is given.
    pub(crate) fn has_id(&self, number: u128, id: &Text) -> bool
        requires number { number ≡ id_number id.now }
        ensures { result ≡ is_some (object_of id.now (objects_in self.now)) }
    {
        self.kept_at(number, id).is_some()
    }

    /// The object of an id, whose number is given, with the references to it.
    fn kept_at(&self, number: u128, id: &Text) -> Option<&Kept>
        requires number { number ≡ id_number id.now }
        ensures { option_copied result ≡ kept_of id.now self.now }
    {
        self.rows.keys_rise();
        match self.names.at(number, id) {
            Some(serial) => value_at(&self.rows, &serial_key(serial)),
            None => None,
        }
    }
}

/// The key of a serial in the order of objects.
pub(crate) fn serial_key(serial: u64) -> i128
    ensures { result ≡ pos serial }
{
    serial as i128
}

/// Whether an object that is idle since a moment, and to which nothing refers, may be swept now.
fn is_over(idle_since: u64, now: u64) -> bool
    ensures { result ≡ nat_le (idle_since + idle_time) now }
{
    IDLE_TIME <= now && idle_since <= now - IDLE_TIME
}

/// The rows of objects, with the row that is held, if one is, in its place.
fn object_list(
    alloc: Global,
    kept: &[&Kept],
    held: &Option<ObjectRow>,
) -> Result<ObjectList, Memory>
    ensures { IfOk result
        (λ list. list ≡ map (shown_row held.now) (objects_in (values_of kept.now))) }
{
    let mut list = ObjectList::new(alloc);
    for object in kept {
        list.push(shown(held, &object.row).duplicate(alloc)?)?;
    }
    Ok(list)
}
