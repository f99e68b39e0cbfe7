//! What makes new trees of others: an object that comes, is changed or goes.
ghost use Rattle.std.specs.Prelude.{◌≡◌, ◌<◌, ◌^◌, IfOk, IsFalse, IsTrue, None, Some};
ghost use Rattle.media_rows.specs.Objects.{is_stored};
ghost use Rattle.object_refs.specs.References.{are_below, changed_at, kept_of, referred, released_at, stored_at, with_new, without_id};
ghost use Rattle.object_refs.specs.Within.Books.{has_serial, idle_entered, idle_left, with_new_object};
ghost use Rattle.object_refs.specs.Within.Names.{id_number};
ghost use Rattle.object_refs.specs.declared.kept.Kept.{Kept};

use crate::flows::FlowCounts;
use crate::kept::Kept;
use crate::keys::{with_value, without_value};
use crate::trees::{ObjectTrees, serial_key};
use disk_trait::{Duplicate, Memory, Text};
use media_rows::{Digest, Extent, ObjectRow, ObjectState};
use shared_tree::Version;
use std::alloc::Global;

impl ObjectTrees {
    /// The trees with a new object, the number of whose id is given.
    pub(crate) fn with_new(
        &self,
        alloc: Global,
        id: &Text,
        number: u128,
        serial: u64,
        now: u64,
    ) -> Result<ObjectTrees, Memory>
        requires number { number ≡ id_number id.now }
        requires above { IsTrue (are_below serial self.now) }
        requires id { kept_of id.now self.now ≡ None }
        ensures { IfOk result (λ next. next ≡ with_new id.now serial now self.now) }
    {
        let row = ObjectRow {
            id: id.copy(alloc)?,
            serial,
            state: ObjectState::Allocated,
            idle_since: now,
        };
        self.with_row(alloc, number, row)
    }

    /// The trees with a new object at its place, to which nothing refers. The number of its id is given.
    pub(crate) fn with_row(
        &self,
        alloc: Global,
        number: u128,
        row: ObjectRow,
    ) -> Result<ObjectTrees, Memory>
        requires number { number ≡ id_number row.id }
        requires id { kept_of row.id self.now ≡ None }
        requires serial { IsFalse (has_serial row.serial self.now) }
        ensures { IfOk result (λ next. next ≡ with_new_object row self.now) }
    {
        self.rows.keys_rise();
        let serial = row.serial;
        tell_small(serial);
        let kept = Kept {
            row,
            flows: FlowCounts::empty(),
        };
        let key = kept.idle_key();
        let id = kept.row.id.copy(alloc)?;
        Ok(ObjectTrees {
            rows: with_value(alloc, &self.rows, &serial_key(serial), kept)?,
            names: self.names.with(alloc, number, id, serial)?,
            idle: idle_entered(alloc, &self.idle, &key, serial)?,
        })
    }

    /// The trees with an object in place of the one that has its id and serial.
    pub(crate) fn with_kept(
        &self,
        alloc: Global,
        old: &Kept,
        new: Kept,
    ) -> Result<ObjectTrees, Memory>
        requires found { kept_of old.now.row.id self.now ≡ Some old.now }
        requires id { new.row.id ≡ old.now.row.id }
        requires serial { new.row.serial ≡ old.now.row.serial }
        ensures { (change : Kept → Kept) → new ≡ change old.now
            → IfOk result (λ next. next ≡ changed_at old.now.row.id change self.now) }
    {
        self.rows.keys_rise();
        let serial = old.row.serial;
        let key = new.idle_key();
        let left = idle_left(alloc, &self.idle, &old.idle_key())?;
        Ok(ObjectTrees {
            rows: with_value(alloc, &self.rows, &serial_key(serial), new)?,
            names: self.names.share()?,
            idle: idle_entered(alloc, &left, &key, serial)?,
        })
    }

    /// The trees without an object, the number of whose id is given.
    pub(crate) fn without_kept(
        &self,
        alloc: Global,
        number: u128,
        old: &Kept,
    ) -> Result<ObjectTrees, Memory>
        requires number { number ≡ id_number old.now.row.id }
        requires found { kept_of old.now.row.id self.now ≡ Some old.now }
        ensures { IfOk result (λ next. next ≡ without_id old.now.row.id self.now) }
    {
        self.rows.keys_rise();
        Ok(ObjectTrees {
            rows: without_value(alloc, &self.rows, &serial_key(old.row.serial))?,
            names: self.names.without(alloc, number, &old.row.id)?,
            idle: idle_left(alloc, &self.idle, &old.idle_key())?,
        })
    }
}

/// Does nothing. It tells what follows: a serial is a number of 64 bits.
fn tell_small(serial: u64)
    ensures { serial < 2 ^ 64 }
{
    // Where it is read, its type is known.
    let _serial = serial;
}

/// Whether an object in this state has its bytes.
pub(crate) fn is_stored(state: ObjectState) -> bool
    ensures { result ≡ is_stored state }
{
    match state {
        ObjectState::Allocated => false,
        ObjectState::Stored { .. } => true,
    }
}

/// An object with its bytes at a place, with their digest where one is kept.
pub(crate) fn stored_kept(
    alloc: Global,
    old: &Kept,
    extent: Extent,
    digest: Option<Digest>,
    now: u64,
) -> Result<Kept, Memory>
    ensures { IfOk result (λ kept. kept ≡ stored_at extent digest now old.now) }
{
    Ok(Kept {
        row: ObjectRow {
            id: old.row.id.duplicate(alloc)?,
            serial: old.row.serial,
            state: ObjectState::Stored {
                start_block: extent.start,
                length: extent.length,
                digest,
            },
            idle_since: now,
        },
        flows: old.flows.share()?,
    })
}

/// An object with one reference of a flow more.
pub(crate) fn referred_kept(alloc: Global, old: &Kept, flow: u128) -> Result<Kept, Memory>
    ensures { IfOk result (λ kept. kept ≡ referred flow old.now) }
{
    Ok(Kept {
        row: old.row.duplicate(alloc)?,
        flows: old.flows.add(alloc, flow)?,
    })
}

/// An object with one reference of a flow less, idle since now where it was the last one.
pub(crate) fn released_kept(alloc: Global, old: &Kept, flow: u128, now: u64) -> Result<Kept, Memory>
    ensures { IfOk result (λ kept. kept ≡ released_at flow now old.now) }
{
    let flows = old.flows.remove(alloc, flow)?;
    let mut row = old.row.duplicate(alloc)?;
    if flows.len() == 0 {
        row.idle_since = now;
    }
    Ok(Kept { row, flows })
}

/// The order of sweeps without the serial at a key, if there is a key.
fn idle_left(alloc: Global, idle: &Version<u64>, key: &Option<i128>) -> Result<Version<u64>, Memory>
    ensures { IfOk result (λ next. next ≡ idle_left key.now idle.now) }
{
    match key {
        None => idle.share(),
        Some(key) => without_value(alloc, idle, key),
    }
}

/// The order of sweeps with a serial at a key, if there is a key.
fn idle_entered(
    alloc: Global,
    idle: &Version<u64>,
    key: &Option<i128>,
    serial: u64,
) -> Result<Version<u64>, Memory>
    ensures { IfOk result (λ next. next ≡ idle_entered key.now serial idle.now) }
{
    match key {
        None => idle.share(),
        Some(key) => with_value(alloc, idle, key, serial),
    }
}
