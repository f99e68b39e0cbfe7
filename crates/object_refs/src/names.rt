//! Objects by their ids: each id is found by a number, in a list of the ids that have that number.
ghost use Rattle.std.specs.Prelude.{◌≡◌, ◌∷◌, ◌≤◌, [], IfOk, None, Some, length, take};
ghost use Rattle.std.specs.Int.{from_be_bytes, w128};
ghost use Rattle.object_refs.specs.NameTables.{Renames, bucket_at, is_named_so, serial_in, serial_named};
ghost use Rattle.object_refs.specs.Within.Names.{bucket_with, bucket_without, id_number};

use crate::keys::{number_key, value_at, with_value, without_value};
use disk_trait::{Duplicate, Listed, Memory, Text};
use sha2::{Digest, Sha256};
use shared_tree::Version;
use std::alloc::Global;
use std::marker::Model;

/// The serials of objects by their ids, each under a number. Ids of one number stand in one list, which is
/// looked at one by one, so a look is fast where few ids have one number. A change gives a new table and
/// leaves this one as it is.
#[derive(Drop)]
pub struct NameTable {
    buckets: Version<Bucket>,
}

impl Model for NameTable {
    ghost use Rattle.object_refs.specs.NameTables.{Names};

    ghost Value = { Names };

    ghost view = { λ t. t.buckets };
}

impl NameTable {
    /// A table without ids. It takes no memory.
    pub fn empty() -> NameTable
        ensures { result ≡ [] }
    {
        NameTable {
            buckets: Version::empty(),
        }
    }

    /// The serial of an id under a number, if it has one.
    pub fn at(&self, number: u128, id: &Text) -> Option<u64>
        ensures { result ≡ serial_named number id.now self.now }
    {
        serial_in(bucket_at(&self.buckets, number), id)
    }

    /// The table with a serial for an id under a number, in place of the one that it has there.
    pub fn with(
        &self,
        alloc: Global,
        number: u128,
        id: Text,
        serial: u64,
    ) -> Result<NameTable, Memory>
        ensures { IfOk result (λ next. Renames number id (Some serial) self.now next) }
    {
        let entry = Named { id, serial };
        let bucket = bucket_with(alloc, bucket_at(&self.buckets, number), entry)?;
        Ok(NameTable {
            buckets: with_value(alloc, &self.buckets, &number_key(number), bucket)?,
        })
    }

    /// The table without an id under a number.
    pub fn without(&self, alloc: Global, number: u128, id: &Text) -> Result<NameTable, Memory>
        ensures { IfOk result (λ next. Renames number id.now None self.now next) }
    {
        let bucket = bucket_without(alloc, bucket_at(&self.buckets, number), id)?;
        let key = number_key(number);
        if bucket.items().is_empty() {
            return Ok(NameTable {
                buckets: without_value(alloc, &self.buckets, &key)?,
            });
        }
        Ok(NameTable {
            buckets: with_value(alloc, &self.buckets, &key, bucket)?,
        })
    }

    /// The same table once more.
    pub fn share(&self) -> Result<NameTable, Memory>
        ensures { IfOk result (λ next. next ≡ self.now) }
    {
        Ok(NameTable {
            buckets: self.buckets.share()?,
        })
    }
}

/// An object's id and its serial.
#[derive(Drop)]
pub(crate) struct Named {
    pub(crate) id: Text,
    pub(crate) serial: u64,
}

/// The objects whose ids have one number.
pub(crate) type Bucket = Listed<Named>;

impl Duplicate for Named {
    fn duplicate(&self, alloc: Global) -> Result<Self, Memory> {
        Ok(Named {
            id: self.id.duplicate(alloc)?,
            serial: self.serial,
        })
    }
}

/// The number by which an id is found: the first 128 bits of its SHA-256 (FIPS 180-4). Two ids that have
/// one number take some 2^64 tries to find, so no client makes a bucket long.
#[tactic(auto, unfolding(crate::specs::Within::Names::id_number))]
pub(crate) fn id_number(id: &Text) -> u128
    ensures { result ≡ id_number id.now }
{
    let digest = Sha256::digest(id.bytes());
    first_half(&digest)
}

/// The number that the first 16 bytes spell.
fn first_half(digest: &[u8]) -> u128
    requires { 16 ≤ length digest.now }
    ensures { result ≡ from_be_bytes w128 (take 16 digest.now) }
{
    let (front, _) = digest.split_at(16);
    let mut word = [0u8; 16];
    word.copy_from_slice(front);
    u128::from_be_bytes(word)
}

/// Whether an entry is the one of an id.
fn is_named_so(entry: &Named, id: &Text) -> bool
    ensures { result ≡ is_named_so id.now entry.now }
{
    entry.id.bytes() == id.bytes()
}

/// The entries of a number.
fn bucket_at(buckets: &Version<Bucket>, number: u128) -> &[Named]
    ensures { result.now ≡ bucket_at number buckets.now }
{
    match value_at(buckets, &number_key(number)) {
        Some(bucket) => bucket.items(),
        None => &[],
    }
}

/// The serial of an id among these entries.
fn serial_in(bucket: &[Named], id: &Text) -> Option<u64>
    ensures { result ≡ serial_in id.now bucket.now }
{
    for entry in bucket {
        if is_named_so(entry, id) {
            return Some(entry.serial);
        }
    }
    None
}

/// The entries with this one in place of those that have its id.
fn bucket_with(alloc: Global, bucket: &[Named], entry: Named) -> Result<Bucket, Memory>
    ensures { IfOk result (λ list. list ≡ bucket_with entry bucket.now) }
{
    let mut list = bucket_without(alloc, bucket, &entry.id)?;
    if list.items().is_empty() {
        return bucket_of(alloc, entry);
    }
    list.push(entry)?;
    Ok(list)
}

/// The entries of a number that has this one alone, as nearly all have: they take no room for more.
fn bucket_of(alloc: Global, entry: Named) -> Result<Bucket, Memory>
    ensures { IfOk result (λ list. list ≡ entry ∷ []) }
{
    let mut entries = Vec::with_capacity(alloc, 1)?;
    entries.push(entry)?;
    Ok(Bucket::from_vec(entries))
}

/// The entries without those of an id.
fn bucket_without(alloc: Global, bucket: &[Named], id: &Text) -> Result<Bucket, Memory>
    ensures { IfOk result (λ list. list ≡ bucket_without id.now bucket.now) }
{
    let mut list = Bucket::new(alloc);
    for other in bucket {
        if !is_named_so(other, id) {
            list.push(other.duplicate(alloc)?)?;
        }
    }
    Ok(list)
}
