//! An index of the ids of rows by the ids that they name.
ghost use Rattle.std.specs.Prelude.{◌≡◌, ◌==◌, [], IfOk, if◌then◌else◌};
ghost use Rattle.media_rows.specs.Views.{id_key};
ghost use Rattle.shared_tree.specs.Pairs.{values, values_of, with_pair, without_key};
ghost use Rattle.id_index.specs.Index.{Forgets, Links, Unlinks, has_pairs, ids_at};
ghost use Rattle.id_index.specs.Within.Steps.{Sets, linked, unlinked};

use crate::rows::{all_rows, row_at, with_row, without_row};
use disk_trait::Memory;
use shared_tree::Version;
use std::alloc::Global;
use std::marker::Model;

/// Ids by the ids that they are linked to. A change makes a new index, which shares with the old one what
/// doesn't change.
#[derive(Drop)]
pub struct IdIndex {
    linked: Version<Version<u128>>,
}

impl Model for IdIndex {
    ghost use Rattle.std.specs.Prelude.{ℕ, ℤ, List};

    ghost Value = { List (ℤ × List (ℤ × ℕ)) };

    ghost view = { λ i. i.linked };
}

impl IdIndex {
    /// An index without ids. It takes no memory.
    pub fn empty() -> IdIndex
        ensures { result ≡ [] }
    {
        IdIndex {
            linked: Version::empty(),
        }
    }

    /// The same index once more.
    pub fn share(&self) -> Result<IdIndex, Memory>
        ensures { IfOk result (λ index. index ≡ self.now) }
    {
        Ok(IdIndex {
            linked: self.linked.share()?,
        })
    }

    /// Whether some id is linked to this one.
    pub fn has_any(&self, to: u128) -> bool
        ensures { result ≡ has_pairs (ids_at to self.now) }
    {
        match row_at(&self.linked, to) {
            Some(ids) => has_pairs(ids),
            None => false,
        }
    }

    /// The ids that are linked to this one, by rising id.
    pub fn ids(&self, alloc: Global, to: u128) -> Result<Vec<&u128>, Memory>
        ensures { IfOk result (λ list. values_of list.items ≡ values (ids_at to self.now)) }
    {
        match row_at(&self.linked, to) {
            Some(ids) => all_rows(alloc, ids),
            None => Ok(Vec::new(alloc)),
        }
    }

    /// Links an id to each of these.
    pub fn link(&self, alloc: Global, to: &[u128], id: u128) -> Result<IdIndex, Memory>
        ensures { IfOk result (Links to.now id self.now) }
    {
        Ok(IdIndex {
            linked: all_linked(alloc, &self.linked, to, id)?,
        })
    }

    /// Unlinks an id from each of these.
    pub fn unlink(&self, alloc: Global, to: &[u128], id: u128) -> Result<IdIndex, Memory>
        ensures { IfOk result (Unlinks to.now id self.now) }
    {
        Ok(IdIndex {
            linked: all_unlinked(alloc, &self.linked, to, id)?,
        })
    }

    /// Unlinks all ids from this one.
    pub fn forget(&self, alloc: Global, to: u128) -> Result<IdIndex, Memory>
        ensures { IfOk result (Forgets to self.now) }
    {
        Ok(IdIndex {
            linked: all_left_out(alloc, &self.linked, to)?,
        })
    }
}

/// The links without those to one.
fn all_left_out(
    alloc: Global,
    linked: &Version<Version<u128>>,
    to: u128,
) -> Result<Version<Version<u128>>, Memory>
    ensures { IfOk result (Forgets to linked.now) }
{
    without_row(alloc, linked, to)
}

/// Whether a version has a pair.
fn has_pairs(ids: &Version<u128>) -> bool
    ensures { result ≡ has_pairs ids.now }
{
    ids.len() != 0
}

/// The ids that are linked to one.
fn ids_at(linked: &Version<Version<u128>>, to: u128) -> Result<Version<u128>, Memory>
    ensures { IfOk result (λ ids. ids ≡ ids_at to linked.now) }
{
    match row_at(linked, to) {
        Some(ids) => ids.share(),
        None => Ok(Version::empty()),
    }
}

/// The links with these ids at one. Where there are none, nothing stands there.
fn with_ids(
    alloc: Global,
    linked: &Version<Version<u128>>,
    to: u128,
    ids: Version<u128>,
) -> Result<Version<Version<u128>>, Memory>
    ensures { IfOk result (Sets to ids linked.now) }
{
    if has_pairs(&ids) {
        with_row(alloc, linked, to, ids)
    } else {
        without_row(alloc, linked, to)
    }
}

fn all_linked(
    alloc: Global,
    linked: &Version<Version<u128>>,
    to: &[u128],
    id: u128,
) -> Result<Version<Version<u128>>, Memory>
    ensures { IfOk result (Links to.now id linked.now) }
{
    let mut next = linked.share()?;
    for one in to {
        let ids = ids_at(&next, *one)?;
        next = with_ids(alloc, &next, *one, with_row(alloc, &ids, id, id)?)?;
    }
    Ok(next)
}

fn all_unlinked(
    alloc: Global,
    linked: &Version<Version<u128>>,
    to: &[u128],
    id: u128,
) -> Result<Version<Version<u128>>, Memory>
    ensures { IfOk result (Unlinks to.now id linked.now) }
{
    let mut next = linked.share()?;
    for one in to {
        let ids = ids_at(&next, *one)?;
        next = with_ids(alloc, &next, *one, without_row(alloc, &ids, id)?)?;
    }
    Ok(next)
}
