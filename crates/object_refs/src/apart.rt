//! A row that stands for the one of its serial in the trees.
ghost use Rattle.std.specs.Prelude.{◌≡◌, IfOk, option_copied, option_map};
ghost use Rattle.object_refs.specs.References.{digested_row};
ghost use Rattle.object_refs.specs.Within.Apart.{IsHeld, shown_kept, shown_row};

use crate::kept::Kept;
use crate::keys::value_at;
use crate::trees::{ObjectTrees, serial_key};
use disk_trait::{Duplicate, Memory};
use media_rows::{Digest, ObjectRow, ObjectState};
use std::alloc::Global;

/// The row that stands for this one.
pub(crate) fn shown<'a>(held: &'a Option<ObjectRow>, row: &'a ObjectRow) -> &'a ObjectRow
    ensures { result.now ≡ shown_row held.now row.now }
{
    match held {
        Some(held) => { if row.serial == held.serial { held } else { row } }
        None => row,
    }
}

/// The row that stands for this one, where there is one.
pub(crate) fn shown_if_any<'a>(
    held: &'a Option<ObjectRow>,
    row: Option<&'a ObjectRow>,
) -> Option<&'a ObjectRow>
    ensures { option_copied result ≡ option_map (shown_row held.now) (option_copied row.entry) }
{
    match row {
        Some(row) => Some(shown(held, row)),
        None => None,
    }
}

/// A copy of a row, where there is one.
pub(crate) fn row_copy(alloc: Global, row: Option<&ObjectRow>) -> Result<Option<ObjectRow>, Memory>
    ensures { IfOk result (λ copy. copy ≡ option_copied row.entry) }
{
    match row {
        Some(row) => Ok(Some(row.duplicate(alloc)?)),
        None => Ok(None),
    }
}

/// The row that is held, if one is, with another digest.
pub(crate) fn with_digest(held: Option<ObjectRow>, digest: Digest) -> Option<ObjectRow>
    ensures { result ≡ option_map (digested_row digest) held }
{
    match held {
        Some(row) => Some(digested(row, digest)),
        None => None,
    }
}

/// An object with this digest, where it has its bytes.
fn digested(row: ObjectRow, digest: Digest) -> ObjectRow
    ensures { result ≡ digested_row digest row }
{
    let state = match row.state {
        ObjectState::Allocated => ObjectState::Allocated,
        ObjectState::Stored {
            start_block,
            length,
            ..
        } => ObjectState::Stored {
            start_block,
            length,
            digest: Some(digest),
        },
    };
    ObjectRow { state, ..row }
}

impl ObjectTrees {
    /// The trees with a row that is held, if one is, in its place.
    pub(crate) fn with_held(
        &self,
        alloc: Global,
        held: &Option<ObjectRow>,
    ) -> Result<ObjectTrees, Memory>
        requires held { IsHeld held.now self.now }
        ensures { IfOk result (λ next. next ≡ shown_kept held.now self.now) }
    {
        match held {
            Some(row) => self.with_shown(alloc, row),
            None => self.share(),
        }
    }

    /// The trees with a row in place of the one of its serial, from which it differs in the digest alone.
    fn with_shown(&self, alloc: Global, row: &ObjectRow) -> Result<ObjectTrees, Memory>
        requires held { IsHeld (Some row.now) self.now }
        ensures { IfOk result (λ next. next ≡ shown_kept (Some row.now) self.now) }
    {
        self.is_in_order();
        self.rows.keys_rise();
        let Some(old) = value_at(&self.rows, &serial_key(row.serial)) else {
            return self.share();
        };
        let new = Kept {
            row: row.duplicate(alloc)?,
            flows: old.flows.share()?,
        };
        self.with_kept(alloc, old, new)
    }
}
