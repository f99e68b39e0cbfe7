//! The library of a half's rows.
ghost use Rattle.std.specs.Prelude.{◌≤◌, ◌+◌, ◌*◌, ℕ, List, IfOk};
ghost use Rattle.disk_trait.specs.Forms.{IsForm};
ghost use Rattle.media_journal.specs.Opening.{IsOpened, header_of};
ghost use Rattle.store_states.specs.States.{IsSnapshot};
ghost use Rattle.store_opening.specs.Within.{RowsMakeNoLibrary, AtDamage};

use crate::fault::OpenFault;
use media_journal::Opened;
use media_rows::{ApplyFault, RowList};
use snapshot_rows::{RowsFault, read_rows};
use std::alloc::Global;
use store_core::Core;

/// The library of the rows of what was opened.
pub(crate) fn library_of_rows(alloc: Global, opened: &Opened) -> Result<Core, OpenFault>
    requires sizes { 2 * opened.now.half + 3 ≤ opened.now.blocks }
    requires form { IsForm opened.now.form }
    ensures ok { IfOk result (λ core. IsSnapshot opened.now.form (header_of opened.now)
        opened.now.rows core.library) }
    ensures damaged { (image : List ℕ) → IsOpened image opened.now
        → AtDamage result (RowsMakeNoLibrary image) }
{
    let rows = match read_rows(alloc, opened.rows.bytes(), opened.form) {
        Ok(rows) => rows,
        // Places of a file fit a u64, so that nothing is cut here or below.
        Err(RowsFault::Damaged(row)) => {
            return Err(OpenFault::Damaged(opened.rows_at.saturating_add(row)));
        }
        Err(RowsFault::Memory) => return Err(OpenFault::Memory),
    };
    let media_blocks = opened.blocks - (2 * opened.half + 2);
    match Core::from_rows(alloc, opened.id, media_blocks, rows) {
        Ok(library) => Ok(library),
        Err(ApplyFault::Refused) => Err(OpenFault::Damaged(opened.rows_at.saturating_sub(8))),
        Err(ApplyFault::Memory) => Err(OpenFault::Memory),
    }
}
