//! The rows of a library with the digests of its objects' bytes.
ghost use Rattle.std.specs.Prelude.{◌≡◌, ◌≤◌, ◌+◌, ◌*◌, true, length, All, IfOk};
ghost use Rattle.disk_trait.specs.Calls.{DiskReads};
ghost use Rattle.store_core.specs.Prepared.{stored_objects};
ghost use Rattle.store_opening.specs.Opening.{HasItsBlocks};
ghost use Rattle.store_states.specs.States.{digested, digested_row, library_in, media_start};
ghost use Rattle.store_migration.specs.Within.{AreRowsOf, IsThere, rows_read};

use crate::fault::RowsFault;
use disk_trait::{Disk, Duplicate, Listed, Text};
use media_journal::{BLOCK, Journal};
use media_rows::{Extent, ObjectList, ObjectRow, ObjectState};
use object_blobs::extent_digest;
use std::alloc::Global;
use store_core::Core;

/// The rows of a library with the digests of its objects' bytes: how many of these are stored, and the text of all.
#[derive(Drop)]
pub(crate) struct LibraryRows {
    pub stored: u64,
    pub text: Text,
}

/// The rows of a library with the digests of its objects' bytes, each of which are read once.
pub(crate) fn library_rows<D: Disk>(
    alloc: Global,
    disk: &mut D,
    core: &Core,
    journal: &Journal,
) -> Result<LibraryRows, RowsFault>
    requires device { BLOCK * journal.now.blocks ≤ (D.device disk.old).size }
    requires sizes { 2 * journal.now.half + 3 ≤ journal.now.blocks }
    requires blocks { HasItsBlocks core.now.library journal.now }
    ensures rows { (D.device disk.old).shows ≡ true → IfOk result (AreRowsOf
        (library_in 1 (D.device disk.old).seen (media_start journal.now.half) core.now.library)) }
    ensures reads { DiskReads (rows_read result) (D.device disk.old) (D.device disk.new) }
{
    core.keeps_good();
    let area = BLOCK * (2 * journal.half() + 2);
    let objects = digested_rows(alloc, disk, area, core.objects(alloc)?)?;
    let text = core.rows_with(alloc, objects.items())?;
    Ok(LibraryRows {
        stored: stored_count(objects.items()),
        text,
    })
}

/// How many of these objects are stored.
fn stored_count(rows: &[ObjectRow]) -> u64
    ensures { result ≡ length (stored_objects rows.now) }
{
    let mut count = 0;
    for row in rows {
        if let ObjectState::Stored { .. } = row.state {
            count += 1;
        }
    }
    count
}

/// These rows of objects with the digests of their bytes, where the media blocks begin at `area`.
fn digested_rows<D: Disk>(
    alloc: Global,
    disk: &mut D,
    area: u64,
    rows: ObjectList,
) -> Result<ObjectList, RowsFault>
    requires there { All (λ row. IsThere area row.state (D.device disk.old).size) rows }
    ensures made { (D.device disk.old).shows ≡ true
        → IfOk result (λ list. list ≡ digested (D.device disk.old).seen area rows) }
    ensures reads { DiskReads (rows_read result) (D.device disk.old) (D.device disk.new) }
{
    let mut list = Listed::new(alloc);
    for row in rows.items() {
        let made = digested_row(alloc, disk, area, row)?;
        list.push(made)?;
    }
    Ok(list)
}

/// The row of an object with the digest of its bytes, where it is stored.
fn digested_row<D: Disk>(
    alloc: Global,
    disk: &mut D,
    area: u64,
    row: &ObjectRow,
) -> Result<ObjectRow, RowsFault>
    requires there { IsThere area row.now.state (D.device disk.old).size }
    ensures made { (D.device disk.old).shows ≡ true
        → IfOk result (λ made. made ≡ digested_row (D.device disk.old).seen area row.now) }
    ensures reads { DiskReads (rows_read result) (D.device disk.old) (D.device disk.new) }
{
    let mut made = row.duplicate(alloc)?;
    if let ObjectState::Stored {
        start_block,
        length,
        ..
    } = row.state
    {
        let extent = Extent {
            start: start_block,
            length,
        };
        made.state = ObjectState::Stored {
            start_block,
            length,
            digest: Some(extent_digest(disk, area, extent)?),
        };
    }
    Ok(made)
}
