//! The library and the rows of a snapshot.
ghost use Rattle.std.specs.Prelude.{IfOk};
ghost use Rattle.media_rows.specs.Good.{Good};
ghost use Rattle.media_rows.specs.Refusals.{Restores};
ghost use Rattle.media_rows.specs.Snapshot.{library_of, rows_of};
ghost use Rattle.disk_trait.specs.Forms.{form_in_use};
ghost use Rattle.snapshot_rows.specs.Texts.{SpellsRows};
ghost use Rattle.core_parts.specs.Parts.{given_parts};
ghost use Rattle.core_restore.specs.Restored.{are_rows_of_good};

use crate::Core;
use core_restore::parts_of_rows;
use core_snapshot::{snapshot_text, snapshot_text_with};
use disk_trait::{Memory, Text};
use library_laws::{good_is_tested, rows_rise};
use media_rows::{ApplyFault, ObjectRow, RowList};
use std::alloc::Global;

impl Core {
    /// The text of the library's rows in the order of a snapshot. A row that has no spelling is want of memory.
    pub fn rows(&self, alloc: Global) -> Result<Text, Memory>
        ensures { IfOk result (λ text. SpellsRows form_in_use text (rows_of self.now.library)) }
    {
        rows_rise();
        let text = snapshot_text(alloc, &self.parts)?;
        Ok(text)
    }

    /// The text of the rows of the library with these in place of those of its objects. They stand in the order of a
    /// snapshot where that library is good, too.
    pub fn rows_with(&self, alloc: Global, objects: &[ObjectRow]) -> Result<Text, Memory>
        ensures { Good (record self.now.library { objects = objects.now })
            → IfOk result (λ text. SpellsRows form_in_use text
            (rows_of (record self.now.library { objects = objects.now }))) }
    {
        rows_rise();
        let text = snapshot_text_with(alloc, &self.parts, objects)?;
        Ok(text)
    }

    /// The library of these rows, under this id and of so many media blocks, of 4,096 bytes. They are refused exactly
    /// where they aren't the rows of a good library in the order of a snapshot.
    pub fn from_rows(
        alloc: Global,
        id: u128,
        blocks: u64,
        rows: RowList,
    ) -> Result<Core, ApplyFault>
        ensures { Restores (are_rows_of_good id blocks rows) (library_of id blocks rows) (given_parts result) }
    {
        good_is_tested();
        match parts_of_rows(alloc, id, blocks, rows) {
            Ok(parts) => Ok(Core { parts }),
            Err(fault) => Err(fault),
        }
    }
}
