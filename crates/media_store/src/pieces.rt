//! The bytes of stored objects, read in pieces.
ghost use Rattle.std.specs.Prelude.{◌≡◌, ◌≤◌, ◌+◌, ℕ, true, List, length, IsFalse, OnOk, is_ok};
ghost use Rattle.std.specs.Result.{is_err};
ghost use Rattle.disk_trait.specs.Calls.{DiskCall, Unchanged, bytes_at};
ghost use Rattle.object_blobs.specs.Extents.{extent_bytes};
ghost use Rattle.store_states.specs.Kept.{AgreesWith};
ghost use Rattle.store_states.specs.States.{media_start};
ghost use Rattle.store_writes.specs.Writes.{Keeps};
ghost use Rattle.media_store.specs.Changes.{FileStands};
ghost use Rattle.media_store.specs.Pieces.{IsExtent};
ghost use Rattle.media_store.specs.Stores.{size_of};

use crate::Store;
use disk_trait::{Disk, Failed};
use media_rows::Extent;
use store_writes::read_kept;

impl Store {
    /// Reads a piece of a stored object's bytes, from this offset in them on, into all of `out`. It is one read,
    /// and takes no memory. After `Failed` the store is spent.
    pub fn get_piece<D: Disk>(
        &mut self,
        disk: &mut D,
        extent: Extent,
        at: u64,
        out: &mut [u8],
    ) -> Result<(), Failed>
        requires unspent { IsFalse self.old.spent }
        requires device { size_of self.old.kept ≤ (D.device disk.old).size }
        requires stored { IsExtent self.old.kept.library extent }
        requires inside { at + length out.old ≤ extent.length }

        // The bytes are those of the object, and what is kept stays.
        ensures piece { (D.device disk.old).shows ≡ true → OnOk result (out.new ≡ bytes_at
            (extent_bytes (media_start self.old.kept.journal.half) extent (D.device disk.old).seen)
            at (length out.old)) }
        ensures keeps { (held : List (List ℕ)) → AgreesWith (D.device disk.old) self.old.kept held
            → Keeps self.old.kept held (D.device disk.old) (D.device disk.new) }

        // So it does where the read fails.
        ensures stands { FileStands (D.device disk.old) self.old.kept
            → FileStands (D.device disk.new) self.new.kept }

        ensures kept { self.new.kept ≡ self.old.kept }
        ensures put { self.new.put ≡ self.old.put }
        ensures spent { self.new.spent ≡ is_err result }
        ensures call { DiskCall Unchanged (is_ok result) (D.device disk.old) (D.device disk.new) }
        ensures seen { (D.device disk.new).seen ≡ (D.device disk.old).seen }
        ensures handed { (D.device disk.new).handed ≡ (D.device disk.old).handed }
    {
        self.library.keeps_good();
        let area = self.area();
        match read_kept(disk, area, extent, at, out) {
            Ok(()) => Ok(()),
            Err(fault) => {
                self.spent = true;
                Err(fault)
            }
        }
    }
}
