//! Whether the bytes of a stored object are those that were put.
ghost use Rattle.std.specs.Prelude.{◌≡◌, ◌≤◌, ℕ, true, List, IfOk, IsFalse, IsTrue, is_ok};
ghost use Rattle.std.specs.Result.{is_err};
ghost use Rattle.disk_trait.specs.Calls.{DiskReads};
ghost use Rattle.media_rows.specs.Digests.{digest_of};
ghost use Rattle.media_rows.specs.Objects.{is_stored_row, object_of};
ghost use Rattle.object_blobs.specs.Extents.{extent_bytes};
ghost use Rattle.store_states.specs.Kept.{AgreesWith};
ghost use Rattle.store_states.specs.States.{media_start};
ghost use Rattle.media_store.specs.Changes.{FileStands};
ghost use Rattle.media_store.specs.Pieces.{IsExtent};
ghost use Rattle.media_store.specs.Probes.{Tells, state_of};
ghost use Rattle.media_store.specs.Stores.{size_of};

use crate::Store;
use disk_trait::{Disk, Failed, Text};
use media_rows::{Digest, Extent, ObjectState};
use object_blobs::extent_digest;

/// The digest that is kept of a stored object's bytes, and that of the bytes which are there. The object is whole
/// where they are equal.
#[derive(Clone, Copy, Debug, PartialEq, Eq)]
pub struct Probe {
    pub kept: Digest,
    pub found: Digest,
}

impl Store {
    /// Reads the bytes of a stored object once, and tells their digest and the one that is kept of them. Where none
    /// is kept, as in a file of form 1, it is what was found. It takes no memory. After `Failed` the store is spent.
    pub fn probe<D: Disk>(&mut self, disk: &mut D, object: &Text) -> Result<Probe, Failed>
        requires unspent { IsFalse self.old.spent }
        requires device { size_of self.old.kept ≤ (D.device disk.old).size }
        requires stored { IsTrue (is_stored_row (object_of object.now self.old.kept.library.objects)) }
        ensures tells { (D.device disk.old).shows ≡ true → IfOk result (Tells (media_start self.old.kept.journal.half)
            (D.device disk.old).seen (object_of object.now self.old.kept.library.objects)) }
        ensures reads { DiskReads (is_ok result) (D.device disk.old) (D.device disk.new) }
        ensures keeps { (held : List (List ℕ)) → AgreesWith (D.device disk.old) self.old.kept held
            → AgreesWith (D.device disk.new) self.old.kept held }
        ensures stands { FileStands (D.device disk.old) self.old.kept
            → FileStands (D.device disk.new) self.old.kept }
        ensures kept { self.new.kept ≡ self.old.kept }
        ensures put { self.new.put ≡ self.old.put }
        ensures spent { self.new.spent ≡ is_err result }
    {
        match self.state_of(object) {
            ObjectState::Stored {
                start_block,
                length,
                digest,
            } => {
                let extent = Extent {
                    start: start_block,
                    length,
                };
                let found = self.digest_at(disk, extent)?;
                Ok(Probe {
                    kept: digest.unwrap_or(found),
                    found,
                })
            }
            ObjectState::Allocated => unreachable!(),
        }
    }

    /// The state of an object. One that isn't kept is as one without bytes.
    fn state_of(&self, object: &Text) -> ObjectState
        ensures { result ≡ state_of (object_of object.now self.now.kept.library.objects) }
    {
        match self.library.object(object) {
            Some(row) => row.state,
            None => ObjectState::Allocated,
        }
    }

    /// The digest of the bytes at the extent of a stored object.
    fn digest_at<D: Disk>(&mut self, disk: &mut D, extent: Extent) -> Result<Digest, Failed>
        requires unspent { IsFalse self.old.spent }
        requires device { size_of self.old.kept ≤ (D.device disk.old).size }
        requires stored { IsExtent self.old.kept.library extent }
        ensures found { (D.device disk.old).shows ≡ true → IfOk result (λ digest. digest
            ≡ digest_of (extent_bytes (media_start self.old.kept.journal.half) extent (D.device disk.old).seen)) }
        ensures reads { DiskReads (is_ok result) (D.device disk.old) (D.device disk.new) }
        ensures keeps { (held : List (List ℕ)) → AgreesWith (D.device disk.old) self.old.kept held
            → AgreesWith (D.device disk.new) self.old.kept held }
        ensures stands { FileStands (D.device disk.old) self.old.kept
            → FileStands (D.device disk.new) self.old.kept }
        ensures kept { self.new.kept ≡ self.old.kept }
        ensures put { self.new.put ≡ self.old.put }
        ensures spent { self.new.spent ≡ is_err result }
    {
        self.library.keeps_good();
        let area = self.area();
        match extent_digest(disk, area, extent) {
            Ok(digest) => Ok(digest),
            Err(fault) => {
                self.spent = true;
                Err(fault)
            }
        }
    }
}
