//! Opening a store.
ghost use Rattle.std.specs.Prelude.{◌≡◌, ◌≤◌, true, None, IfOk, IsFalse};
ghost use Rattle.disk_trait.specs.Calls.{DiskReads, LeavesOnly};
ghost use Rattle.media_journal.specs.Answers.{not_disk};
ghost use Rattle.store_opening.specs.Opening.{bytes_in_image};
ghost use Rattle.store_states.specs.Kept.{AgreesWith};
ghost use Rattle.media_store.specs.Stores.{OpensAs, size_of};

use crate::Store;
use disk_trait::Disk;
use media_journal::JournalFault;
use std::alloc::Global;
use store_opening::{OpenedStore, open_store};

impl Store {
    /// Opens the store of a device. `NotStore` comes exactly where the device has fewer than 20,480 bytes or no
    /// open header, and `Damaged` with the offset at which the file is damaged, in bytes, as `open_store` of
    /// `store_opening` has it.
    pub fn open<D: Disk>(alloc: Global, disk: &mut D) -> Result<Store, JournalFault>
        ensures reads { DiskReads (not_disk result) (D.device disk.old) (D.device disk.new) }
        ensures within { IfOk result (λ store. size_of store.kept ≤ (D.device disk.new).size) }
        ensures unspent { IfOk result (λ store. IsFalse store.spent) }
        ensures idle { IfOk result (λ store. store.put ≡ None) }
        ensures answer { (D.device disk.old).shows ≡ true
            → OpensAs (D.device disk.old).seen result }

        // Where a crash could leave nothing but what a read gives, the store agrees with the device.
        ensures agrees { (D.device disk.old).shows ≡ true
            → LeavesOnly (D.device disk.old).seen (D.device disk.old)
            → IfOk result (λ store. AgreesWith (D.device disk.new) store.kept
            (bytes_in_image (D.device disk.old).seen store.kept)) }
    {
        let OpenedStore { core, journal } = open_store(alloc, disk)?;
        Ok(Store {
            library: core,
            journal,
            spent: false,
            put: None,
        })
    }
}
