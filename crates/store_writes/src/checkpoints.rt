//! A checkpoint of the library that is kept.
ghost use Rattle.std.specs.Prelude.{◌≡◌, ◌≤◌, ◌+◌, ◌*◌, ℕ, true, List, length, is_ok, OnOk, OnErr};
ghost use Rattle.disk_trait.specs.Forms.{form_in_use};
ghost use Rattle.disk_trait.specs.Calls.{DiskCalls, LeavesOnly};
ghost use Rattle.media_journal.specs.Checkpoint.{after_checkpoint, checkpoint_calls};
ghost use Rattle.media_journal.specs.Journal.{IsWhole};
ghost use Rattle.media_rows.specs.declared.object.ObjectRow.{ObjectRow};
ghost use Rattle.store_states.specs.Kept.{AgreesWith, HoldsEach, StoreView, kept_checked, kept_state};
ghost use Rattle.store_states.specs.States.{IsTextOf, media_start};
ghost use Rattle.store_writes.specs.Writes.{Advances};

use disk_trait::{Disk, Failed};
use media_journal::{BLOCK, Journal};

/// Writes the rows of the library that is kept into the other half, and makes it the journal's. The half is
/// synced before the selector names it, and the selector before the call answers. After `Failed` the store
/// must be opened again.
pub fn checkpoint<D: Disk>(disk: &mut D, journal: &mut Journal, rows: &[u8]) -> Result<(), Failed>
    requires device { BLOCK * journal.old.blocks ≤ (D.device disk.old).size }
    requires whole { IsWhole journal.old }
    requires fits { length rows.now + 9 ≤ BLOCK * journal.old.half }

    // At each moment a crash leaves the state before the checkpoint or the one after it, of the same library;
    // after Ok the one after it alone, and what is kept is that.
    ensures makes { (D.device disk.old).honest ≡ true → (D.device disk.old).shows ≡ true
        → (kept : StoreView) → (held : List (List ℕ))
        → AgreesWith (D.device disk.old) kept held → kept.journal ≡ journal.old
        → IsTextOf form_in_use kept.library.id kept.library.blocks rows.now kept.library
        → Advances (is_ok result) (kept_state kept held) (kept_checked kept (length rows.now)) held
        (D.device disk.old) (D.device disk.new) }

    // It writes before the media blocks: the bytes of any objects stay, be they stored or to be stored.
    ensures bytes { (D.device disk.old).honest ≡ true → (D.device disk.old).shows ≡ true
        → (kept : StoreView) → (held : List (List ℕ))
        → AgreesWith (D.device disk.old) kept held → kept.journal ≡ journal.old
        → (objects : List ObjectRow) → (bytes : List (List ℕ))
        → HoldsEach (D.device disk.old) (media_start kept.journal.half) objects bytes
        → HoldsEach (D.device disk.new) (media_start kept.journal.half) objects bytes }

    ensures moved { OnOk result (journal.new ≡ after_checkpoint journal.old (length rows.now)) }
    ensures err { OnErr result (journal.new ≡ journal.old) }
    ensures still_whole { IsWhole journal.new }
    ensures durable { (D.device disk.old).honest ≡ true
        → OnOk result (LeavesOnly (D.device disk.new).seen (D.device disk.new)) }
    ensures handed { (D.device disk.old).tells ≡ true → OnOk result
        ((D.device disk.new).handed ≡ (D.device disk.old).handed + (length rows.now + 10)) }
    ensures handed_at_most { (D.device disk.old).tells ≡ true
        → (D.device disk.new).handed ≤ (D.device disk.old).handed + (length rows.now + 10) }
    ensures calls { DiskCalls (is_ok result) (D.device disk.old) (D.device disk.new) }
    ensures few_calls { (D.device disk.new).moment
        ≤ (D.device disk.old).moment + checkpoint_calls (length rows.now) }
{
    match journal.checkpoint(disk, rows) {
        Ok(()) => Ok(()),
        Err(_) => Err(Failed),
    }
}
