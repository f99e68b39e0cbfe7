//! Records of changes, appended to the journal.
ghost use Rattle.std.specs.Prelude.{◌≡◌, ◌≤◌, ◌+◌, ◌*◌, ℕ, true, List, length, is_ok, OnOk, OnErr};
ghost use Rattle.disk_trait.specs.Forms.{form_in_use};
ghost use Rattle.media_rows.specs.Library.{Library};
ghost use Rattle.disk_trait.specs.Calls.{DiskCalls, LeavesOnly};
ghost use Rattle.media_journal.specs.Journal.{IsWhole, after_append};
ghost use Rattle.store_states.specs.Kept.{AgreesWith, HoldsEach, StoreView, kept_after, kept_state};
ghost use Rattle.store_states.specs.States.{StepOf, media_start};
ghost use Rattle.store_writes.specs.Writes.{Advances};

use disk_trait::{Disk, Failed};
use media_journal::{BLOCK, Frame, Journal};

/// Appends the record of a change. Its bytes are synced before its gate is opened, and the open gate before
/// the call answers. After `Failed` the store must be opened again.
pub fn append_change<D: Disk>(
    disk: &mut D,
    journal: &mut Journal,
    frame: &Frame,
) -> Result<(), Failed>
    requires device { BLOCK * journal.old.blocks ≤ (D.device disk.old).size }
    requires fits { length frame.now + 6 ≤ journal.old.room }

    // At each moment a crash leaves the state before the change or the one after it; after Ok the one after
    // it alone, and what is kept is that. The bytes of the next library's objects are there already.
    ensures makes { (D.device disk.old).honest ≡ true → (D.device disk.old).shows ≡ true
        → (kept : StoreView) → (held : List (List ℕ)) → (next : Library) → (next_held : List (List ℕ))
        → AgreesWith (D.device disk.old) kept held → kept.journal ≡ journal.old
        → StepOf form_in_use frame.now kept.library next
        → HoldsEach (D.device disk.old) (media_start kept.journal.half) next.objects next_held
        → Advances (is_ok result) (kept_state kept held) (kept_after kept next (length frame.now)) next_held
        (D.device disk.old) (D.device disk.new) }

    ensures moved { OnOk result (journal.new ≡ after_append journal.old (length frame.now)) }
    ensures err { OnErr result (journal.new ≡ journal.old) }
    ensures whole { IsWhole journal.old → IsWhole journal.new }
    ensures durable { (D.device disk.old).honest ≡ true
        → OnOk result (LeavesOnly (D.device disk.new).seen (D.device disk.new)) }
    ensures handed { (D.device disk.old).tells ≡ true → OnOk result
        ((D.device disk.new).handed ≡ (D.device disk.old).handed + (length frame.now + 6)) }
    ensures handed_at_most { (D.device disk.old).tells ≡ true
        → (D.device disk.new).handed ≤ (D.device disk.old).handed + (length frame.now + 6) }
    ensures calls { DiskCalls (is_ok result) (D.device disk.old) (D.device disk.new) }
    ensures four_calls { (D.device disk.new).moment ≤ (D.device disk.old).moment + 4 }
{
    match journal.append(disk, frame) {
        Ok(()) => Ok(()),
        Err(_) => Err(Failed),
    }
}
