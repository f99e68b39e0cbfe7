//! A change of a store as one step: the rows of a checkpoint where they are needed, and the record.
ghost use Rattle.std.specs.Prelude.{◌≡◌, ◌≤◌, ◌+◌, ◌*◌, ℕ, true, List, length, is_ok, IfSome, OnOk};
ghost use Rattle.std.specs.Option.{option_copied};
ghost use Rattle.disk_trait.specs.Forms.{form_in_use};
ghost use Rattle.media_rows.specs.declared.object.ObjectRow.{ObjectRow};
ghost use Rattle.media_rows.specs.Library.{Library};
ghost use Rattle.disk_trait.specs.Calls.{DiskCalls, LeavesOnly};
ghost use Rattle.media_journal.specs.Journal.{IsWhole, after_append};
ghost use Rattle.store_states.specs.Fitting.{FitsJournal};
ghost use Rattle.store_states.specs.Kept.{AgreesWith, HoldsEach, StoreView, kept_state};
ghost use Rattle.store_states.specs.States.{StepOf, media_start};
ghost use Rattle.store_commits.specs.Carrying.{AreRowsOf, Carries, journal_for, kept_written, rows_bytes, rows_calls, written_bytes};
ghost use Rattle.store_commits.specs.Within.{kept_with_rows};

use disk_trait::{Disk, Failed, Text};
use media_journal::{BLOCK, Frame, Journal};
use store_writes::{append_change, checkpoint};

/// Writes a change: the rows of the library before it, where there are some, as a checkpoint, and then the
/// record. Each is synced before what makes it count, and all before the call answers. After `Failed` the
/// store must be opened again.
pub fn write_change<D: Disk>(
    disk: &mut D,
    journal: &mut Journal,
    rows: Option<&Text>,
    frame: &Frame,
) -> Result<(), Failed>
    requires device { BLOCK * journal.old.blocks ≤ (D.device disk.old).size }
    requires whole { IsWhole journal.old }
    requires fits { FitsJournal journal.old (option_copied rows) frame.now }

    // At each moment a crash leaves the archive before the change or the one after it; after Ok the one after
    // it alone, and what is kept is that. The bytes of the next library's objects are there already.
    ensures makes { (D.device disk.old).honest ≡ true → (D.device disk.old).shows ≡ true
        → (kept : StoreView) → (held : List (List ℕ)) → (next : Library) → (next_held : List (List ℕ))
        → AgreesWith (D.device disk.old) kept held → kept.journal ≡ journal.old
        → AreRowsOf (option_copied rows.entry) kept.library → StepOf form_in_use frame.now kept.library next
        → HoldsEach (D.device disk.old) (media_start kept.journal.half) next.objects next_held
        → Carries (is_ok result) (kept_state kept held).archive
        (kept_written kept (option_copied rows.entry) next frame.now) next_held
        (D.device disk.old) (D.device disk.new) }

    ensures moved { OnOk result
        (journal.new ≡ after_append (journal_for journal.old (option_copied rows.entry)) (length frame.now)) }
    ensures still_whole { IsWhole journal.new }
    ensures durable { (D.device disk.old).honest ≡ true
        → OnOk result (LeavesOnly (D.device disk.new).seen (D.device disk.new)) }
    ensures handed { (D.device disk.old).tells ≡ true → OnOk result ((D.device disk.new).handed
        ≡ (D.device disk.old).handed + written_bytes (option_copied rows.entry) frame.now) }
    ensures handed_at_most { (D.device disk.old).tells ≡ true → (D.device disk.new).handed
        ≤ (D.device disk.old).handed + written_bytes (option_copied rows.entry) frame.now }
    ensures calls { DiskCalls (is_ok result) (D.device disk.old) (D.device disk.new) }
    ensures few_calls { (D.device disk.new).moment
        ≤ (D.device disk.old).moment + (4 + rows_calls (option_copied rows.entry)) }
{
    write_rows(disk, journal, rows)?;
    append_change(disk, journal, frame)
}

/// Writes these rows of the library as a checkpoint, where there are some.
fn write_rows<D: Disk>(
    disk: &mut D,
    journal: &mut Journal,
    rows: Option<&Text>,
) -> Result<(), Failed>
    requires device { BLOCK * journal.old.blocks ≤ (D.device disk.old).size }
    requires whole { IsWhole journal.old }
    requires fits { IfSome (option_copied rows) (λ text. length text + 9 ≤ BLOCK * journal.old.half) }

    // The same library is kept, and the bytes of any objects stay.
    ensures makes { (D.device disk.old).honest ≡ true → (D.device disk.old).shows ≡ true
        → (kept : StoreView) → (held : List (List ℕ))
        → AgreesWith (D.device disk.old) kept held → kept.journal ≡ journal.old
        → AreRowsOf (option_copied rows.entry) kept.library
        → Carries (is_ok result) (kept_state kept held).archive (kept_with_rows kept (option_copied rows.entry)) held
        (D.device disk.old) (D.device disk.new) }
    ensures bytes { (D.device disk.old).honest ≡ true → (D.device disk.old).shows ≡ true
        → (kept : StoreView) → (held : List (List ℕ))
        → AgreesWith (D.device disk.old) kept held → kept.journal ≡ journal.old
        → (objects : List ObjectRow) → (bytes : List (List ℕ))
        → HoldsEach (D.device disk.old) (media_start kept.journal.half) objects bytes
        → HoldsEach (D.device disk.new) (media_start kept.journal.half) objects bytes }

    ensures moved { OnOk result (journal.new ≡ journal_for journal.old (option_copied rows.entry)) }
    ensures still_whole { IsWhole journal.new }
    ensures handed { (D.device disk.old).tells ≡ true → OnOk result ((D.device disk.new).handed
        ≡ (D.device disk.old).handed + rows_bytes (option_copied rows.entry)) }
    ensures handed_at_most { (D.device disk.old).tells ≡ true → (D.device disk.new).handed
        ≤ (D.device disk.old).handed + rows_bytes (option_copied rows.entry) }
    ensures calls { DiskCalls (is_ok result) (D.device disk.old) (D.device disk.new) }
    ensures few_calls { (D.device disk.new).moment
        ≤ (D.device disk.old).moment + rows_calls (option_copied rows.entry) }
{
    match rows {
        None => Ok(()),
        Some(text) => checkpoint(disk, journal, text.bytes()),
    }
}
