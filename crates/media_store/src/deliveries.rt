//! Delivery: what waits for each hook, and the removal of an event that was delivered.
ghost use Rattle.std.specs.Prelude.{◌≡◌, ◌≤◌, ◌+◌, ℕ, true, false, List, None, IfOk, IfSome, IsFalse, IsTrue, OnOk, option_copied};
ghost use Rattle.media_rows.specs.declared.change.Change.TheVariants.{Delivered};
ghost use Rattle.media_rows.specs.Moments.{is_moment};
ghost use Rattle.media_rows.specs.Outbox.{waiting_for, waits_first};
ghost use Rattle.disk_trait.specs.Calls.{DiskCalls};
ghost use Rattle.shared_tree.specs.Pairs.{first};
ghost use Rattle.webhook_outbox.specs.Ordered.{IsLeastFor, IsNextHook, next_hook};
ghost use Rattle.change_codec.specs.Fitting.{fits};
ghost use Rattle.store_states.specs.Kept.{AgreesWith};
ghost use Rattle.media_store.specs.Changes.{CanCommit, FileStands, IsNextIf, MakesIf, bytes_if};
ghost use Rattle.media_store.specs.Deliveries.{delivery_of};
ghost use Rattle.media_store.specs.Faults.{OnCalls, OnDisk, OnMemory, UnlessDisk, is_disk, not_disk_fault};
ghost use Rattle.media_store.specs.Stores.{journal_of, size_of};
ghost use Rattle.media_store.specs.Within.{IsPlannedIfFits};

use crate::{Store, StoreFault};
use disk_trait::{Disk, Memory};
use library_laws::{applies_is_tested, serials_end};
use media_rows::{Change, EventRow, HookRow};
use std::alloc::Global;
use store_plans::{ChangePlan, Planned, plan_change};

impl Store {
    /// The hook of least serial above this one; `None` exactly where there is none. It takes no memory.
    pub fn next_hook(&self, after: u64) -> Option<&HookRow>
        ensures next { option_copied result ≡ next_hook after self.now.kept.library.outbox.hooks }
        ensures least { IfSome result (λ row. IsNextHook after self.now.kept.library.outbox.hooks row.now) }
    {
        self.library.next_hook(after)
    }

    /// The event of least serial that waits for the hook of this serial; `None` exactly where none does. It takes no
    /// memory.
    pub fn first_event(&self, hook: u64) -> Option<&EventRow>
        ensures first { option_copied result ≡ first (waiting_for hook self.now.kept.library.outbox.events) }
        ensures least { IfSome result
            (λ row. IsLeastFor hook self.now.kept.library.outbox.events row.now) }
    {
        self.library.first_event(hook)
    }

    /// Removes an event that was delivered, the first that waits for its hook, at a moment in seconds since
    /// 1970-01-01T00:00:00Z; false exactly where the change doesn't fit the journal, even behind a checkpoint, and then
    /// nothing changes. All memory is taken before the first call of the disk. After `Disk` the store is spent.
    pub fn mark_delivered<D: Disk>(
        &mut self,
        alloc: Global,
        disk: &mut D,
        event: u64,
        now: u64,
    ) -> Result<bool, StoreFault>
        requires unspent { IsFalse self.old.spent }
        requires idle { self.old.put ≡ None }
        requires device { size_of self.old.kept ≤ (D.device disk.old).size }
        requires moment { IsTrue (is_moment now) }
        requires first { IsTrue (waits_first event self.old.kept.library.outbox.events) }
        ensures fits { IfOk result (λ done. done ≡ fits (journal_of self.old.kept) (Delivered now event)) }
        ensures makes { (D.device disk.old).honest ≡ true → (D.device disk.old).shows ≡ true
            → (held : List (List ℕ)) → AgreesWith (D.device disk.old) self.old.kept held
            → OnCalls result (λ ok. MakesIf ok (delivery_of (journal_of self.old.kept) event now)
            self.old.kept self.new.kept held (D.device disk.old) (D.device disk.new)) }
        ensures stands { (D.device disk.old).honest ≡ true → (D.device disk.old).shows ≡ true
            → FileStands (D.device disk.old) self.old.kept
            → UnlessDisk result (FileStands (D.device disk.new) self.new.kept) }
        ensures next { OnOk result (IsNextIf self.old.kept
            (delivery_of (journal_of self.old.kept) event now) self.new.kept) }

        // Where it doesn't fit, the store stays and nothing is asked of the disk.
        ensures unchanged { fits (journal_of self.old.kept) (Delivered now event) ≡ false
            → (self.new ≡ self.old) × (disk.new ≡ disk.old) }

        ensures memory { OnMemory result ((self.new ≡ self.old) × (disk.new ≡ disk.old)) }

        // A call of the disk fails only within a change that fits.
        ensures failing { OnDisk result (fits (journal_of self.old.kept) (Delivered now event) ≡ true) }

        ensures idle { self.new.put ≡ None }
        ensures spent { self.new.spent ≡ is_disk result }
        ensures handed { (D.device disk.old).tells ≡ true → OnOk result ((D.device disk.new).handed
            ≡ (D.device disk.old).handed + bytes_if (journal_of self.old.kept)
            (delivery_of (journal_of self.old.kept) event now)) }
        ensures handed_at_most { (D.device disk.old).tells ≡ true → (D.device disk.new).handed
            ≤ (D.device disk.old).handed + bytes_if (journal_of self.old.kept)
            (delivery_of (journal_of self.old.kept) event now) }
        ensures calls { DiskCalls (not_disk_fault result) (D.device disk.old) (D.device disk.new) }
    {
        match self.plan_delivered(alloc, event, now)? {
            Some(planned) => self.step(disk, planned, true),
            None => Ok(false),
        }
    }

    /// The plan of the removal of the first event that waits for its hook, and `None` exactly where it doesn't fit the
    /// journal.
    fn plan_delivered(&self, alloc: Global, event: u64, now: u64) -> Result<Option<Planned>, Memory>
        requires moment { IsTrue (is_moment now) }
        requires first { IsTrue (waits_first event self.now.kept.library.outbox.events) }
        ensures planned { IfOk result
            (IsPlannedIfFits (journal_of self.now.kept) (Delivered now event)) }
        ensures ready { IfOk result (λ planned. IfSome planned (CanCommit self.now.kept)) }
    {
        applies_is_tested();
        serials_end();
        self.library.keeps_good();
        let change = Change::Delivered { moment: now, event };
        match plan_change(alloc, &self.library, &self.journal, &change)? {
            ChangePlan::Made(planned) => Ok(Some(planned)),
            ChangePlan::NoRoom => Ok(None),
            ChangePlan::Refused => unreachable!(),
        }
    }
}
