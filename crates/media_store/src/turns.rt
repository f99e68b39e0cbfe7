//! Turns: what is due is done one step at a time.
ghost use Rattle.std.specs.Prelude.{◌≡◌, ◌≤◌, ◌+◌, ℕ, true, List, None, Option, Some, IfOk, IsFalse, IsTrue, OnOk, is_some};
ghost use Rattle.media_rows.specs.declared.change.Change.{Change};
ghost use Rattle.media_rows.specs.Apply.{turn};
ghost use Rattle.media_rows.specs.Moments.{is_moment};
ghost use Rattle.disk_trait.specs.Calls.{DiskCalls};
ghost use Rattle.store_plans.specs.Plans.{IsStepPlan};
ghost use Rattle.store_states.specs.Kept.{AgreesWith};
ghost use Rattle.media_store.specs.Changes.{CanCommit, FileStands, IsNextIf, MakesIf, bytes_if};
ghost use Rattle.media_store.specs.Faults.{OnCalls, OnDisk, OnMemory, UnlessDisk, is_disk, not_disk_fault};
ghost use Rattle.media_store.specs.Stores.{journal_of, size_of};
ghost use Rattle.media_store.specs.Turns.{TurnIs, turn_change};

use crate::{Store, StoreFault};
use disk_trait::Disk;
use std::alloc::Global;
use store_plans::{Planned, TurnPlan, plan_turn};

/// What a turn made.
#[derive(Clone, Copy, Debug, PartialEq, Eq)]
pub enum TurnMade {
    /// A step of a delete request.
    Deleted,
    /// A sweep of objects.
    Swept,
    /// Nothing, since nothing was due.
    Nothing,
    /// Nothing, since the change that was due doesn't fit the journal, even behind a checkpoint.
    NoRoom,
}

impl Store {
    /// Works off a delete request by one step, or else sweeps objects that are due, at a moment in seconds since
    /// 1970-01-01T00:00:00Z: at most 32 segments or 16 objects go. All memory that a step takes comes before its
    /// first call of the disk. After `Disk` the store is spent.
    pub fn turn<D: Disk>(
        &mut self,
        alloc: Global,
        disk: &mut D,
        now: u64,
    ) -> Result<TurnMade, StoreFault>
        requires unspent { IsFalse self.old.spent }
        requires idle { self.old.put ≡ None }
        requires device { size_of self.old.kept ≤ (D.device disk.old).size }
        requires moment { IsTrue (is_moment now) }
        ensures made { IfOk result
            (TurnIs (journal_of self.old.kept) (turn self.old.kept.library now) now) }
        ensures makes { (D.device disk.old).honest ≡ true → (D.device disk.old).shows ≡ true
            → (held : List (List ℕ)) → AgreesWith (D.device disk.old) self.old.kept held
            → OnCalls result (λ ok. MakesIf ok
            (turn_change (journal_of self.old.kept) (turn self.old.kept.library now))
            self.old.kept self.new.kept held (D.device disk.old) (D.device disk.new)) }
        ensures stands { (D.device disk.old).honest ≡ true → (D.device disk.old).shows ≡ true
            → FileStands (D.device disk.old) self.old.kept
            → UnlessDisk result (FileStands (D.device disk.new) self.new.kept) }
        ensures next { OnOk result (IsNextIf self.old.kept
            (turn_change (journal_of self.old.kept) (turn self.old.kept.library now)) self.new.kept) }

        // Where nothing is due that fits, the store stays and nothing is asked of the disk.
        ensures unchanged { turn_change (journal_of self.old.kept) (turn self.old.kept.library now) ≡ None
            → (self.new ≡ self.old) × (disk.new ≡ disk.old) }

        // Want of memory comes only where something is due, and changes nothing.
        ensures memory { OnMemory result ((self.new ≡ self.old) × (disk.new ≡ disk.old)
            × IsTrue (is_some (turn self.old.kept.library now))) }

        // A call of the disk fails only within a change that is due and fits.
        ensures failing { OnDisk result (IsTrue (is_some
            (turn_change (journal_of self.old.kept) (turn self.old.kept.library now)))) }

        ensures idle { self.new.put ≡ None }
        ensures spent { self.new.spent ≡ is_disk result }
        ensures handed { (D.device disk.old).tells ≡ true → OnOk result ((D.device disk.new).handed
            ≡ (D.device disk.old).handed + bytes_if (journal_of self.old.kept)
            (turn_change (journal_of self.old.kept) (turn self.old.kept.library now))) }
        ensures handed_at_most { (D.device disk.old).tells ≡ true → (D.device disk.new).handed
            ≤ (D.device disk.old).handed + bytes_if (journal_of self.old.kept)
            (turn_change (journal_of self.old.kept) (turn self.old.kept.library now)) }
        ensures calls { DiskCalls (not_disk_fault result) (D.device disk.old) (D.device disk.new) }
    {
        match plan_turn(alloc, &self.library, &self.journal, now)? {
            TurnPlan::Nothing => Ok(TurnMade::Nothing),
            TurnPlan::NoRoom => Ok(TurnMade::NoRoom),
            TurnPlan::Delete(planned) => self.step(disk, planned, TurnMade::Deleted),
            TurnPlan::Sweep(planned) => self.step(disk, planned, TurnMade::Swept),
        }
    }

    /// Writes the plan of a change that is due and fits, and answers this.
    pub(crate) fn step<D: Disk, T: Copy>(
        &mut self,
        disk: &mut D,
        planned: Planned,
        made: T,
    ) -> Result<T, StoreFault>
        requires unspent { IsFalse self.old.spent }
        requires idle { self.old.put ≡ None }
        requires device { size_of self.old.kept ≤ (D.device disk.old).size }
        requires ready { CanCommit self.old.kept planned }
        ensures makes { (D.device disk.old).honest ≡ true → (D.device disk.old).shows ≡ true
            → (held : List (List ℕ)) → (due : Option Change) → (change : Change)
            → AgreesWith (D.device disk.old) self.old.kept held
            → IsStepPlan (journal_of self.old.kept) due change planned
            → OnCalls result (λ ok. MakesIf ok (turn_change (journal_of self.old.kept) due)
            self.old.kept self.new.kept held (D.device disk.old) (D.device disk.new)) }
        ensures next { (due : Option Change) → (change : Change)
            → IsStepPlan (journal_of self.old.kept) due change planned → OnOk result
            (IsNextIf self.old.kept (turn_change (journal_of self.old.kept) due) self.new.kept) }
        ensures stands { (D.device disk.old).honest ≡ true → (D.device disk.old).shows ≡ true
            → FileStands (D.device disk.old) self.old.kept
            → UnlessDisk result (FileStands (D.device disk.new) self.new.kept) }
        ensures made { IfOk result (λ m. m ≡ made) }
        ensures memory { OnMemory result ⊥ }
        ensures failing { (due : Option Change) → (change : Change)
            → IsStepPlan (journal_of self.old.kept) due change planned
            → IsTrue (is_some (turn_change (journal_of self.old.kept) due)) }
        ensures idle { self.new.put ≡ None }
        ensures spent { self.new.spent ≡ is_disk result }
        ensures handed { (D.device disk.old).tells ≡ true → (due : Option Change) → (change : Change)
            → IsStepPlan (journal_of self.old.kept) due change planned → OnOk result
            ((D.device disk.new).handed ≡ (D.device disk.old).handed
            + bytes_if (journal_of self.old.kept) (turn_change (journal_of self.old.kept) due)) }
        ensures handed_at_most { (D.device disk.old).tells ≡ true → (due : Option Change)
            → (change : Change) → IsStepPlan (journal_of self.old.kept) due change planned
            → (D.device disk.new).handed ≤ (D.device disk.old).handed
            + bytes_if (journal_of self.old.kept) (turn_change (journal_of self.old.kept) due) }
        ensures calls { DiskCalls (not_disk_fault result) (D.device disk.old) (D.device disk.new) }
    {
        match self.commit(disk, planned) {
            Ok(_) => Ok(made),
            Err(_) => Err(StoreFault::Disk),
        }
    }
}
