//! Commands: what they make of a store is planned, and the plan is written.
ghost use Rattle.std.specs.Prelude.{◌≡◌, ◌≤◌, ◌+◌, ℕ, true, List, Option, None, IfOk, IsFalse, IsTrue, OnOk, is_ok};
ghost use Rattle.std.specs.Result.{is_err};
ghost use Rattle.media_rows.specs.declared.change.Change.{Change};
ghost use Rattle.media_rows.specs.Answer.{answer, unchanged};
ghost use Rattle.media_rows.specs.Media.{fits_bytes};
ghost use Rattle.media_rows.specs.Moments.{is_moment};
ghost use Rattle.media_rows.specs.Sound.{is_good_command};
ghost use Rattle.disk_trait.specs.Calls.{DiskCalls};
ghost use Rattle.store_plans.specs.Plans.{IsPlanOf, IsPlanned, MakesChange, MakesStep, PlanFits};
ghost use Rattle.store_states.specs.Kept.{AgreesWith};
ghost use Rattle.media_store.specs.Changes.{CameThere, CanCommit, ChangesStore, FileStands, IsNextIf, MakesIf, brings_bytes, bytes_by, bytes_if, kept_by, fitted_outcome};
ghost use Rattle.media_store.specs.Faults.{OnCalls, OnMemory, UnlessDisk, is_disk, not_disk_fault};
ghost use Rattle.media_store.specs.Stores.{journal_of, size_of};

use crate::{Store, StoreFault};
use disk_trait::{Disk, Failed, Memory};
use media_rows::{Command, Reply};
use std::alloc::Global;
use store_commits::write_change;
use store_plans::{Planned, plan};
use store_states::images_have_the_bytes;

impl Store {
    /// What a command makes of the store at a moment, in seconds since 1970-01-01T00:00:00Z: its refusal, or its
    /// reply with the record of its change. A change that doesn't fit the journal, even behind a checkpoint, is
    /// refused after all else, as `JournalFull`. It takes all memory of the command, and changes nothing. The bytes
    /// of an object go by a put.
    pub fn plan(&self, alloc: Global, command: &Command, now: u64) -> Result<Planned, Memory>
        requires unspent { IsFalse self.now.spent }
        requires good { IsTrue (is_good_command self.now.kept.library command.now) }
        requires sent { IsFalse (brings_bytes command.now) }
        requires moment { IsTrue (is_moment now) }
        ensures planned { IfOk result (IsPlanOf (journal_of self.now.kept)
            (answer self.now.kept.library command.now now)) }
        ensures ready { IfOk result (CanCommit self.now.kept) }
    {
        let planned = plan(alloc, &self.library, &self.journal, command, now)?;
        Ok(planned)
    }

    /// The plan that leaves the store as it is, with this reply. The error is for a count of owners that is full.
    pub fn keep(&self, alloc: Global, reply: Reply) -> Result<Planned, Memory>
        ensures planned { IfOk result (IsPlanned (journal_of self.now.kept) (unchanged reply)) }
        ensures ready { IfOk result (CanCommit self.now.kept) }
    {
        Ok(Planned {
            next: self.library.share(alloc)?,
            frame: None,
            rows: None,
            reply,
        })
    }

    /// Writes what was planned of this store as it is, and becomes it: a checkpoint first where the plan has rows,
    /// then the record. It takes no memory. After `Failed` the store is spent.
    pub fn commit<D: Disk>(&mut self, disk: &mut D, planned: Planned) -> Result<Reply, Failed>
        requires unspent { IsFalse self.old.spent }
        requires idle { self.old.put ≡ None }
        requires device { size_of self.old.kept ≤ (D.device disk.old).size }
        requires ready { CanCommit self.old.kept planned }

        // The plan's change is made, if it has one.
        ensures makes { (D.device disk.old).honest ≡ true → (D.device disk.old).shows ≡ true
            → (held : List (List ℕ)) → AgreesWith (D.device disk.old) self.old.kept held
            → (change : Option Change) → MakesStep (journal_of self.old.kept) change planned
            → MakesIf (is_ok result) change self.old.kept self.new.kept held
            (D.device disk.old) (D.device disk.new) }
        ensures stands { (D.device disk.old).honest ≡ true → (D.device disk.old).shows ≡ true
            → FileStands (D.device disk.old) self.old.kept
            → OnOk result (FileStands (D.device disk.new) self.new.kept) }

        // A plan without a change asks nothing of the disk.
        ensures unchanged { planned.frame ≡ None
            → (disk.new ≡ disk.old) × IsTrue (is_ok result) × (self.new ≡ self.old) }

        ensures reply { IfOk result (λ reply. reply ≡ planned.reply) }
        ensures kept { OnOk result (self.new.kept ≡ kept_by self.old.kept planned) }
        ensures idle { self.new.put ≡ None }
        ensures spent { self.new.spent ≡ is_err result }
        ensures handed { (D.device disk.old).tells ≡ true → OnOk result ((D.device disk.new).handed
            ≡ (D.device disk.old).handed + bytes_by planned) }
        ensures handed_at_most { (D.device disk.old).tells ≡ true
            → (D.device disk.new).handed ≤ (D.device disk.old).handed + bytes_by planned }
        ensures calls { DiskCalls (is_ok result) (D.device disk.old) (D.device disk.new) }
    {
        self.write(disk, planned)
    }

    /// Writes a plan, and becomes what it makes, where the bytes of an object that it stores are durable.
    pub(crate) fn write<D: Disk>(&mut self, disk: &mut D, planned: Planned) -> Result<Reply, Failed>
        requires unspent { IsFalse self.old.spent }
        requires idle { self.old.put ≡ None }
        requires device { size_of self.old.kept ≤ (D.device disk.old).size }
        requires fits { PlanFits self.old.kept.journal planned }
        requires blocks { planned.next.library.blocks ≡ self.old.kept.library.blocks }
        ensures makes { (D.device disk.old).honest ≡ true → (D.device disk.old).shows ≡ true
            → (held : List (List ℕ)) → (change : Change) → (came : List ℕ)
            → AgreesWith (D.device disk.old) self.old.kept held
            → MakesChange (journal_of self.old.kept) change planned
            → IsTrue (fits_bytes change came) → CameThere (D.device disk.old) self.old.kept change came
            → ChangesStore (is_ok result) change came self.old.kept (kept_by self.old.kept planned) held
            (D.device disk.old) (D.device disk.new) }
        ensures unchanged { planned.frame ≡ None
            → (disk.new ≡ disk.old) × IsTrue (is_ok result) × (self.new ≡ self.old) }
        ensures reply { IfOk result (λ reply. reply ≡ planned.reply) }
        ensures kept { OnOk result (self.new.kept ≡ kept_by self.old.kept planned) }
        ensures idle { self.new.put ≡ None }
        ensures spent { self.new.spent ≡ is_err result }
        ensures handed { (D.device disk.old).tells ≡ true → OnOk result ((D.device disk.new).handed
            ≡ (D.device disk.old).handed + bytes_by planned) }
        ensures handed_at_most { (D.device disk.old).tells ≡ true
            → (D.device disk.new).handed ≤ (D.device disk.old).handed + bytes_by planned }
        ensures calls { DiskCalls (is_ok result) (D.device disk.old) (D.device disk.new) }
    {
        images_have_the_bytes();
        let Planned {
            next,
            frame,
            rows,
            reply,
        } = planned;
        let Some(frame) = frame else {
            return Ok(reply);
        };
        match write_change(disk, &mut self.journal, rows.as_ref(), &frame) {
            Ok(()) => {
                self.library = next;
                Ok(reply)
            }
            Err(fault) => {
                self.spent = true;
                Err(fault)
            }
        }
    }

    /// Plans a command and writes its plan. All memory of the command comes before its first call of the disk.
    /// After `Disk` the store is spent.
    pub fn handle<D: Disk>(
        &mut self,
        alloc: Global,
        disk: &mut D,
        command: &Command,
        now: u64,
    ) -> Result<Reply, StoreFault>
        requires unspent { IsFalse self.old.spent }
        requires idle { self.old.put ≡ None }
        requires device { size_of self.old.kept ≤ (D.device disk.old).size }
        requires good { IsTrue (is_good_command self.old.kept.library command.now) }
        requires sent { IsFalse (brings_bytes command.now) }
        requires moment { IsTrue (is_moment now) }
        ensures reply { IfOk result (λ reply. reply
            ≡ (fitted_outcome self.old.kept command.now now).reply) }
        ensures makes { (D.device disk.old).honest ≡ true → (D.device disk.old).shows ≡ true
            → (held : List (List ℕ)) → AgreesWith (D.device disk.old) self.old.kept held
            → OnCalls result (λ ok. MakesIf ok (fitted_outcome self.old.kept command.now now).change
            self.old.kept self.new.kept held (D.device disk.old) (D.device disk.new)) }
        ensures stands { (D.device disk.old).honest ≡ true → (D.device disk.old).shows ≡ true
            → FileStands (D.device disk.old) self.old.kept
            → UnlessDisk result (FileStands (D.device disk.new) self.new.kept) }
        ensures next { OnOk result (IsNextIf self.old.kept
            (fitted_outcome self.old.kept command.now now).change self.new.kept) }

        // A command that changes nothing, as one that is refused, asks nothing of the disk.
        ensures unchanged { (fitted_outcome self.old.kept command.now now).change ≡ None
            → (self.new ≡ self.old) × (disk.new ≡ disk.old) }

        ensures memory { OnMemory result ((self.new ≡ self.old) × (disk.new ≡ disk.old)) }
        ensures idle { self.new.put ≡ None }
        ensures spent { self.new.spent ≡ is_disk result }
        ensures handed { (D.device disk.old).tells ≡ true → OnOk result ((D.device disk.new).handed
            ≡ (D.device disk.old).handed + bytes_if (journal_of self.old.kept)
            (fitted_outcome self.old.kept command.now now).change) }
        ensures handed_at_most { (D.device disk.old).tells ≡ true → (D.device disk.new).handed
            ≤ (D.device disk.old).handed + bytes_if (journal_of self.old.kept)
            (fitted_outcome self.old.kept command.now now).change }
        ensures calls { DiskCalls (not_disk_fault result) (D.device disk.old) (D.device disk.new) }
    {
        let planned = self.plan(alloc, command, now)?;
        match self.commit(disk, planned) {
            Ok(reply) => Ok(reply),
            Err(_) => Err(StoreFault::Disk),
        }
    }
}
