//! Puts of objects' bytes, in pieces.
ghost use Rattle.std.specs.Prelude.{◌≡◌, ◌≤◌, ◌+◌, ℕ, true, false, List, None, Some, length, bytes_eq, IfOk, IsFalse, IsTrue, OnOk, is_ok};
ghost use Rattle.std.specs.Option.{option_copied};
ghost use Rattle.std.specs.Result.{is_err};
ghost use Rattle.media_rows.specs.declared.change.Change.{Change};
ghost use Rattle.media_rows.specs.Answer.{stored_put};
ghost use Rattle.media_rows.specs.Digests.{digest_of};
ghost use Rattle.media_rows.specs.Moments.{is_moment};
ghost use Rattle.disk_trait.specs.Calls.{DiskCalls, bytes_at};
ghost use Rattle.object_blobs.specs.Extents.{IsOnDevice, extent_bytes};
ghost use Rattle.sha2.specs.Hashers.{Holds256};
ghost use Rattle.store_plans.specs.Plans.{CanTakeDigest, MakesChange, PlanFits, planned_with};
ghost use Rattle.store_states.specs.Kept.{AgreesWith, StoreView};
ghost use Rattle.store_states.specs.States.{media_start};
ghost use Rattle.store_writes.specs.Writes.{Keeps};
ghost use Rattle.media_store.specs.Changes.{ChangesStore, FileStands, bytes_by, kept_by};
ghost use Rattle.media_store.specs.Puts.{AllCame, EndsIf, HandsOn, HasCome, HasRoomToCompare, Hashes, IsFreshPut, IsPlannedPut, IsPutOf, MayTake, PutMovesOn, asks_disk, asks_disk_if, body_handed, bytes_at_extent, end_handed, handed_of_piece, kept_behind, may_be_same, plan_of, put_plan_refusal, put_reply, reply_if, writes_by, writes_if};
ghost use Rattle.media_store.specs.Stores.{journal_of, size_of};
ghost use Rattle.media_store.specs.Within.{IsPlacedOn, LeavesObjects, StoresAt, TakesAt, is_put_refusal};

use crate::Store;
use disk_trait::{Disk, Failed, Memory, Text, same_bytes};
use media_rows::{Digest, Extent, Refusal, Reply};
use sha2::{Digest as _, Sha256};
use std::alloc::Global;
use std::marker::Model;
use store_plans::{Planned, PutPlan, StorePlan, plan_put};
use store_writes::{read_kept, write_free};

/// The most bytes of a piece.
pub const PIECE: usize = 65_536;

/// A put of an object's bytes, as it was planned of a store. It is under way once the store has begun it.
#[derive(Drop)]
pub struct Put {
    object: Text,
    size: u64,
    moment: u64,
    handed: u64,
    plan: PutPlan,
    /// It takes the bytes that are written.
    hasher: Sha256,
    same: bool,
    /// Room for a piece of the bytes that are kept, where they are to be compared.
    buffer: Vec<u8>,
}

impl Model for Put {
    ghost use Rattle.std.specs.Prelude.{◌≡◌, length};
    ghost use Rattle.media_store.specs.Puts.{HasRoomToCompare};
    ghost use Rattle.media_store.specs.Stores.{PutSeen};

    ghost Value = { PutSeen };

    ghost view = { λ p. record {
      object = p.object;
      size = p.size;
      moment = p.moment;
      handed = p.handed;
      plan = p.plan;
      hasher = p.hasher;
      same = p.same;
    } };

    ghost invariant = { λ p. HasRoomToCompare p.plan (length p.buffer.items) };
}

impl Put {
    /// Why the bytes are refused, where they are, whatever they will be.
    pub fn refusal(&self) -> Option<&Refusal>
        ensures { option_copied result ≡ put_plan_refusal self.now.plan }
    {
        match &self.plan {
            PutPlan::Refused(why) => Some(why),
            PutPlan::Kept(_) | PutPlan::Write(_, _) => None,
        }
    }

    /// What a put is answered once its bytes are all there, where they are the same as those that are kept, if some
    /// are.
    pub fn reply_if_same(&self) -> Reply
        requires planned { IsPlannedPut self.now }
        ensures { result ≡ put_reply (record self.now { same = true }) self.now.plan }
    {
        match &self.plan {
            PutPlan::Refused(why) => Reply::Refused(refusal_again(why)),
            PutPlan::Kept(_) => Reply::Done,
            PutPlan::Write(_, _) => Reply::Created,
        }
    }

    /// Whether its end writes a change: the object had no bytes so far, and these are not refused.
    pub fn writes(&self) -> bool
        ensures { result ≡ writes_by self.now.plan }
    {
        matches!(&self.plan, PutPlan::Write(_, _))
    }
}

impl Store {
    /// What a put of so many bytes as those of an object makes of the store, at a moment in seconds since
    /// 1970-01-01T00:00:00Z. An object that isn't kept is refused as `UnknownObject`, bytes for which no place is free
    /// as `MediaFull`, and those whose change doesn't fit the journal, after all else, as `JournalFull`; a put that
    /// is refused takes its bytes and drops them. It takes all memory of the put, and changes nothing.
    pub fn plan_put(
        &self,
        alloc: Global,
        object: &Text,
        length: u64,
        now: u64,
    ) -> Result<Put, Memory>
        requires unspent { IsFalse self.now.spent }
        requires moment { IsTrue (is_moment now) }
        ensures { IfOk result (IsFreshPut self.now.kept object.now length now) }
    {
        let id = object.copy(alloc)?;
        let plan = plan_put(alloc, &self.library, &self.journal, object, length, now)?;
        let same = may_be_same(&plan, length);
        let buffer = buffer_for(alloc, &plan)?;
        Ok(Put {
            object: id,
            size: length,
            moment: now,
            handed: 0,
            plan,
            hasher: Sha256::new(),
            same,
            buffer,
        })
    }

    /// Begins a put that was planned of this store as it is. Until it is ended or dropped the store takes no other
    /// change. It takes no memory.
    pub fn put_begin(&mut self, put: Put)
        requires unspent { IsFalse self.old.spent }
        requires idle { self.old.put ≡ None }
        requires of_store { IsPutOf self.old.kept put }
        ensures put { self.new.put ≡ Some put }
        ensures kept { self.new.kept ≡ self.old.kept }
        ensures spent { self.new.spent ≡ false }
    {
        self.put = Some(put);
    }

    /// Takes the next piece of the put that is under way, of at most 65,536 bytes: it is written to the object's
    /// place, or compared with the bytes that are kept. It takes no memory. After `Failed` the store is spent.
    pub fn put_piece<D: Disk>(&mut self, disk: &mut D, piece: &[u8]) -> Result<(), Failed>
        requires unspent { IsFalse self.old.spent }
        requires device { size_of self.old.kept ≤ (D.device disk.old).size }
        requires under_way { MayTake self.old.put (length piece.now) }
        requires short { length piece.now ≤ 65536 }

        // What is kept stays, also where the call fails, and at each moment a crash leaves its state.
        ensures keeps { (held : List (List ℕ)) → AgreesWith (D.device disk.old) self.old.kept held
            → Keeps self.old.kept held (D.device disk.old) (D.device disk.new) }
        ensures stands { FileStands (D.device disk.old) self.old.kept
            → FileStands (D.device disk.new) self.new.kept }

        ensures hands { OnOk result (HandsOn self.old.kept piece.now self.old.put self.new.put
            (D.device disk.old) (D.device disk.new)) }

        // A put that is refused asks nothing of the disk, nor does one whose bytes are other ones already.
        ensures unchanged { asks_disk_if self.old.put ≡ false
            → (disk.new ≡ disk.old) × IsTrue (is_ok result) }

        ensures kept { self.new.kept ≡ self.old.kept }
        ensures spent { self.new.spent ≡ is_err result }
        ensures handed { (D.device disk.old).tells ≡ true → OnOk result ((D.device disk.new).handed
            ≡ (D.device disk.old).handed + body_handed (plan_of self.old.put) piece.now) }
        ensures handed_at_most { (D.device disk.old).tells ≡ true → (D.device disk.new).handed
            ≤ (D.device disk.old).handed + body_handed (plan_of self.old.put) piece.now }
        ensures calls { DiskCalls (is_ok result) (D.device disk.old) (D.device disk.new) }
    {
        self.library.keeps_good();
        let area = self.area();
        let Some(put) = &mut self.put else {
            unreachable!()
        };
        match put.take(disk, area, piece) {
            Ok(()) => Ok(()),
            Err(fault) => {
                self.spent = true;
                Err(fault)
            }
        }
    }

    /// Ends the put that is under way, whose bytes are all there: they are synced, and then the change that stores
    /// them is written. It takes no memory. After `Failed` the store is spent.
    pub fn put_end<D: Disk>(&mut self, disk: &mut D) -> Result<Reply, Failed>
        requires unspent { IsFalse self.old.spent }
        requires device { size_of self.old.kept ≤ (D.device disk.old).size }
        requires filled { AllCame self.old.put }

        // The object gets the digest of the bytes that came, where its put writes any.
        ensures makes { (D.device disk.old).honest ≡ true → (D.device disk.old).shows ≡ true
            → (held : List (List ℕ)) → (came : List ℕ)
            → AgreesWith (D.device disk.old) self.old.kept held → HasCome self.old.put came
            → EndsIf (is_ok result) self.old.put (digest_of came) self.old.kept held
            (D.device disk.old) (D.device disk.new) }
        ensures stands { (D.device disk.old).honest ≡ true → (D.device disk.old).shows ≡ true
            → FileStands (D.device disk.old) self.old.kept
            → OnOk result (FileStands (D.device disk.new) self.new.kept) }

        // A put that writes no change asks nothing of the disk: one that is refused, or that was compared.
        ensures unchanged { writes_if self.old.put ≡ false
            → (disk.new ≡ disk.old) × IsTrue (is_ok result) }

        ensures reply { IfOk result (λ reply. Some reply ≡ reply_if self.old.put) }
        ensures kept { (came : List ℕ) → HasCome self.old.put came → OnOk result
            (self.new.kept ≡ kept_behind self.old.kept self.old.put (digest_of came)) }
        ensures idle { self.new.put ≡ None }
        ensures spent { self.new.spent ≡ is_err result }
        ensures handed { (D.device disk.old).tells ≡ true → OnOk result ((D.device disk.new).handed
            ≡ (D.device disk.old).handed + end_handed self.old.put) }
        ensures handed_at_most { (D.device disk.old).tells ≡ true
            → (D.device disk.new).handed ≤ (D.device disk.old).handed + end_handed self.old.put }
        ensures calls { DiskCalls (is_ok result) (D.device disk.old) (D.device disk.new) }
    {
        let Some(put) = self.put.take() else {
            unreachable!()
        };
        let Put {
            plan,
            same,
            hasher,
            ..
        } = put;
        match plan {
            PutPlan::Refused(why) => Ok(Reply::Refused(why)),
            PutPlan::Kept(_) => Ok(compared_reply(same)),
            PutPlan::Write(extent, plan) => self.store(disk, extent, finished(plan, hasher)),
        }
    }

    /// Ends the put that is under way, if there is one, and leaves the library as it is.
    pub fn put_drop(&mut self)
        ensures idle { self.new.put ≡ None }
        ensures kept { self.new.kept ≡ self.old.kept }
        ensures spent { self.new.spent ≡ self.old.spent }
    {
        self.put = None;
    }
}

impl Store {
    /// Syncs the bytes of an object that were written at its extent, and then writes the change that stores them.
    fn store<D: Disk>(
        &mut self,
        disk: &mut D,
        extent: Extent,
        planned: Planned,
    ) -> Result<Reply, Failed>
        requires unspent { IsFalse self.old.spent }
        requires idle { self.old.put ≡ None }
        requires device { size_of self.old.kept ≤ (D.device disk.old).size }
        requires place { IsOnDevice (media_start self.old.kept.journal.half) extent (D.device disk.old).size }
        requires fits { PlanFits self.old.kept.journal planned }
        requires blocks { planned.next.library.blocks ≡ self.old.kept.library.blocks }
        ensures makes { (D.device disk.old).honest ≡ true → (D.device disk.old).shows ≡ true
            → (held : List (List ℕ)) → (change : Change)
            → AgreesWith (D.device disk.old) self.old.kept held
            → MakesChange (journal_of self.old.kept) change planned → StoresAt extent change
            → ChangesStore (is_ok result) change (bytes_at_extent self.old.kept extent (D.device disk.old).seen)
            self.old.kept (kept_by self.old.kept planned) held
            (D.device disk.old) (D.device disk.new) }
        ensures reply { IfOk result (λ reply. reply ≡ planned.reply) }
        ensures kept { OnOk result (self.new.kept ≡ kept_by self.old.kept planned) }
        ensures idle { self.new.put ≡ None }
        ensures spent { self.new.spent ≡ is_err result }
        ensures handed { (D.device disk.old).tells ≡ true → OnOk result ((D.device disk.new).handed
            ≡ (D.device disk.old).handed + bytes_by planned) }
        ensures handed_at_most { (D.device disk.old).tells ≡ true
            → (D.device disk.new).handed ≤ (D.device disk.old).handed + bytes_by planned }
        ensures calls { DiskCalls (is_ok result) (D.device disk.old) (D.device disk.new) }
    {
        // A record that names bytes must not be on the disk before they are.
        match disk.sync() {
            Ok(()) => self.write(disk, planned),
            Err(fault) => {
                self.spent = true;
                Err(fault)
            }
        }
    }
}

impl Put {
    /// Takes a piece, where the media blocks begin at `area`.
    fn take<D: Disk>(&mut self, disk: &mut D, area: u64, piece: &[u8]) -> Result<(), Failed>
        requires place { IsPlacedOn area (D.device disk.old).size self.old.plan self.old.same
            (self.old.handed + length piece.now) }
        requires inside { self.old.handed + length piece.now ≤ self.old.size }
        requires short { length piece.now ≤ 65536 }
        ensures keeps { (kept : StoreView) → (held : List (List ℕ))
            → AgreesWith (D.device disk.old) kept held → area ≡ media_start kept.journal.half
            → LeavesObjects kept.library self.old.plan
            → Keeps kept held (D.device disk.old) (D.device disk.new) }
        ensures piece { (D.device disk.old).shows ≡ true → OnOk result
            (TakesAt area self.old.plan piece.now self.old.handed self.old.same self.new.same
            (D.device disk.old).seen (D.device disk.new).seen) }
        ensures put { OnOk result (PutMovesOn self.old self.new piece.now) }
        ensures same { self.new.same ≡ true → self.old.same ≡ true }
        ensures unchanged { asks_disk self.old.same self.old.plan ≡ false
            → (disk.new ≡ disk.old) × IsTrue (is_ok result) }
        ensures handed { (D.device disk.old).tells ≡ true → OnOk result ((D.device disk.new).handed
            ≡ (D.device disk.old).handed + handed_of_piece self.old.plan piece.now) }
        ensures handed_at_most { (D.device disk.old).tells ≡ true → (D.device disk.new).handed
            ≤ (D.device disk.old).handed + handed_of_piece self.old.plan piece.now }
        ensures calls { DiskCalls (is_ok result) (D.device disk.old) (D.device disk.new) }
    {
        let at = self.handed;
        let room = self.buffer.as_mut_slice();
        self.same = take_piece(disk, area, &self.plan, at, self.same, piece, room)?;
        hash_piece(&self.plan, &mut self.hasher, piece);
        self.handed += piece.len() as u64;
        Ok(())
    }
}

/// Writes a piece of a put's bytes at this offset in them, or compares it with the bytes that are kept, as far as
/// they are the same; whether they still are. Those are read into `room`.
fn take_piece<D: Disk>(
    disk: &mut D,
    area: u64,
    plan: &PutPlan,
    at: u64,
    same: bool,
    piece: &[u8],
    room: &mut [u8],
) -> Result<bool, Failed>
    requires place { IsPlacedOn area (D.device disk.old).size plan.now same (at + length piece.now) }
    requires short { length piece.now ≤ PIECE }
    requires room { HasRoomToCompare plan.now (length room.old) }
    ensures keeps { (kept : StoreView) → (held : List (List ℕ))
        → AgreesWith (D.device disk.old) kept held → area ≡ media_start kept.journal.half
        → LeavesObjects kept.library plan.now
        → Keeps kept held (D.device disk.old) (D.device disk.new) }
    ensures piece { (D.device disk.old).shows ≡ true → IfOk result (λ still.
        TakesAt area plan.now piece.now at same still
        (D.device disk.old).seen (D.device disk.new).seen) }
    ensures same { IfOk result (λ still. still ≡ true → same ≡ true) }
    ensures unchanged { asks_disk same plan.now ≡ false → (disk.new ≡ disk.old) × IsTrue (is_ok result) }
    ensures room { length room.new ≡ length room.old }
    ensures handed { (D.device disk.old).tells ≡ true → IfOk result (λ _. (D.device disk.new).handed
        ≡ (D.device disk.old).handed + handed_of_piece plan.now piece.now) }
    ensures handed_at_most { (D.device disk.old).tells ≡ true → (D.device disk.new).handed
        ≤ (D.device disk.old).handed + handed_of_piece plan.now piece.now }
    ensures calls { DiskCalls (is_ok result) (D.device disk.old) (D.device disk.new) }
{
    match plan {
        PutPlan::Refused(_) => Ok(same),
        PutPlan::Kept(extent) => {
            if !same {
                return Ok(false);
            }
            let out = &mut room[..piece.len()];
            is_same(disk, area, *extent, at, piece, out)
        }
        PutPlan::Write(extent, _) => {
            write_free(disk, area, *extent, at, piece)?;
            Ok(same)
        }
    }
}

/// The plan with the digest of the bytes that a hasher has taken. It takes no memory.
fn finished(plan: StorePlan, hasher: Sha256) -> Planned
    requires takes { CanTakeDigest plan }
    ensures { (came : List ℕ) → Holds256 hasher came
        → result ≡ planned_with (digest_of came) plan }
{
    plan.with_digest(Digest::from_hash(hasher.finalize()))
}

/// Feeds a piece to the hasher of a put, where it is written.
fn hash_piece(plan: &PutPlan, hasher: &mut Sha256, piece: &[u8])
    ensures { Hashes plan.now hasher.old piece.now hasher.new }
{
    if let PutPlan::Write(_, _) = plan {
        hasher.update(piece);
    }
}

/// Whether a piece of the bytes that are kept is this one. It is read into `out`.
fn is_same<D: Disk>(
    disk: &mut D,
    area: u64,
    extent: Extent,
    at: u64,
    piece: &[u8],
    out: &mut [u8],
) -> Result<bool, Failed>
    requires room { length out.old ≡ length piece.now }
    requires inside { at + length piece.now ≤ extent.length }
    requires device { IsOnDevice area extent (D.device disk.old).size }
    ensures same { (D.device disk.old).shows ≡ true → IfOk result (λ same. same
        ≡ bytes_eq (bytes_at (extent_bytes area extent (D.device disk.old).seen) at (length piece.now))
        piece.now) }
    ensures room { length out.new ≡ length out.old }
    ensures keeps { (kept : StoreView) → (held : List (List ℕ)) → AgreesWith (D.device disk.old) kept held
        → Keeps kept held (D.device disk.old) (D.device disk.new) }
    ensures handed { (D.device disk.new).handed ≡ (D.device disk.old).handed }
    ensures calls { DiskCalls (is_ok result) (D.device disk.old) (D.device disk.new) }
{
    read_kept(disk, area, extent, at, out)?;
    Ok(same_bytes(out, piece))
}

/// Whether bytes of an object may be the same as so many that come: there are as many.
fn may_be_same(plan: &PutPlan, size: u64) -> bool
    ensures { result ≡ may_be_same size plan.now }
{
    match plan {
        PutPlan::Kept(extent) => extent.length == size,
        PutPlan::Refused(_) | PutPlan::Write(_, _) => true,
    }
}

/// Room for a piece of the bytes that are to be compared, where there are some.
fn buffer_for(alloc: Global, plan: &PutPlan) -> Result<Vec<u8>, Memory>
    ensures { IfOk result (λ buffer. HasRoomToCompare plan.now (length buffer.items)) }
{
    match plan {
        PutPlan::Kept(_) => Ok(vec![in alloc; 0u8; PIECE]?),
        PutPlan::Refused(_) | PutPlan::Write(_, _) => Ok(Vec::new(alloc)),
    }
}

/// The refusal of a put once more.
fn refusal_again(why: &Refusal) -> Refusal
    requires { IsTrue (is_put_refusal why.now) }
    ensures { result ≡ why.now }
{
    match why {
        Refusal::UnknownObject => Refusal::UnknownObject,
        Refusal::OtherBytes => Refusal::OtherBytes,
        Refusal::JournalFull => Refusal::JournalFull,
        Refusal::MediaFull => Refusal::MediaFull,
        _ => unreachable!(),
    }
}

/// The reply to bytes that were compared.
fn compared_reply(same: bool) -> Reply
    ensures { result ≡ (stored_put same).reply }
{
    if same {
        Reply::Done
    } else {
        Reply::Refused(Refusal::OtherBytes)
    }
}
