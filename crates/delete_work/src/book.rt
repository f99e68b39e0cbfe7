//! The book of delete requests and its public calls, but for the step.
ghost use Rattle.std.specs.Prelude.{◌≡◌, ◌≤◌, ◌-◌, ◌^◌, ◌++◌, [], ◌∷◌, IfOk, IsTrue, length, min, nat_le, option_copied};
ghost use Rattle.media_rows.specs.Good.{rises_by};
ghost use Rattle.media_rows.specs.Lists.{placed};
ghost use Rattle.media_rows.specs.Refusals.{Restores};
ghost use Rattle.media_rows.specs.Requests.{after_end, asked_row, done_count, done_kept, first_unfinished, is_deleting, newest_done, request_of};
ghost use Rattle.media_rows.specs.Restoring.{can_restore_requests, requests_of};
ghost use Rattle.shared_tree.specs.Pairs.{values_of};
ghost use Rattle.delete_work.specs.Work.{are_requests_below};
ghost use Rattle.delete_work.specs.Within.Keeping.{done_row, ended_by, has_request, request_before, without_first_done};

use crate::restores::gathered;
use crate::rows::{
    as_id, ending_with, ending_without, entered, entered_if, first_request, is_done, left_out,
    request_list,
};
use disk_trait::Memory;
use id_index::{IdIndex, all_rows, row_at};
use media_rows::{ApplyFault, DeleteList, DeleteRow, DeleteStatus, Deletion};
use shared_tree::Version;
use std::alloc::Global;
use std::marker::Model;

/// The most done requests that are kept.
const DONE_KEPT: u64 = 64;

/// Delete requests by rising serial. A change gives a new book and leaves this one as it is; moments are
/// seconds since 1970-01-01T00:00:00Z.
#[derive(Drop)]
pub struct DeleteBook {
    /// All requests by their serials.
    rows: Version<DeleteRow>,
    /// Those that are unfinished.
    unfinished: Version<DeleteRow>,
    /// Those that are done.
    done: Version<DeleteRow>,
    /// The unfinished requests that delete each flow.
    ending: IdIndex,
}

impl Model for DeleteBook {
    ghost use Rattle.std.specs.Prelude.{List};
    ghost use Rattle.media_rows.specs.declared.request.DeleteRow.{DeleteRow};
    ghost use Rattle.shared_tree.specs.Pairs.{values};
    ghost use Rattle.delete_work.specs.Within.Keeping.{AreRequests};

    ghost Value = { List DeleteRow };

    ghost view = { λ b. values b.rows };

    ghost invariant = { λ b. AreRequests b.rows b.unfinished b.done b.ending };
}

impl DeleteBook {
    /// A book without requests. It takes no memory.
    pub fn empty() -> DeleteBook
        ensures { result ≡ [] }
    {
        DeleteBook {
            rows: Version::empty(),
            unfinished: Version::empty(),
            done: Version::empty(),
            ending: IdIndex::empty(),
        }
    }

    /// The book of these rows, which may come in any order. It is refused exactly where serials repeat or
    /// more than 64 requests are done.
    pub fn from_rows(alloc: Global, requests: &DeleteList) -> Result<DeleteBook, ApplyFault>
        ensures { Restores (can_restore_requests requests.now) (requests_of requests.now) result }
    {
        match gathered(alloc, requests.items()) {
            Ok(book) => within_limit(book),
            Err(fault) => Err(fault),
        }
    }

    /// The same book once more. The error is for a count of owners that is full.
    pub fn share(&self) -> Result<DeleteBook, Memory>
        ensures { IfOk result (λ next. next ≡ self.now) }
    {
        Ok(DeleteBook {
            rows: self.rows.share()?,
            unfinished: self.unfinished.share()?,
            done: self.done.share()?,
            ending: self.ending.share()?,
        })
    }

    /// The number of requests, or the last value of a `u64` where there are more.
    pub fn request_count(&self) -> u64
        ensures { result ≡ min (length self.now) (2 ^ 64 - 1) }
    {
        self.rows.len()
    }

    /// The request of this serial, if it is kept, be it done or not.
    pub fn find(&self, serial: u64) -> Option<&DeleteRow>
        ensures { option_copied result ≡ request_of serial self.now }
    {
        row_at(&self.rows, as_id(serial))
    }

    /// The unfinished request of least serial, which is worked off next.
    pub fn first_due(&self) -> Option<&DeleteRow>
        ensures { option_copied result ≡ first_unfinished self.now }
    {
        first_request(&self.unfinished)
    }

    /// Whether an unfinished request deletes this flow.
    pub fn deleting(&self, flow: u128) -> bool
        ensures { result ≡ is_deleting self.now flow }
    {
        self.ending.has_any(flow)
    }

    /// All requests by rising serial.
    pub fn list(&self, alloc: Global) -> Result<DeleteList, Memory>
        ensures { IfOk result (λ list. list ≡ self.now) }
    {
        request_list(alloc, &self.rows)
    }

    /// A law: requests stand by rising serial.
    pub fn is_in_order(&self)
        ensures { IsTrue (rises_by (λ row. row.serial) self.now) }
    {
        self.rows.keys_rise();
    }

    /// Adds a request, made now, whose serial is above all others.
    pub fn request(
        &self,
        alloc: Global,
        asked: &Deletion,
        serial: u64,
        now: u64,
    ) -> Result<DeleteBook, Memory>
        requires above { IsTrue (are_requests_below serial self.now) }
        ensures { IfOk result (λ next. next ≡ self.now ++ asked_row asked.now serial now ∷ []) }
    {
        self.put(alloc, &asked.row(serial, now))
    }

    /// Makes the unfinished requests of a flow that goes done. Of more than 64 done requests those of least
    /// serial go.
    pub fn end_for(&self, alloc: Global, flow: u128, now: u64) -> Result<DeleteBook, Memory>
        ensures { IfOk result (λ next. next ≡ after_end flow now self.now) }
    {
        self.is_in_order();
        let unfinished = all_rows(alloc, &self.unfinished)?;
        self.ended(alloc, &unfinished, flow, now)?.newest(alloc)
    }

    /// The book with those of these requests done that are of a flow.
    fn ended(
        &self,
        alloc: Global,
        rows: &[&DeleteRow],
        flow: u128,
        now: u64,
    ) -> Result<DeleteBook, Memory>
        ensures { IfOk result (λ next. next ≡ ended_by flow now (values_of rows.now) self.now) }
    {
        let mut book = self.share()?;
        for row in rows {
            if row.flow == flow {
                book = book.put(alloc, &ended_row(row, now))?;
            }
        }
        Ok(book)
    }

    /// The number of done requests, or the last value of a `u64` where there are more.
    pub(crate) fn done_count(&self) -> u64
        ensures { result ≡ min (done_count self.now) (2 ^ 64 - 1) }
    {
        self.done.len()
    }

    /// Whether a request has this serial.
    pub(crate) fn has(&self, serial: u64) -> bool
        ensures { result ≡ has_request serial self.now }
    {
        self.find(serial).is_some()
    }

    /// The book with a request at its place, instead of the one of its serial.
    pub(crate) fn put(&self, alloc: Global, row: &DeleteRow) -> Result<DeleteBook, Memory>
        ensures { IfOk result (λ next. next ≡ placed request_before row.now self.now) }
    {
        self.rows.keys_rise();
        let done = is_done(row);
        Ok(DeleteBook {
            rows: entered(alloc, &self.rows, row)?,
            unfinished: entered_if(alloc, &self.unfinished, row, !done)?,
            done: entered_if(alloc, &self.done, row, done)?,
            ending: ending_with(alloc, &self.rows, &self.ending, row)?,
        })
    }

    /// The book without the done requests of least serial, where there are too many.
    pub(crate) fn newest(self, alloc: Global) -> Result<DeleteBook, Memory>
        ensures { IfOk result (λ next. next ≡ newest_done self) }
    {
        let mut book = self;
        'excess: while DONE_KEPT < book.done_count() {
            book = book.without_first_done(alloc)?;
        }
        Ok(book)
    }

    /// The book without the done request of least serial.
    fn without_first_done(&self, alloc: Global) -> Result<DeleteBook, Memory>
        requires some { 1 ≤ done_count self.now }
        ensures { IfOk result (λ next. next ≡ without_first_done self.now) }
    {
        self.rows.keys_rise();
        let Some(row) = first_request(&self.done) else {
            unreachable!()
        };
        Ok(DeleteBook {
            rows: left_out(alloc, &self.rows, row)?,
            unfinished: left_out(alloc, &self.unfinished, row)?,
            done: left_out(alloc, &self.done, row)?,
            ending: ending_without(alloc, &self.rows, &self.ending, row)?,
        })
    }
}

/// A book in which not too many requests are done.
fn within_limit(book: DeleteBook) -> Result<DeleteBook, ApplyFault>
    ensures { Restores (nat_le (done_count book) done_kept) book result }
{
    if DONE_KEPT < book.done_count() {
        Err(ApplyFault::Refused)
    } else {
        Ok(book)
    }
}

/// A request that is done now.
fn ended_row(row: &DeleteRow, now: u64) -> DeleteRow
    ensures { result ≡ done_row now row.now }
{
    DeleteRow {
        status: DeleteStatus::Done,
        updated: now,
        ..*row
    }
}
