//! A step of the delete request that is due.
ghost use Rattle.std.specs.Prelude.{◌≡◌, ◌≤◌, IfOk, IsTrue, Some, is_some, length};
ghost use Rattle.media_rows.specs.Objects.{idled};
ghost use Rattle.media_rows.specs.Requests.{after_step, first_unfinished, is_finished_by_step, removed_by_step, step_size, stepped_row};
ghost use Rattle.media_rows.specs.Segments.{without_segments};
ghost use Rattle.object_refs.specs.References.{objects_in, references_in};
ghost use Rattle.delete_work.specs.Work.{AreOfFlow, HasReferences, OfDue, released_by};

use crate::DeleteBook;
use crate::releases::{index_without, objects_without};
use crate::requested::{STEP_SIZE, copies, requested};
use disk_trait::Memory;
use media_rows::{DeleteRow, DeleteStatus, SegmentList};
use object_refs::ObjectBook;
use segment_index::SegmentIndex;
use std::alloc::Global;

/// What a step takes: the segments, and whether nothing is left then of what the request asked for.
#[derive(Drop)]
pub struct StepRows {
    pub removed: SegmentList,
    pub finished: bool,
}

/// What a step of the request that is due comes to: the requests after it, which segments go, and whether
/// nothing is left of what the request asked for. Where it deletes its flow, the flow goes then.
#[derive(Drop)]
pub struct DueStep {
    pub book: DeleteBook,
    pub removed: SegmentList,
    pub finished: bool,
}

/// What a step leaves: beside the same, the segments of the request's flow and the objects.
#[derive(Drop)]
pub struct Stepped {
    pub book: DeleteBook,
    pub index: SegmentIndex,
    pub objects: ObjectBook,
    pub removed: SegmentList,
    pub finished: bool,
}

impl DeleteBook {
    /// Works off the unfinished request of least serial by one step, on the segments of its flow: the first 32
    /// segments by first point go that its range covers and that were there before it. Of more than 64 done
    /// requests those of least serial go. What becomes of the segments, and of a flow that goes with its other
    /// requests, is the caller's.
    pub fn due_step(&self, alloc: Global, index: &SegmentIndex, now: u64) -> Result<DueStep, Memory>
        requires due { IsTrue (is_some (first_unfinished self.now)) }
        requires flow { OfDue self.now (λ request. AreOfFlow request.flow index.now) }
        ensures removed { IfOk result (λ step. OfDue self.now
            (λ request. step.removed ≡ removed_by_step index.now request)) }
        ensures few { IfOk result (λ step. length step.removed ≤ step_size) }
        ensures finished { IfOk result (λ step. OfDue self.now
            (λ request. step.finished ≡ is_finished_by_step index.now request)) }
        ensures book { IfOk result (λ step. OfDue self.now
            (λ request. step.book ≡ after_step request.serial step.finished now self.now)) }
    {
        let Some(request) = self.first_due() else {
            unreachable!()
        };
        let rows = step_rows(alloc, index, request)?;
        Ok(DueStep {
            book: self.stepped(alloc, request, rows.finished, now)?,
            removed: rows.removed,
            finished: rows.finished,
        })
    }

    /// Makes that step on the segments and the objects too. An object that loses its last reference is idle
    /// since now.
    pub fn step(
        &self,
        alloc: Global,
        index: &SegmentIndex,
        objects: &ObjectBook,
        now: u64,
    ) -> Result<Stepped, Memory>
        requires due { IsTrue (is_some (first_unfinished self.now)) }
        requires flow { OfDue self.now (λ request. AreOfFlow request.flow index.now) }
        requires references { OfDue self.now
            (λ request. HasReferences request.flow index.now objects.now.kept) }

        // which segments go, and whether they are the last ones
        ensures removed { IfOk result (λ step. OfDue self.now
            (λ request. step.removed ≡ removed_by_step index.now request)) }
        ensures few { IfOk result (λ step. length step.removed ≤ step_size) }
        ensures finished { IfOk result (λ step. OfDue self.now
            (λ request. step.finished ≡ is_finished_by_step index.now request)) }

        // what is left
        ensures book { IfOk result (λ step. OfDue self.now
            (λ request. step.book ≡ after_step request.serial step.finished now self.now)) }
        ensures index { IfOk result
            (λ step. step.index ≡ without_segments step.removed index.now) }
        ensures objects { IfOk result
            (λ step. step.objects.kept ≡ released_by now step.removed objects.now.kept) }
        ensures idle { IfOk result (λ step. objects_in step.objects.kept
            ≡ idled (references_in objects.now.kept) (references_in step.objects.kept) now
            (objects_in objects.now.kept)) }
    {
        let Some(request) = self.first_due() else {
            unreachable!()
        };
        index.is_in_order();
        let step = self.due_step(alloc, index, now)?;
        let rows = step.removed.items();
        Ok(Stepped {
            index: index_without(alloc, index, rows)?,
            objects: objects_without(alloc, objects, request.flow, rows, now)?,
            book: step.book,
            removed: step.removed,
            finished: step.finished,
        })
    }

    /// The book once the request that is due was worked off by a step.
    fn stepped(
        &self,
        alloc: Global,
        request: &DeleteRow,
        finished: bool,
        now: u64,
    ) -> Result<DeleteBook, Memory>
        requires due { first_unfinished self.now ≡ Some request.now }
        ensures { IfOk result
            (λ next. next ≡ after_step request.now.serial finished now self.now) }
    {
        self.is_in_order();
        let row = stepped_row(request, finished, now);
        self.put(alloc, &row)?.newest(alloc)
    }
}

/// What a step of a request takes of the segments of its flow: the first 32 by first point that its range covers and
/// that were there before it.
pub fn step_rows(
    alloc: Global,
    index: &SegmentIndex,
    request: &DeleteRow,
) -> Result<StepRows, Memory>
    requires flow { AreOfFlow request.now.flow index.now }
    ensures removed { IfOk result
        (λ step. step.removed ≡ removed_by_step index.now request.now) }
    ensures few { IfOk result (λ step. length step.removed ≤ step_size) }
    ensures finished { IfOk result
        (λ step. step.finished ≡ is_finished_by_step index.now request.now) }
{
    index.is_in_order();
    let mut found = requested(alloc, index, request)?;
    let finished = found.len() <= STEP_SIZE;
    found.truncate(STEP_SIZE);
    Ok(StepRows {
        removed: copies(alloc, &found)?,
        finished,
    })
}

/// A request after a step.
fn stepped_row(request: &DeleteRow, finished: bool, now: u64) -> DeleteRow
    ensures { result ≡ stepped_row finished now request.now }
{
    let status = if finished {
        DeleteStatus::Done
    } else {
        DeleteStatus::Started
    };
    DeleteRow {
        status,
        updated: now,
        ..*request
    }
}
