//! Which segments a cut and a delete step take, and flows that lose all of theirs.
ghost use Rattle.std.specs.Prelude.{◌≡◌, IfOk, IsTrue, is_some, length, nat_le, take};
ghost use Rattle.media_rows.specs.Requests.{after_step, first_unfinished, is_finished_by_step, removed_by_step, step_size};
ghost use Rattle.media_rows.specs.Lists.{in_order};
ghost use Rattle.media_rows.specs.Segments.{covered, segments_of};
ghost use Rattle.media_rows.specs.Snapshot.{segment_row_before};
ghost use Rattle.delete_work.specs.Work.{OfDue};
ghost use Rattle.media_book.specs.Media.{AreSome, are_segments_below, without_rows};

use crate::MediaBook;
use delete_work::{DeleteBook, DueStep, step_rows};
use disk_trait::Memory;
use media_rows::{Deletion, SegmentList};
use std::alloc::Global;
use time_range::TimeRange;

/// The first 32 segments of a flow that a range wholly covers, by rising first point, and whether these are all.
/// So many go at once.
#[derive(Drop)]
pub struct Covered {
    pub rows: SegmentList,
    pub whole: bool,
}

impl MediaBook {
    /// The segments of a flow that a range wholly covers. The serial is above those of all segments, as the next
    /// one of a library is. It looks at the range's segments page by page, up to the 33rd that it covers.
    pub fn covered(
        &self,
        alloc: Global,
        flow: u128,
        range: &TimeRange,
        serial: u64,
    ) -> Result<Covered, Memory>
        requires above { IsTrue (are_segments_below serial self.now.media.segments) }
        ensures rows { IfOk result (λ cut. cut.rows
            ≡ take step_size (covered self.now.media.segments flow range.now)) }
        ensures whole { IfOk result (λ cut. cut.whole
            ≡ nat_le (length (covered self.now.media.segments flow range.now)) step_size) }
        ensures all { IfOk result (λ cut. IsTrue cut.whole
            → cut.rows ≡ covered self.now.media.segments flow range.now) }
        ensures some { IfOk result (λ cut. AreSome cut.rows self.now.media.segments) }
    {
        // They are those of the first step of a request for them.
        let deletion = Deletion {
            flow,
            range: *range,
            delete_flow: false,
        };
        let index = self.segments.index(flow)?;
        let step = step_rows(alloc, &index, &deletion.row(serial, 0))?;
        Ok(Covered {
            rows: step.removed,
            whole: step.finished,
        })
    }

    /// Works off the delete request that is due by one step: the requests after it, which segments go, and
    /// whether nothing is left of what the request asked for. The segments are left to `remove`, and a flow that
    /// goes with its other requests is the caller's.
    pub fn due_step(
        &self,
        alloc: Global,
        requests: &DeleteBook,
        now: u64,
    ) -> Result<DueStep, Memory>
        requires due { IsTrue (is_some (first_unfinished requests.now)) }
        ensures removed { IfOk result (λ step. OfDue requests.now
            (λ request. step.removed ≡ removed_by_step self.now.media.segments request)) }
        ensures finished { IfOk result (λ step. OfDue requests.now
            (λ request. step.finished ≡ is_finished_by_step self.now.media.segments request)) }
        ensures book { IfOk result (λ step. OfDue requests.now
            (λ request. step.book ≡ after_step request.serial step.finished now requests.now)) }
        ensures some { IfOk result (λ step. AreSome step.removed self.now.media.segments) }
    {
        let Some(request) = requests.first_due() else {
            unreachable!()
        };
        let index = self.segments.index(request.flow)?;
        requests.due_step(alloc, &index, now)
    }

    /// Leaves out all segments of a flow, as a flow that goes loses them. An object that loses its last reference
    /// is idle since now.
    pub fn remove_flow(&self, alloc: Global, flow: u128, now: u64) -> Result<MediaBook, Memory>
        ensures { IfOk result (λ next. next.media ≡ without_rows (segments_of flow self.now.media.segments) now self.now.media) }
    {
        let rows = self.segments.flow_rows(alloc, flow)?;
        self.remove(alloc, rows.items(), now)
    }

    /// All segments as a snapshot has them: by flow, and those of a flow by rising first point.
    pub fn segment_rows(&self, alloc: Global) -> Result<SegmentList, Memory>
        ensures { IfOk result (λ rows. rows ≡ in_order segment_row_before self.now.media.segments) }
    {
        self.segments.list(alloc)
    }
}
