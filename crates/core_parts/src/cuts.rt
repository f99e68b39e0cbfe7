//! Segments that go, and requests for it.
ghost use Rattle.std.specs.Prelude.{◌≡◌, IfOk, None, length, nat_lt};
ghost use Rattle.media_rows.specs.declared.change.Change.TheVariants as changes;
ghost use Rattle.media_rows.specs.Answer.{change_refusal};
ghost use Rattle.media_rows.specs.Catalog.{no_flow_refusal};
ghost use Rattle.media_rows.specs.Changes.{after};
ghost use Rattle.media_rows.specs.Refusals.{IsChange};
ghost use Rattle.media_rows.specs.Requests.{step_size};
ghost use Rattle.media_rows.specs.Segments.{covered, segments_of};
ghost use Rattle.media_book.specs.Media.{AreSome};
ghost use Rattle.core_registry.specs.Going.{hull_if_any};
ghost use Rattle.core_parts.specs.Conditions.{IsReady};
ghost use Rattle.core_parts.specs.Cuts.{cut_of, given_cut};
ghost use Rattle.core_parts.specs.Parts.{given_library, only_library, within_serials};
ghost use Rattle.core_parts.specs.Within.{after_going};

use crate::Parts;
use core_registry::{going_is_told, hull_if_any};
use disk_trait::Memory;
use media_rows::{BookFault, Deletion, SegmentRow};
use std::alloc::Global;
use time_range::TimeRange;

/// What a cut of segments comes to: none is covered; so many as go at once, and the library without them, unless
/// its serials would end; or more, for which a request is to be made.
#[derive(Drop)]
pub enum Cut {
    Nothing,
    Gone(Option<Parts>),
    Many,
}

impl Parts {
    /// Leaves out the segments of a flow that a range covers, where they are at most 32.
    pub fn cut(
        &self,
        alloc: Global,
        flow: u128,
        range: &TimeRange,
        now: u64,
    ) -> Result<Cut, BookFault>
        requires ready { IsReady self.now.library }
        ensures { IsChange (change_refusal self.now.library flow) (cut_of self.now.library flow range.now now) (given_cut result) }
    {
        let refusal = self.registry.change_refusal(flow);
        if let Some(why) = refusal {
            return Err(BookFault::Refused(why));
        }
        let covered = self
            .media
            .covered(alloc, flow, range, self.registry.next_serial())?;
        if !covered.whole {
            return Ok(Cut::Many);
        }
        if covered.rows.items().is_empty() {
            return Ok(Cut::Nothing);
        }
        Ok(Cut::Gone(self.without_segments(alloc, flow, covered.rows.items(), now)?))
    }

    /// Whether a range covers more segments of a flow than go at once.
    pub fn covers_many(&self, alloc: Global, flow: u128, range: &TimeRange) -> Result<bool, Memory>
        requires ready { IsReady self.now.library }
        ensures { IfOk result (λ many. many
            ≡ nat_lt step_size (length (covered self.now.library.segments flow range.now))) }
    {
        let covered = self
            .media
            .covered(alloc, flow, range, self.registry.next_serial())?;
        Ok(!covered.whole)
    }

    /// A flow goes with all its segments.
    #[tactic(auto, using(crate::proofs::Changed::ending))]
    pub fn drop_flow(&self, alloc: Global, flow: u128, now: u64) -> Result<Option<Parts>, BookFault>
        requires ready { IsReady self.now.library }
        ensures { IsChange (change_refusal self.now.library flow)
            (within_serials (after (changes.DropFlow now flow) self.now.library)) (given_library result) }
    {
        going_is_told();
        let refusal = self.registry.change_refusal(flow);
        if let Some(why) = refusal {
            return Err(BookFault::Refused(why));
        }
        let hull = self.hull_if_any(flow);
        let media = self.media.remove_flow(alloc, flow, now)?;
        let registry = self.registry.lose_flow(alloc, flow, &hull, now)?;
        Ok(self.with_both(media, registry))
    }

    /// Makes a delete request. It takes the next serial.
    pub fn ask_delete(
        &self,
        alloc: Global,
        asked: &Deletion,
        now: u64,
    ) -> Result<Option<Parts>, BookFault>
        requires ready { IsReady self.now.library }
        ensures { IsChange (change_refusal self.now.library asked.now.flow)
            (within_serials (after (changes.AskDelete now asked.now.flow asked.now.range
            asked.now.delete_flow) self.now.library)) (given_library result) }
    {
        let refusal = self.registry.change_refusal(asked.flow);
        if let Some(why) = refusal {
            return Err(BookFault::Refused(why));
        }
        let registry = self.registry.ask_delete(alloc, asked, now)?;
        Ok(self.with_registry(alloc, registry)?)
    }

    /// The library without these segments of a kept flow.
    fn without_segments(
        &self,
        alloc: Global,
        flow: u128,
        rows: &[SegmentRow],
        now: u64,
    ) -> Result<Option<Parts>, Memory>
        requires ready { IsReady self.now.library }
        requires kept { no_flow_refusal self.now.library.catalog flow ≡ None }
        requires some { AreSome rows.now self.now.library.segments }
        ensures { IfOk result
            (λ next. only_library next ≡ within_serials (after_going flow rows.now now self.now.library)) }
    {
        going_is_told();
        let media = self.media.remove(alloc, rows, now)?;
        let registry = self
            .registry
            .lose_segments(alloc, flow, &hull_if_any(rows), now)?;
        Ok(self.with_both(media, registry))
    }

    /// The least range that covers all segments of a flow, where it has any.
    fn hull_if_any(&self, flow: u128) -> Option<TimeRange>
        ensures { result ≡ hull_if_any (segments_of flow self.now.library.segments) }
    {
        if self.media.flow_len(flow) == 0 {
            None
        } else {
            Some(self.media.hull(flow))
        }
    }
}
