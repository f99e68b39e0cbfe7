//! What the coming and the going of segments makes of a registry, and flows that go with them.
ghost use Rattle.std.specs.Prelude.{◌≡◌, ◌+◌, IfOk, IsTrue, None};
ghost use Rattle.media_rows.specs.declared.change.Change.TheVariants as changes;
ghost use Rattle.media_rows.specs.Catalog.{after_drop, after_touch, no_flow_refusal};
ghost use Rattle.media_rows.specs.Good.{are_sources_good};
ghost use Rattle.media_rows.specs.Segments.{list_post};
ghost use Rattle.webhook_outbox.specs.Delivered.{IsBehind};
ghost use Rattle.core_registry.specs.Going.{ending_events, going_events, touched_by, without_flow};
ghost use Rattle.core_registry.specs.Registry.{after_change, with_events_of, within};

use crate::Registry;
use crate::events::{added_events, ending_events, going_events};
use disk_trait::Memory;
use flow_book::FlowBook;
use media_rows::{BookFault, Segment};
use std::alloc::Global;
use time_range::TimeRange;

impl Registry {
    /// The segments of a post come to a flow, with the next serials.
    #[tactic(auto, using(crate::proofs::Happening::added_told, crate::proofs::Happening::behind_more))]
    pub fn add_segments(
        &self,
        alloc: Global,
        flow: u128,
        posts: &[Segment],
        now: u64,
    ) -> Result<Option<Registry>, Memory>
        requires kept { no_flow_refusal self.now.catalog flow ≡ None }
        requires behind { IsBehind self.now.next_serial self.now.outbox.events }
        ensures { IfOk result (λ next. next
            ≡ within (after_change (changes.AddSegments now flow (list_post posts.now)) self.now)) }
    {
        let next_serial = self.serial_behind(posts.len())?;
        let kept = self.catalog();
        let catalog = touched(alloc, kept, flow, now)?;
        let happened = added_events(alloc, kept, flow, posts)?;
        self.at_serial(next_serial)?
            .told(alloc, catalog, &happened, now)
    }

    /// Segments with this hull go from a flow, if any do.
    pub fn lose_segments(
        &self,
        alloc: Global,
        flow: u128,
        hull: &Option<TimeRange>,
        now: u64,
    ) -> Result<Option<Registry>, Memory>
        requires kept { no_flow_refusal self.now.catalog flow ≡ None }
        requires behind { IsBehind self.now.next_serial self.now.outbox.events }
        ensures { IfOk result (λ next. next
            ≡ within (with_events_of (going_events self.now.catalog flow hull.now) now
            (touched_by flow hull.now now self.now))) }
    {
        let kept = self.catalog();
        let happened = going_events(alloc, kept, flow, hull)?;
        match hull {
            None => self.post(alloc, &happened, now),
            Some(_) => {
                let catalog = touched(alloc, kept, flow, now)?;
                self.told(alloc, catalog, &happened, now)
            }
        }
    }

    /// A flow goes with all its segments, which have this hull, if it has any. Its unfinished
    /// requests are done, its entries leave all collections, and its source goes where it has no
    /// other flow.
    pub fn lose_flow(
        &self,
        alloc: Global,
        flow: u128,
        hull: &Option<TimeRange>,
        now: u64,
    ) -> Result<Option<Registry>, Memory>
        requires kept { no_flow_refusal self.now.catalog flow ≡ None }
        requires sources { IsTrue (are_sources_good self.now.catalog) }
        requires behind { IsBehind self.now.next_serial self.now.outbox.events }
        ensures { IfOk result (λ next. next
            ≡ within (with_events_of (ending_events self.now.catalog flow hull.now) now
            (without_flow flow now self.now))) }
    {
        let kept = self.catalog();
        let catalog = dropped(alloc, kept, flow)?;
        let happened = ending_events(alloc, kept, &catalog, flow, hull)?;
        let requests = self.requests().end_for(alloc, flow, now)?;
        self.with_requests(alloc, requests)?
            .told(alloc, catalog, &happened, now)
    }

    /// The next serial once so many are taken. Where no number is so great, that is want of memory.
    fn serial_behind(&self, count: usize) -> Result<u64, Memory>
        ensures { IfOk result (λ serial. serial ≡ self.now.next_serial + count) }
    {
        self.next_serial.checked_add(count as u64).ok_or(Memory)
    }
}

/// The catalog once segments came to a kept flow or went from it.
fn touched(alloc: Global, catalog: &FlowBook, flow: u128, now: u64) -> Result<FlowBook, Memory>
    requires kept { no_flow_refusal catalog.now flow ≡ None }
    ensures { IfOk result (λ next. next ≡ after_touch flow now catalog.now) }
{
    match catalog.touch_segments(alloc, flow, now) {
        Ok(next) => Ok(next),
        Err(BookFault::Refused(_)) => unreachable!(),
        Err(BookFault::Memory) => Err(Memory),
    }
}

/// The catalog without a kept flow.
fn dropped(alloc: Global, catalog: &FlowBook, flow: u128) -> Result<FlowBook, Memory>
    requires kept { no_flow_refusal catalog.now flow ≡ None }
    ensures { IfOk result (λ next. next ≡ after_drop flow catalog.now) }
{
    match catalog.drop_flow(alloc, flow) {
        Ok(next) => Ok(next),
        Err(BookFault::Refused(_)) => unreachable!(),
        Err(BookFault::Memory) => Err(Memory),
    }
}
