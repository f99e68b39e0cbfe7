//! Changes of flows and sources that look at no segments.
ghost use Rattle.media_rows.specs.declared.change.Change.TheVariants as changes;
ghost use Rattle.media_rows.specs.declared.command.Command.TheVariants as commands;
ghost use Rattle.media_rows.specs.Answer.{refusal_of};
ghost use Rattle.media_rows.specs.Refusals.{IsChange};
ghost use Rattle.webhook_outbox.specs.Delivered.{IsBehind};
ghost use Rattle.core_registry.specs.Registry.{after_change, bare_library, within};

use crate::Registry;
use crate::events::{put_events, set_events, source_events};
use media_rows::{BookFault, EventKind, FlowBody, Part};
use std::alloc::Global;

impl Registry {
    /// Puts a flow, and makes its source where that is new.
    pub fn put_flow(
        &self,
        alloc: Global,
        body: &FlowBody,
        now: u64,
    ) -> Result<Option<Registry>, BookFault>
        requires behind { IsBehind self.now.next_serial self.now.outbox.events }
        ensures { IsChange (refusal_of (bare_library self.now) (commands.PutFlow body.now))
            (within (after_change (changes.PutFlow now body.now) self.now)) result }
    {
        let refusal = self.deleting_refusal(body.id);
        if let Some(why) = refusal {
            return Err(BookFault::Refused(why));
        }
        let kept = self.catalog();
        let catalog = kept.put_flow(alloc, body, now)?;
        let happened = put_events(alloc, kept, body)?;
        Ok(self.told(alloc, catalog, &happened, now)?)
    }

    /// Sets or clears a part of a flow.
    pub fn set_flow(
        &self,
        alloc: Global,
        flow: u128,
        part: &Part,
        now: u64,
    ) -> Result<Option<Registry>, BookFault>
        requires behind { IsBehind self.now.next_serial self.now.outbox.events }
        ensures { IsChange (refusal_of (bare_library self.now) (commands.SetFlow flow part.now))
            (within (after_change (changes.SetFlow now flow part.now) self.now)) result }
    {
        let refusal = self.deleting_refusal(flow);
        if let Some(why) = refusal {
            return Err(BookFault::Refused(why));
        }
        let kept = self.catalog();
        let catalog = kept.set_flow(alloc, flow, part, now)?;
        let happened = set_events(alloc, kept, flow)?;
        Ok(self.told(alloc, catalog, &happened, now)?)
    }

    /// Sets or clears a part of a source.
    pub fn set_source(
        &self,
        alloc: Global,
        source: u128,
        part: &Part,
        now: u64,
    ) -> Result<Option<Registry>, BookFault>
        requires behind { IsBehind self.now.next_serial self.now.outbox.events }
        ensures { IsChange (refusal_of (bare_library self.now) (commands.SetSource source part.now))
            (within (after_change (changes.SetSource now source part.now) self.now)) result }
    {
        let kept = self.catalog();
        let catalog = kept.set_source(alloc, source, part, now)?;
        let happened = source_events(alloc, EventKind::SourceUpdated, source)?;
        Ok(self.told(alloc, catalog, &happened, now)?)
    }
}
