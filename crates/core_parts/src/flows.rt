//! Changes of flows and sources that look at no segments.
ghost use Rattle.media_rows.specs.declared.change.Change.TheVariants as changes;
ghost use Rattle.media_rows.specs.declared.command.Command.TheVariants as commands;
ghost use Rattle.media_rows.specs.Answer.{refusal_of};
ghost use Rattle.media_rows.specs.Changes.{after};
ghost use Rattle.media_rows.specs.Refusals.{IsChange};
ghost use Rattle.core_parts.specs.Conditions.{IsReady};
ghost use Rattle.core_parts.specs.Parts.{given_library, within_serials};

use crate::Parts;
use media_rows::{BookFault, FlowBody, Part};
use std::alloc::Global;

impl Parts {
    /// Puts a flow, and makes its source where that is new.
    pub fn put_flow(
        &self,
        alloc: Global,
        body: &FlowBody,
        now: u64,
    ) -> Result<Option<Parts>, BookFault>
        requires ready { IsReady self.now.library }
        ensures { IsChange (refusal_of self.now.library (commands.PutFlow body.now))
            (within_serials (after (changes.PutFlow now body.now) self.now.library)) (given_library result) }
    {
        match self.registry.put_flow(alloc, body, now) {
            Ok(registry) => Ok(self.with_registry(alloc, registry)?),
            Err(fault) => Err(fault),
        }
    }

    /// Sets or clears a part of a flow.
    pub fn set_flow(
        &self,
        alloc: Global,
        flow: u128,
        part: &Part,
        now: u64,
    ) -> Result<Option<Parts>, BookFault>
        requires ready { IsReady self.now.library }
        ensures { IsChange (refusal_of self.now.library (commands.SetFlow flow part.now))
            (within_serials (after (changes.SetFlow now flow part.now) self.now.library)) (given_library result) }
    {
        match self.registry.set_flow(alloc, flow, part, now) {
            Ok(registry) => Ok(self.with_registry(alloc, registry)?),
            Err(fault) => Err(fault),
        }
    }

    /// Sets or clears a part of a source.
    pub fn set_source(
        &self,
        alloc: Global,
        source: u128,
        part: &Part,
        now: u64,
    ) -> Result<Option<Parts>, BookFault>
        requires ready { IsReady self.now.library }
        ensures { IsChange (refusal_of self.now.library (commands.SetSource source part.now))
            (within_serials (after (changes.SetSource now source part.now) self.now.library)) (given_library result) }
    {
        match self.registry.set_source(alloc, source, part, now) {
            Ok(registry) => Ok(self.with_registry(alloc, registry)?),
            Err(fault) => Err(fault),
        }
    }
}
