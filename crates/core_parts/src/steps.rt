//! The step of a turn that works off a delete request.
ghost use Rattle.std.specs.Prelude.{◌≡◌, IfOk, IsTrue, None, is_some};
ghost use Rattle.media_rows.specs.declared.change.Change.TheVariants as changes;
ghost use Rattle.media_rows.specs.Catalog.{no_flow_refusal};
ghost use Rattle.media_rows.specs.Changes.{after};
ghost use Rattle.media_rows.specs.Good.{are_sources_good};
ghost use Rattle.media_rows.specs.Requests.{first_unfinished};
ghost use Rattle.core_registry.specs.Registry.{within};
ghost use Rattle.webhook_outbox.specs.Delivered.{IsBehind};
ghost use Rattle.core_parts.specs.Conditions.{IsReady};
ghost use Rattle.core_parts.specs.Parts.{only_library, within_serials};
ghost use Rattle.core_parts.specs.Within.{lost_by};

use crate::Parts;
use core_registry::{Registry, going_flows_forget, going_is_told, hull_if_any};
use delete_work::DueStep;
use disk_trait::Memory;
use std::alloc::Global;
use time_range::TimeRange;

impl Parts {
    /// Works off the delete request that is due by one step: its first segments go, and its flow with the last
    /// of them where the request deletes it.
    pub fn delete_step(&self, alloc: Global, now: u64) -> Result<Option<Parts>, Memory>
        requires ready { IsReady self.now.library }
        requires due { IsTrue (is_some (first_unfinished self.now.library.requests)) }
        ensures { IfOk result
            (λ next. only_library next ≡ within_serials (after (changes.DeleteStep now) self.now.library)) }
    {
        going_is_told();
        going_flows_forget();
        let Some(request) = self.registry.requests().first_due() else {
            unreachable!()
        };
        let DueStep {
            book,
            removed,
            finished,
        } = self.media.due_step(alloc, self.registry.requests(), now)?;
        let hull = hull_if_any(removed.items());
        let media = self.media.remove(alloc, removed.items(), now)?;
        let stepped = self.registry.with_requests(alloc, book)?;
        let gone = finished && request.delete_flow;
        let registry = lost(alloc, &stepped, request.flow, &hull, gone, now)?;
        Ok(self.with_both(media, registry))
    }
}

/// The registry once segments with this hull went from a kept flow, if any did, and the flow with them where
/// that is said.
fn lost(
    alloc: Global,
    registry: &Registry,
    flow: u128,
    hull: &Option<TimeRange>,
    gone: bool,
    now: u64,
) -> Result<Option<Registry>, Memory>
    requires kept { no_flow_refusal registry.now.catalog flow ≡ None }
    requires sources { IsTrue (are_sources_good registry.now.catalog) }
    requires behind { IsBehind registry.now.next_serial registry.now.outbox.events }
    ensures { IfOk result (λ next. next ≡ within (lost_by gone flow hull.now now registry.now)) }
{
    if gone {
        registry.lose_flow(alloc, flow, hull, now)
    } else {
        registry.lose_segments(alloc, flow, hull, now)
    }
}
