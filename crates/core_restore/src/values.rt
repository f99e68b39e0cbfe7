//! What rows hold by themselves.
ghost use Rattle.std.specs.Prelude.{◌≡◌, IfOk};
ghost use Rattle.media_rows.specs.Good.{are_texts_good};
ghost use Rattle.core_restore.specs.Within.{are_values_good, library_from_kinds};

use crate::serials::are_serials_good;
use core_rows::Kinds;
use disk_trait::Memory;
use good_values::{
    are_events_good, are_flows_good, are_hooks_good, are_objects_good, are_requests_good,
    are_sources_good,
};
use std::alloc::Global;

/// Whether serials, texts and moments are good.
pub(crate) fn are_values_good(
    alloc: Global,
    kinds: &Kinds,
    next_serial: u64,
) -> Result<bool, Memory>
    ensures { IfOk result
        (λ good. good ≡ are_values_good (library_from_kinds 0 0 next_serial kinds.now)) }
{
    if !are_serials_good(alloc, kinds, next_serial)? {
        return Ok(false);
    }
    are_texts_good(alloc, kinds)
}

/// Whether texts and moments are good. Memory is asked for the essences of flows alone.
fn are_texts_good(alloc: Global, kinds: &Kinds) -> Result<bool, Memory>
    ensures { IfOk result (λ good. good ≡ are_texts_good (library_from_kinds 0 0 0 kinds.now)) }
{
    let flows = are_flows_good(alloc, kinds.flows.items())?;
    Ok(
        flows
            && are_sources_good(kinds.sources.items())
            && are_objects_good(kinds.objects.items())
            && are_requests_good(kinds.requests.items())
            && are_hooks_good(kinds.hooks.items())
            && are_events_good(kinds.events.items()),
    )
}
