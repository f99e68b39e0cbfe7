//! What is asked of the store: flows, and their segments in a range.
ghost use Rattle.std.specs.Prelude.{◌≡◌, ◌↔◌, ◌≢◌, [], IfOk, IsTrue, None};
ghost use Rattle.media_rows.specs.Catalog.{flow_of};
ghost use Rattle.media_rows.specs.Segments.{overlapping};
ghost use Rattle.range_edit.specs.Assembling.{IsUnkept};
ghost use Rattle.range_edit.specs.Within.Cutting.{IsSeenIn, IsSeenOf};
ghost use Rattle.segment_pages.specs.Pages.{IsRead};

use disk_trait::Memory;
use media_rows::{BookFault, FlowBody, FlowRow, FormatKind, Query, Reply, View};
use segment_pages::{SegmentsRead, read_segments};
use segment_pieces::{Rate, rate_of};
use std::alloc::Global;
use store_core::Core;
use time_range::TimeRange;

/// The format of a flow, and the rate that it tells.
#[derive(Clone, Copy)]
pub(crate) struct FlowSeen {
    pub(crate) format: FormatKind,
    pub(crate) rate: Option<Rate>,
}

/// A flow, where it is kept.
pub(crate) fn kept_flow(alloc: Global, core: &Core, flow: u128) -> Result<Option<FlowRow>, Memory>
    ensures { IfOk result (λ kept. kept ≡ flow_of flow core.now.library.catalog.flows) }
{
    match core.query(alloc, &Query::Flow(flow)) {
        Ok(Reply::Shown(View::Flow(shown))) => Ok(Some(shown.row)),
        Ok(_) => unreachable!(),
        Err(BookFault::Refused(_)) => Ok(None),
        Err(BookFault::Memory) => Err(Memory),
    }
}

/// What is seen of a flow, where it is kept.
pub(crate) fn flow_seen(alloc: Global, core: &Core, flow: u128) -> Result<Option<FlowSeen>, Memory>
    ensures { IfOk result (IsSeenOf core.now.library flow) }
{
    match kept_flow(alloc, core, flow)? {
        None => Ok(None),
        Some(kept) => Ok(Some(seen_of(alloc, &kept.body)?)),
    }
}

/// What is seen of a flow as a client says it.
fn seen_of(alloc: Global, body: &FlowBody) -> Result<FlowSeen, Memory>
    ensures { IfOk result (IsSeenIn body.now) }
{
    let rate = rate_of(alloc, body.essence.as_ref())?;
    Ok(FlowSeen {
        format: body.format,
        rate,
    })
}

/// Some segments of a kept flow that overlap a range, those of least first point behind `after`.
pub(crate) fn read_kept(
    alloc: Global,
    core: &Core,
    flow: u128,
    range: &TimeRange,
    after: Option<i128>,
) -> Result<SegmentsRead, Memory>
    requires kept { ¬ (IsUnkept core.now.library flow) }
    ensures read { IfOk result (IsRead core.now.library flow range.now after) }
{
    match read_segments(alloc, core, flow, range, after) {
        Ok(read) => Ok(read),
        Err(BookFault::Refused(_)) => unreachable!(),
        Err(BookFault::Memory) => Err(Memory),
    }
}

/// Whether a kept flow has a segment in a range.
pub(crate) fn is_occupied(
    alloc: Global,
    core: &Core,
    flow: u128,
    range: &TimeRange,
) -> Result<bool, Memory>
    requires kept { ¬ (IsUnkept core.now.library flow) }
    ensures { IfOk result (λ occupied. IsTrue occupied
        ↔ (overlapping core.now.library.segments flow range.now None ≢ [])) }
{
    let read = read_kept(alloc, core, flow, range, None)?;
    Ok(read.count > 0)
}
