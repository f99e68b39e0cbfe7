//! What is shown of flows: each with the hull of its segments.
ghost use Rattle.std.specs.Prelude.{◌≡◌, IfOk, Ok, filter, map, take};
ghost use Rattle.media_rows.specs.declared.refusal.Refusal.TheVariants.{NoFlow};
ghost use Rattle.media_rows.specs.declared.reply.View.TheVariants as views;
ghost use Rattle.media_rows.specs.Catalog.{flow_of};
ghost use Rattle.media_rows.specs.Views.{flow_key, kept_or, listed_flows, passes_range, shown_flow, shown_flows};
ghost use Rattle.shared_tree.specs.Pairs.{values_of};
ghost use Rattle.core_views.specs.Pages.{key_behind};
ghost use Rattle.core_views.specs.Shown.{IsShown};

use core_parts::Parts;
use core_views::{first_rows, id_before, key_behind, rows_past};
use disk_trait::{Duplicate, Memory};
use media_book::MediaBook;
use media_rows::{BookFault, FlowFilter, FlowRow, FlowShown, FlowShownList, Page, Refusal, View};
use std::alloc::Global;
use time_range::TimeRange;

/// A flow with its hull, or `NoFlow`.
pub(crate) fn flow_view(alloc: Global, parts: &Parts, id: u128) -> Result<View, BookFault>
    ensures { IsShown (kept_or NoFlow (λ row. Ok (views.Flow (shown_flow parts.now.library.segments row)))
        (flow_of id parts.now.library.catalog.flows)) result }
{
    match parts.registry().catalog().flow(id) {
        None => Err(BookFault::Refused(Refusal::NoFlow)),
        Some(row) => Ok(View::Flow(shown(alloc, parts.media(), row)?)),
    }
}

/// A page of the flows that pass, each with its hull, with the key of the next one. Where a range is named, only
/// flows pass of which a segment has a point in it.
pub(crate) fn flows_view(
    alloc: Global,
    parts: &Parts,
    wanted: &FlowFilter,
    range: &Option<TimeRange>,
    page: &Page,
) -> Result<View, Memory>
    ensures { IfOk result (λ view. view ≡ shown_flows parts.now.library page.now
        (listed_flows parts.now.library wanted.now range.now)) }
{
    let media = parts.media();
    let listed = parts
        .registry()
        .catalog()
        .list_flows(alloc, wanted, id_before(page))?;
    let past = rows_past(alloc, listed.items(), page)?;
    let met = met_flows(alloc, media, &past, range)?;
    flow_page(alloc, media, &met, page.limit)
}

/// The flows of which a segment has a point in the range, where one is named.
fn met_flows<'a>(
    alloc: Global,
    media: &MediaBook,
    rows: &[&'a FlowRow],
    range: &Option<TimeRange>,
) -> Result<Vec<&'a FlowRow>, Memory>
    ensures { IfOk result (λ met. values_of met.items
        ≡ filter (passes_range media.now.media.segments range.now) (values_of rows.now)) }
{
    let mut met = Vec::new(alloc);
    for row in rows {
        if is_met(alloc, media, row, range)? {
            met.push(*row)?;
        }
    }
    Ok(met)
}

/// Whether a segment of the flow has a point in the range, where one is named.
fn is_met(
    alloc: Global,
    media: &MediaBook,
    row: &FlowRow,
    range: &Option<TimeRange>,
) -> Result<bool, Memory>
    ensures { IfOk result
        (λ met. met ≡ passes_range media.now.media.segments range.now row.now) }
{
    match range {
        None => Ok(true),
        Some(range) => media.is_met(alloc, row.body.id, range),
    }
}

/// The page of the first so many flows, each with its hull, with the key of the next one where there are more.
fn flow_page(
    alloc: Global,
    media: &MediaBook,
    rows: &[&FlowRow],
    limit: u64,
) -> Result<View, Memory>
    ensures { IfOk result (λ view. view
        ≡ views.Flows (map (shown_flow media.now.media.segments) (take limit (values_of rows.now)))
        (key_behind flow_key limit (values_of rows.now))) }
{
    let page = first_rows(rows, limit);
    let mut list = FlowShownList::new(alloc);
    for row in page {
        list.push(shown(alloc, media, row)?)?;
    }
    Ok(View::Flows(list, key_behind(rows, limit)))
}

/// A flow with the hull of its segments.
fn shown(alloc: Global, media: &MediaBook, row: &FlowRow) -> Result<FlowShown, Memory>
    ensures { IfOk result (λ shown. shown ≡ shown_flow media.now.media.segments row.now) }
{
    Ok(FlowShown {
        row: row.duplicate(alloc)?,
        hull: media.hull(row.body.id),
    })
}
