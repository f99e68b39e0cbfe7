//! Flows that go, with their entries in collections, and sources that go with their last flow.
ghost use Rattle.std.specs.Prelude.{◌≡◌, IfOk, if◌then◌else◌};
ghost use Rattle.media_rows.specs.Views.{flow_key, id_key};
ghost use Rattle.shared_tree.specs.Pairs.{values, values_of, without_key};
ghost use Rattle.shared_tree.specs.Rows.{IsKeyedBy};
ghost use Rattle.id_index.specs.Index.{has_pairs, ids_at, naming};
ghost use Rattle.flow_book.specs.Within.Order.{IsByCollected, all_cleared, cleared, collects, flow_id, flows_named};

use crate::looks::flows_at;
use catalog_rows::without_entries;
use disk_trait::Memory;
use id_index::{IdIndex, with_row, without_row};
use media_rows::{FlowRow, Member, SourceRow};
use shared_tree::Version;
use std::alloc::Global;

/// The flows without one, and without its entries in collections, which the index tells.
pub(crate) fn flows_after_drop(
    alloc: Global,
    flows: &Version<FlowRow>,
    collectors: &IdIndex,
    id: u128,
) -> Result<Version<FlowRow>, Memory>
    requires keyed { IsKeyedBy flow_key flows.now }
    requires index { IsByCollected (without_key (id_key id) flows.now) collectors.now }
    ensures { IfOk result (λ next. next ≡ all_cleared id (without_key (id_key id) flows.now)) }
{
    flows.keys_rise();
    let left = without_row(alloc, flows, id)?;
    let ids = collectors.ids(alloc, id)?;
    entries_left_out(alloc, &left, &ids, id)
}

/// The flows without the entries of one, where these are the flows that have such.
fn entries_left_out(
    alloc: Global,
    flows: &Version<FlowRow>,
    collecting: &[&u128],
    id: u128,
) -> Result<Version<FlowRow>, Memory>
    requires keyed { IsKeyedBy flow_key flows.now }
    requires ids { values_of collecting.now ≡ values (naming flow_id flows_named id flows.now) }
    ensures { IfOk result (λ next. next ≡ all_cleared id flows.now) }
{
    flows.keys_rise();
    let rows = flows_at(alloc, flows, collecting)?;
    entries_cleared(alloc, flows, &rows, id)
}

/// The flows without the entries of one: only rows that have such are copied.
fn entries_cleared(
    alloc: Global,
    flows: &Version<FlowRow>,
    rows: &[&FlowRow],
    id: u128,
) -> Result<Version<FlowRow>, Memory>
    ensures { IfOk result (λ next. next ≡ cleared id (values_of rows.now) flows.now) }
{
    let mut next = flows.share()?;
    for row in rows {
        if collects(row.body.members.items(), id) {
            next = with_row(alloc, &next, row.body.id, without_entries(alloc, row, id)?)?;
        }
    }
    Ok(next)
}

/// Whether one of these entries is of a flow.
fn collects(members: &[Member], id: u128) -> bool
    ensures { result ≡ collects id members.now }
{
    members.iter().any(|member| member.flow == id)
}

/// The sources without one that has no flow any more by the index. No row is copied.
pub(crate) fn sources_after_drop(
    alloc: Global,
    sources: &Version<SourceRow>,
    by_source: &IdIndex,
    source: u128,
) -> Result<Version<SourceRow>, Memory>
    ensures { IfOk result (λ next. next ≡ (if has_pairs (ids_at source by_source.now)
        then sources.now else without_key (id_key source) sources.now)) }
{
    if by_source.has_any(source) {
        sources.share()
    } else {
        without_row(alloc, sources, source)
    }
}
