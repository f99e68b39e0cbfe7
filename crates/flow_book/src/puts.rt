//! Flows that are put: what is refused of them, and what they make.
ghost use Rattle.std.specs.Prelude.{◌≡◌, [], IfOk, Some, None};
ghost use Rattle.media_rows.specs.Catalog.{Catalog, flow_before, flow_of, new_source, put_refusal, put_refusals, put_row, source_before, source_of, sources_after_put};
ghost use Rattle.media_rows.specs.Lists.{placed};
ghost use Rattle.media_rows.specs.Refusals.{first_refusal};
ghost use Rattle.media_rows.specs.Views.{flow_key, id_key, source_key};
ghost use Rattle.shared_tree.specs.Pairs.{values, with_pair};
ghost use Rattle.shared_tree.specs.Rows.{IsKeyedBy};
ghost use Rattle.catalog_rows.specs.Answers.{Computes};
ghost use Rattle.flow_book.specs.Within.Answers.{catalog_with};
ghost use Rattle.flow_book.specs.Within.Order.{IsByCollected, SourceLinked, source_put};

use crate::collections::collection_refusal;
use crate::looks::{find_flow, find_source};
use catalog_rows::{fits_source, keeps_flow, new_source, put_row};
use disk_trait::Memory;
use id_index::{IdIndex, with_row};
use media_rows::{FlowBody, FlowRow, Refusal, SourceRow};
use shared_tree::Version;
use std::alloc::Global;

/// The first refusal that stands of a put.
pub(crate) fn put_refusal(
    alloc: Global,
    sources: &Version<SourceRow>,
    flows: &Version<FlowRow>,
    collectors: &IdIndex,
    body: &FlowBody,
) -> Result<Option<Refusal>, Memory>
    requires sources { IsKeyedBy source_key sources.now }
    requires flows { IsKeyedBy flow_key flows.now }
    requires index { IsByCollected flows.now collectors.now }
    ensures { Computes result
        (put_refusal (catalog_with (values sources.now) (values flows.now)) body.now) }
{
    match find_flow(flows, body.id) {
        None => new_flow_refusal(alloc, sources, flows, collectors, body),
        Some(old) => kept_flow_refusal(alloc, flows, collectors, old, body),
    }
}

fn new_flow_refusal(
    alloc: Global,
    sources: &Version<SourceRow>,
    flows: &Version<FlowRow>,
    collectors: &IdIndex,
    body: &FlowBody,
) -> Result<Option<Refusal>, Memory>
    requires sources { IsKeyedBy source_key sources.now }
    requires flows { IsKeyedBy flow_key flows.now }
    requires index { IsByCollected flows.now collectors.now }
    ensures { Computes result (first_refusal
        (put_refusals None (catalog_with (values sources.now) (values flows.now)) body.now)) }
{
    if !fits_source(find_source(sources, body.source), body) {
        return Ok(Some(Refusal::SourceFormat));
    }
    collection_refusal(alloc, flows, collectors, body.id, body.members.items())
}

fn kept_flow_refusal(
    alloc: Global,
    flows: &Version<FlowRow>,
    collectors: &IdIndex,
    old: &FlowRow,
    body: &FlowBody,
) -> Result<Option<Refusal>, Memory>
    requires flows { IsKeyedBy flow_key flows.now }
    requires index { IsByCollected flows.now collectors.now }
    ensures { Computes result (first_refusal
        (put_refusals (Some old.now) (catalog_with [] (values flows.now)) body.now)) }
{
    if old.body.read_only {
        return Ok(Some(Refusal::ReadOnly));
    }
    if !keeps_flow(&old.body, body) {
        return Ok(Some(Refusal::FlowChanged));
    }
    collection_refusal(alloc, flows, collectors, body.id, body.members.items())
}

/// The flows with the one that is put.
pub(crate) fn flows_after_put(
    alloc: Global,
    flows: &Version<FlowRow>,
    body: &FlowBody,
    now: u64,
) -> Result<Version<FlowRow>, Memory>
    requires keyed { IsKeyedBy flow_key flows.now }
    ensures rows { IfOk result (λ next. values next ≡ placed flow_before
        (put_row (flow_of body.now.id (values flows.now)) body.now now) (values flows.now)) }
    ensures keyed { IfOk result (IsKeyedBy flow_key) }
    ensures pairs { IfOk result (λ next. next ≡ with_pair (
      id_key body.now.id,
      put_row (flow_of body.now.id (values flows.now)) body.now now,
    ) flows.now) }
{
    let row = put_row(alloc, find_flow(flows, body.id), body, now)?;
    flow_placed(alloc, flows, row)
}

/// The flows with one at its place.
fn flow_placed(
    alloc: Global,
    flows: &Version<FlowRow>,
    row: FlowRow,
) -> Result<Version<FlowRow>, Memory>
    requires keyed { IsKeyedBy flow_key flows.now }
    ensures rows { IfOk result (λ next. values next ≡ placed flow_before row (values flows.now)) }
    ensures keyed { IfOk result (IsKeyedBy flow_key) }
    ensures pairs { IfOk result (λ next. next ≡ with_pair (id_key row.body.id, row) flows.now) }
{
    let id = row.body.id;
    with_row(alloc, flows, id, row)
}

/// The sources, with that of a flow that is put.
pub(crate) fn sources_after_put(
    alloc: Global,
    sources: &Version<SourceRow>,
    body: &FlowBody,
    now: u64,
) -> Result<Version<SourceRow>, Memory>
    requires keyed { IsKeyedBy source_key sources.now }
    ensures rows { IfOk result (λ next. values next ≡ sources_after_put
        (source_of body.now.source (values sources.now)) (values sources.now) body.now now) }
    ensures keyed { IfOk result (IsKeyedBy source_key) }
    ensures pairs { IfOk result (λ next. next ≡ source_put
        (source_of body.now.source (values sources.now)) (new_source body.now now) sources.now) }
{
    match find_source(sources, body.source) {
        None => source_placed(alloc, sources, new_source(alloc, body, now)),
        Some(_) => sources.share(),
    }
}

/// The sources with one at its place.
fn source_placed(
    alloc: Global,
    sources: &Version<SourceRow>,
    row: SourceRow,
) -> Result<Version<SourceRow>, Memory>
    requires keyed { IsKeyedBy source_key sources.now }
    ensures rows { IfOk result
        (λ next. values next ≡ placed source_before row (values sources.now)) }
    ensures keyed { IfOk result (IsKeyedBy source_key) }
    ensures pairs { IfOk result (λ next. next ≡ with_pair (id_key row.id, row) sources.now) }
{
    let id = row.id;
    with_row(alloc, sources, id, row)
}

/// The flows of each source, with a flow that is put. A kept one stays under its source.
pub(crate) fn by_source_after_put(
    alloc: Global,
    flows: &Version<FlowRow>,
    by_source: &IdIndex,
    body: &FlowBody,
) -> Result<IdIndex, Memory>
    requires keyed { IsKeyedBy flow_key flows.now }
    ensures { IfOk result (SourceLinked (flow_of body.now.id (values flows.now)) body.now
        by_source.now) }
{
    match find_flow(flows, body.id) {
        None => by_source.link(alloc, &[body.source], body.id),
        Some(_) => by_source.share(),
    }
}
