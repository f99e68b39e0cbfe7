//! Parts of flows and sources that are set, and flows whose segments changed.
ghost use Rattle.std.specs.Prelude.{◌≡◌, ℕ, IfOk, Some, option_copied};
ghost use Rattle.media_rows.specs.Catalog.{flow_of, part_refusals, set_refusals, set_row, set_source_row, source_of, source_refusals, touched, with_flow, with_source};
ghost use Rattle.media_rows.specs.Refusals.{first_refusal};
ghost use Rattle.media_rows.specs.Views.{flow_key, id_key, source_key};
ghost use Rattle.shared_tree.specs.Pairs.{value_at, values};
ghost use Rattle.shared_tree.specs.Rows.{IsKeyedBy};
ghost use Rattle.id_index.specs.Index.{changed_row};
ghost use Rattle.catalog_rows.specs.Answers.{Computes};
ghost use Rattle.flow_book.specs.Within.Order.{IsByCollected, collection_of};

use crate::collections::{collection_refusal, collectors_with};
use crate::looks::{find_flow, find_source};
use catalog_rows::{
    flow_part_unset, set_row, set_source_row, sets_mark, source_part_unset, touched,
};
use disk_trait::Memory;
use id_index::{IdIndex, with_row};
use media_rows::{FlowRow, MemberList, Part, Refusal, SourceRow};
use shared_tree::Version;
use std::alloc::Global;

/// The first refusal that stands of a part of a flow.
pub(crate) fn set_refusal(
    alloc: Global,
    flows: &Version<FlowRow>,
    collectors: &IdIndex,
    id: u128,
    part: &Part,
) -> Result<Option<Refusal>, Memory>
    requires keyed { IsKeyedBy flow_key flows.now }
    requires index { IsByCollected flows.now collectors.now }
    ensures { Computes result (first_refusal
        (set_refusals (flow_of id (values flows.now)) (values flows.now) id part.now)) }
{
    match find_flow(flows, id) {
        None => Ok(Some(Refusal::NoFlow)),
        Some(old) => kept_set_refusal(alloc, flows, collectors, old, id, part),
    }
}

fn kept_set_refusal(
    alloc: Global,
    flows: &Version<FlowRow>,
    collectors: &IdIndex,
    old: &FlowRow,
    id: u128,
    part: &Part,
) -> Result<Option<Refusal>, Memory>
    requires keyed { IsKeyedBy flow_key flows.now }
    requires index { IsByCollected flows.now collectors.now }
    ensures { Computes result
        (first_refusal (set_refusals (Some old.now) (values flows.now) id part.now)) }
{
    if old.body.read_only && !sets_mark(part) {
        return Ok(Some(Refusal::ReadOnly));
    }
    if let Some(unset) = flow_part_unset(alloc, &old.body, part)? {
        return Ok(Some(unset));
    }
    part_refusal(alloc, flows, collectors, id, part)
}

fn part_refusal(
    alloc: Global,
    flows: &Version<FlowRow>,
    collectors: &IdIndex,
    id: u128,
    part: &Part,
) -> Result<Option<Refusal>, Memory>
    requires keyed { IsKeyedBy flow_key flows.now }
    requires index { IsByCollected flows.now collectors.now }
    ensures { Computes result (first_refusal (part_refusals (values flows.now) id part.now)) }
{
    match part {
        Part::Collection(members) => {
            collection_refusal(alloc, flows, collectors, id, members.items())
        }
        _ => Ok(None),
    }
}

/// The flows with a part of one of them set or cleared.
pub(crate) fn flows_after_set(
    alloc: Global,
    flows: &Version<FlowRow>,
    id: u128,
    part: &Part,
    now: u64,
) -> Result<Version<FlowRow>, Memory>
    requires keyed { IsKeyedBy flow_key flows.now }
    ensures rows { IfOk result
        (λ next. values next ≡ with_flow id (set_row part.now now) (values flows.now)) }
    ensures keyed { IfOk result (IsKeyedBy flow_key) }
    ensures pairs { IfOk result (λ next. next ≡ changed_row (id_key id) (set_row part.now now)
        (value_at (id_key id) flows.now) flows.now) }
{
    flows.keys_rise();
    match find_flow(flows, id) {
        None => flows.share(),
        Some(row) => with_row(alloc, flows, id, set_row(alloc, row, part, now)?),
    }
}

/// The flows that collect each flow, once a part of a flow was set or cleared.
pub(crate) fn collectors_after_set(
    alloc: Global,
    flows: &Version<FlowRow>,
    collectors: &IdIndex,
    id: u128,
    part: &Part,
) -> Result<IdIndex, Memory>
    requires keyed { IsKeyedBy flow_key flows.now }
    requires index { IsByCollected flows.now collectors.now }
    ensures { IfOk result (λ next. (moment : ℕ) → IsByCollected (changed_row (id_key id)
        (set_row part.now moment) (value_at (id_key id) flows.now) flows.now) next) }
{
    flows.keys_rise();
    let Some(members) = collection_of(part) else {
        return collectors.share();
    };
    match find_flow(flows, id) {
        None => collectors.share(),
        Some(_) => collectors_with(alloc, flows, collectors, id, members.items()),
    }
}

/// The collection that a part sets.
fn collection_of(part: &Part) -> Option<&MemberList>
    ensures { option_copied result ≡ collection_of part.now }
{
    match part {
        Part::Collection(members) => Some(members),
        _ => None,
    }
}

/// The first refusal that stands of a part of a source.
pub(crate) fn source_refusal(
    alloc: Global,
    sources: &Version<SourceRow>,
    id: u128,
    part: &Part,
) -> Result<Option<Refusal>, Memory>
    requires keyed { IsKeyedBy source_key sources.now }
    ensures { Computes result
        (first_refusal (source_refusals (source_of id (values sources.now)) part.now)) }
{
    match find_source(sources, id) {
        None => Ok(Some(Refusal::NoSource)),
        Some(old) => source_part_unset(alloc, old, part),
    }
}

/// The sources with a part of one of them set or cleared.
pub(crate) fn sources_after_set(
    alloc: Global,
    sources: &Version<SourceRow>,
    id: u128,
    part: &Part,
    now: u64,
) -> Result<Version<SourceRow>, Memory>
    requires keyed { IsKeyedBy source_key sources.now }
    ensures rows { IfOk result
        (λ next. values next ≡ with_source id (set_source_row part.now now) (values sources.now)) }
    ensures keyed { IfOk result (IsKeyedBy source_key) }
    ensures pairs { IfOk result (λ next. next ≡ changed_row (id_key id) (set_source_row part.now now)
        (value_at (id_key id) sources.now) sources.now) }
{
    sources.keys_rise();
    match find_source(sources, id) {
        None => sources.share(),
        Some(row) => with_row(alloc, sources, id, set_source_row(alloc, row, part, now)?),
    }
}

/// The flows with one of them marked as having new segments, or fewer.
pub(crate) fn flows_after_touch(
    alloc: Global,
    flows: &Version<FlowRow>,
    id: u128,
    now: u64,
) -> Result<Version<FlowRow>, Memory>
    requires keyed { IsKeyedBy flow_key flows.now }
    ensures rows { IfOk result
        (λ next. values next ≡ with_flow id (touched now) (values flows.now)) }
    ensures keyed { IfOk result (IsKeyedBy flow_key) }
    ensures pairs { IfOk result (λ next. next ≡ changed_row (id_key id) (touched now)
        (value_at (id_key id) flows.now) flows.now) }
{
    flows.keys_rise();
    match find_flow(flows, id) {
        None => flows.share(),
        Some(row) => with_row(alloc, flows, id, touched(alloc, row, now)?),
    }
}
