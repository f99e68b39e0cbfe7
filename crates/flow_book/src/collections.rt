//! Flows that collect flows: which is missing, and which would reach itself.
ghost use Rattle.std.specs.Prelude.{◌≡◌, ◌==◌, ◌||◌, IfOk};
ghost use Rattle.media_rows.specs.Catalog.{collection_refusals};
ghost use Rattle.media_rows.specs.Collections.{first_missing, is_kept};
ghost use Rattle.media_rows.specs.Refusals.{first_refusal};
ghost use Rattle.media_rows.specs.Views.{flow_key, id_key};
ghost use Rattle.shared_tree.specs.Pairs.{values, with_pair, without_key};
ghost use Rattle.shared_tree.specs.Rows.{IsKeyedBy};
ghost use Rattle.catalog_rows.specs.Answers.{Computes};
ghost use Rattle.flow_book.specs.Within.Order.{IsByCollected};

use crate::circles::collects_itself;
use crate::looks::find_flow;
use catalog_rows::member_ids;
use disk_trait::Memory;
use id_index::IdIndex;
use media_rows::{FlowRow, Member, Refusal};
use shared_tree::Version;
use std::alloc::Global;

/// Why a flow may not collect these: one is missing, or the flow would reach itself.
pub(crate) fn collection_refusal(
    alloc: Global,
    flows: &Version<FlowRow>,
    collectors: &IdIndex,
    id: u128,
    members: &[Member],
) -> Result<Option<Refusal>, Memory>
    requires keyed { IsKeyedBy flow_key flows.now }
    requires index { IsByCollected flows.now collectors.now }
    ensures { Computes result
        (first_refusal (collection_refusals (values flows.now) id members.now)) }
{
    if members.len() == 0 {
        return Ok(None);
    }
    if let Some(missing) = first_missing(flows, id, members) {
        return Ok(Some(Refusal::CollectedMissing(missing)));
    }
    if collects_itself(alloc, flows, collectors, id, members)? {
        return Ok(Some(Refusal::CollectsItself));
    }
    Ok(None)
}

/// The first collected flow that is neither kept nor the flow itself.
fn first_missing(flows: &Version<FlowRow>, id: u128, members: &[Member]) -> Option<u128>
    requires keyed { IsKeyedBy flow_key flows.now }
    ensures { result ≡ first_missing (values flows.now) id members.now }
{
    for member in members {
        if !is_kept_or(flows, id, member.flow) {
            return Some(member.flow);
        }
    }
    None
}

fn is_kept_or(flows: &Version<FlowRow>, id: u128, to: u128) -> bool
    requires keyed { IsKeyedBy flow_key flows.now }
    ensures { result ≡ ((to == id) || is_kept (values flows.now) to) }
{
    to == id || is_kept(flows, to)
}

/// Whether a flow of this id is kept.
pub(crate) fn is_kept(flows: &Version<FlowRow>, id: u128) -> bool
    requires keyed { IsKeyedBy flow_key flows.now }
    ensures { result ≡ is_kept (values flows.now) id }
{
    match find_flow(flows, id) {
        Some(_) => true,
        None => false,
    }
}

/// The flows that collect each flow, once one of them has these entries.
pub(crate) fn collectors_with(
    alloc: Global,
    flows: &Version<FlowRow>,
    collectors: &IdIndex,
    id: u128,
    members: &[Member],
) -> Result<IdIndex, Memory>
    requires keyed { IsKeyedBy flow_key flows.now }
    requires index { IsByCollected flows.now collectors.now }
    ensures { IfOk result (λ next. (row : FlowRow) → row.body.id ≡ id
        → row.body.members ≡ members.now
        → IsByCollected (with_pair (id_key id, row) flows.now) next) }
{
    let ids = member_ids(alloc, members)?;
    let left = collectors_without(alloc, flows, collectors, id)?;
    left.link(alloc, &ids, id)
}

/// The flows that collect each flow, without one of them.
fn collectors_without(
    alloc: Global,
    flows: &Version<FlowRow>,
    collectors: &IdIndex,
    id: u128,
) -> Result<IdIndex, Memory>
    requires keyed { IsKeyedBy flow_key flows.now }
    requires index { IsByCollected flows.now collectors.now }
    ensures { IfOk result (IsByCollected (without_key (id_key id) flows.now)) }
{
    flows.keys_rise();
    match find_flow(flows, id) {
        None => collectors.share(),
        Some(old) => {
            let ids = member_ids(alloc, old.body.members.items())?;
            collectors.unlink(alloc, &ids, id)
        }
    }
}
