//! Flows that none collects, left out one after the other until there is none.
ghost use Rattle.std.specs.Prelude.{◌≡◌, ◌≤◌, ◌+◌, ◌∷◌, ◌++◌, [], IfOk, List, length, map};
ghost use Rattle.media_rows.specs.declared.flow.FlowRow.{FlowRow};
ghost use Rattle.id_index.specs.Index.{has_pairs};
ghost use Rattle.flow_book.specs.Within.Order.{flow_id};
ghost use Rattle.flow_book.specs.Within.Peeling.{IsPeeled, weight};

use catalog_rows::member_ids;
use disk_trait::Memory;
use id_index::{IdIndex, row_at, without_row};
use media_rows::FlowRow;
use shared_tree::Version;
use std::alloc::Global;

/// Flows, and the index of who collects whom among them.
#[derive(Drop)]
pub(crate) struct FlowsLeft {
    pub(crate) flows: Version<FlowRow>,
    pub(crate) collectors: IdIndex,
}

/// The flows that are left once those that none of the others collects were left out, as long as
/// there are such. Each flow and each entry is looked at once.
pub(crate) fn all_peeled(
    alloc: Global,
    rows: &[FlowRow],
    flows: &Version<FlowRow>,
    collectors: &IdIndex,
) -> Result<FlowsLeft, Memory>
    requires { IsPeeled rows.now flows.now collectors.now (map flow_id rows.now) }
    ensures { IfOk result (λ left. IsPeeled rows.now left.flows left.collectors []) }
{
    let mut left = FlowsLeft {
        flows: flows.share()?,
        collectors: collectors.share()?,
    };
    let mut waiting = flow_ids(alloc, rows)?;
    while let Some(id) = waiting.pop() {
        left = peeled(alloc, left, id, &mut waiting)?;
    }
    Ok(left)
}

fn flow_ids(alloc: Global, rows: &[FlowRow]) -> Result<Vec<u128>, Memory>
    ensures { IfOk result (λ ids. ids.items ≡ map flow_id rows.now) }
{
    let mut ids = Vec::new(alloc);
    for row in rows {
        ids.push(row.body.id)?;
    }
    Ok(ids)
}

/// The flows without one, where it is among them and none collects it. Those that it collects wait.
fn peeled(
    alloc: Global,
    left: FlowsLeft,
    id: u128,
    waiting: &mut Vec<u128>,
) -> Result<FlowsLeft, Memory>
    ensures kept { IfOk result (λ next. (rows : List FlowRow)
        → IsPeeled rows left.flows left.collectors (waiting.old.items ++ id ∷ [])
        → IsPeeled rows next.flows next.collectors waiting.new.items) }
    ensures fewer { IfOk result (λ next. length waiting.new.items + weight next.flows
        ≤ length waiting.old.items + weight left.flows) }
{
    left.flows.keys_rise();
    if left.collectors.has_any(id) {
        return Ok(left);
    }
    let Some(row) = row_at(&left.flows, id) else {
        return Ok(left);
    };
    let collected = member_ids(alloc, row.body.members.items())?;
    waiting.extend_from_slice(&collected)?;
    Ok(FlowsLeft {
        flows: without_row(alloc, &left.flows, id)?,
        collectors: left.collectors.unlink(alloc, &collected, id)?,
    })
}

/// Whether a version has a flow.
pub(crate) fn has_flows(flows: &Version<FlowRow>) -> bool
    ensures { result ≡ has_pairs flows.now }
{
    flows.len() != 0
}
