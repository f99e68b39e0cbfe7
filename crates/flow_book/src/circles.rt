//! Ways back from a flow to those that collect it, by the index of who collects whom.
ghost use Rattle.std.specs.Prelude.{◌≡◌, ◌↔◌, ℕ, true, IfOk};
ghost use Rattle.std.specs.List.{list_any};
ghost use Rattle.media_rows.specs.Collections.{Reaches, collects_itself};
ghost use Rattle.media_rows.specs.Views.{flow_key};
ghost use Rattle.shared_tree.specs.Pairs.{values, values_of};
ghost use Rattle.shared_tree.specs.Rows.{IsKeyedBy};
ghost use Rattle.catalog_rows.specs.Answers.{Computes};
ghost use Rattle.flow_book.specs.Within.Order.{IsByCollected};
ghost use Rattle.flow_book.specs.Within.Ways.{leads, moved_to_waiting};

use disk_trait::Memory;
use id_index::{IdIndex, row_at, without_row};
use library_laws::circles_are_found;
use media_rows::{FlowRow, Member};
use shared_tree::Version;
use std::alloc::Global;

/// Whether a flow with these entries reaches itself. Only flows from which a way leads to it are
/// looked at, so none where no flow collects it.
pub(crate) fn collects_itself(
    alloc: Global,
    flows: &Version<FlowRow>,
    collectors: &IdIndex,
    id: u128,
    members: &[Member],
) -> Result<bool, Memory>
    requires keyed { IsKeyedBy flow_key flows.now }
    requires index { IsByCollected flows.now collectors.now }
    ensures { Computes result (collects_itself (values flows.now) id members.now) }
{
    circles_are_found();
    let apart = apart_from(alloc, flows, collectors, id)?;
    Ok(any_leads(flows, &apart, id, members))
}

/// The kept flows but this one and those from which a way leads to it.
fn apart_from(
    alloc: Global,
    flows: &Version<FlowRow>,
    collectors: &IdIndex,
    id: u128,
) -> Result<Version<FlowRow>, Memory>
    requires keyed { IsKeyedBy flow_key flows.now }
    requires index { IsByCollected flows.now collectors.now }
    ensures { IfOk result (λ apart. (from : ℕ) → (leads flows.now apart id from ≡ true)
        ↔ Reaches (values flows.now) id from) }
{
    let mut apart = without_row(alloc, flows, id)?;
    let mut waiting = Vec::new(alloc);
    waiting.push(id)?;
    while let Some(next) = waiting.pop() {
        apart.keys_rise();
        let ids = collectors.ids(alloc, next)?;
        apart = swept(alloc, &apart, &ids, &mut waiting)?;
    }
    Ok(apart)
}

/// The flows without these. Those that were among them wait.
fn swept(
    alloc: Global,
    apart: &Version<FlowRow>,
    ids: &[&u128],
    waiting: &mut Vec<u128>,
) -> Result<Version<FlowRow>, Memory>
    ensures { IfOk result (λ left. (left, waiting.new.items)
        ≡ moved_to_waiting (values_of ids.now) apart.now waiting.old.items) }
{
    let mut left = apart.share()?;
    for id in ids {
        if row_at(&left, **id).is_some() {
            left = without_row(alloc, &left, **id)?;
            waiting.push(**id)?;
        }
    }
    Ok(left)
}

/// Whether a way leads from one of these entries to a flow.
fn any_leads(
    flows: &Version<FlowRow>,
    apart: &Version<FlowRow>,
    to: u128,
    members: &[Member],
) -> bool
    ensures { result ≡ list_any (λ m. leads flows.now apart.now to m.flow) members.now }
{
    members
        .iter()
        .any(|member| leads(flows, apart, to, member.flow))
}

/// Whether a flow is this one, or kept and not apart from it.
fn leads(flows: &Version<FlowRow>, apart: &Version<FlowRow>, to: u128, from: u128) -> bool
    ensures { result ≡ leads flows.now apart.now to from }
{
    from == to || (row_at(flows, from).is_some() && row_at(apart, from).is_none())
}
