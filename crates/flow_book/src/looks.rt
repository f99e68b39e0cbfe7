//! Flows and sources of versions by their ids.
ghost use Rattle.std.specs.Prelude.{◌≡◌, IfOk, filter_map, option_copied};
ghost use Rattle.media_rows.specs.Catalog.{flow_of, source_of};
ghost use Rattle.media_rows.specs.Views.{flow_key, source_key};
ghost use Rattle.shared_tree.specs.Pairs.{values, values_of};
ghost use Rattle.shared_tree.specs.Rows.{IsKeyedBy};

use disk_trait::Memory;
use id_index::row_at;
use media_rows::{FlowRow, SourceRow};
use shared_tree::Version;
use std::alloc::Global;

/// The source of this id, if it is kept.
pub(crate) fn find_source(sources: &Version<SourceRow>, id: u128) -> Option<&SourceRow>
    requires keyed { IsKeyedBy source_key sources.now }
    ensures { option_copied result ≡ source_of id (values sources.now) }
{
    row_at(sources, id)
}

/// The flow of this id, if it is kept.
pub(crate) fn find_flow(flows: &Version<FlowRow>, id: u128) -> Option<&FlowRow>
    requires keyed { IsKeyedBy flow_key flows.now }
    ensures { option_copied result ≡ flow_of id (values flows.now) }
{
    row_at(flows, id)
}

/// The flows of these ids, in their order, of those that are kept.
pub(crate) fn flows_at<'a>(
    alloc: Global,
    flows: &'a Version<FlowRow>,
    ids: &[&u128],
) -> Result<Vec<&'a FlowRow>, Memory>
    requires keyed { IsKeyedBy flow_key flows.now }
    ensures { IfOk result (λ list. values_of list.items
        ≡ filter_map (λ id. flow_of id (values flows.now)) (values_of ids.now)) }
{
    let mut list = Vec::new(alloc);
    for id in ids {
        if let Some(row) = find_flow(flows, **id) {
            list.push(row)?;
        }
    }
    Ok(list)
}
