//! Lists of the flows and sources that pass a filter.
ghost use Rattle.std.specs.Prelude.{◌≡◌};
ghost use Rattle.shared_tree.specs.Pairs.{values_of};
ghost use Rattle.media_rows.specs.Lists.{is_behind};
ghost use Rattle.flow_book.specs.Listing.{flows_listed, is_flow_listed, is_source_listed, sources_listed};
ghost use Rattle.catalog_rows.specs.Answers.{Computes};

use catalog_rows::{passes_flow, passes_source};
use disk_trait::{Duplicate, Memory};
use media_rows::{FlowFilter, FlowList, FlowRow, SourceFilter, SourceList, SourceRow};
use std::alloc::Global;

/// The flows that pass and lie behind an id.
pub(crate) fn flows_listed(
    alloc: Global,
    flows: &[&FlowRow],
    wanted: &FlowFilter,
    after: Option<u128>,
) -> Result<FlowList, Memory>
    ensures { Computes result (flows_listed wanted.now after (values_of flows.now)) }
{
    let mut list = FlowList::new(alloc);
    for row in flows {
        if is_flow_listed(wanted, after, row) {
            list.push(row.duplicate(alloc)?)?;
        }
    }
    Ok(list)
}

/// The sources that pass and lie behind an id.
pub(crate) fn sources_listed(
    alloc: Global,
    sources: &[&SourceRow],
    wanted: &SourceFilter,
    after: Option<u128>,
) -> Result<SourceList, Memory>
    ensures { Computes result (sources_listed wanted.now after (values_of sources.now)) }
{
    let mut list = SourceList::new(alloc);
    for row in sources {
        if is_source_listed(wanted, after, row) {
            list.push(row.duplicate(alloc)?)?;
        }
    }
    Ok(list)
}

#[tactic(auto, unfolding(crate::specs::Listing::is_flow_listed))]
fn is_flow_listed(wanted: &FlowFilter, after: Option<u128>, row: &FlowRow) -> bool
    ensures { result ≡ is_flow_listed wanted.now after row.now }
{
    is_behind(after, row.body.id) && passes_flow(wanted, row)
}

#[tactic(auto, unfolding(crate::specs::Listing::is_source_listed))]
fn is_source_listed(wanted: &SourceFilter, after: Option<u128>, row: &SourceRow) -> bool
    ensures { result ≡ is_source_listed wanted.now after row.now }
{
    is_behind(after, row.id) && passes_source(wanted, row)
}

fn is_behind(after: Option<u128>, id: u128) -> bool
    ensures { result ≡ is_behind after id }
{
    match after {
        None => true,
        Some(last) => last < id,
    }
}
