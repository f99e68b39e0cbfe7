//! Rows from which a book is made: whether they are good.
ghost use Rattle.std.specs.Prelude.{◌≡◌, ◌∷◌, IfOk, List, Some};
ghost use Rattle.std.specs.List.{list_all};
ghost use Rattle.media_rows.specs.declared.flow.FlowRow.{FlowRow};
ghost use Rattle.media_rows.specs.Catalog.{source_of};
ghost use Rattle.media_rows.specs.Collections.{is_kept, member_ids};
ghost use Rattle.media_rows.specs.Good.{fits_kept};
ghost use Rattle.media_rows.specs.Restoring.{can_restore_catalog};
ghost use Rattle.media_rows.specs.Views.{flow_key, source_key};
ghost use Rattle.shared_tree.specs.Pairs.{values};
ghost use Rattle.shared_tree.specs.Rows.{IsKeyedBy};
ghost use Rattle.id_index.specs.Index.{has_pairs, ids_at};
ghost use Rattle.catalog_rows.specs.Answers.{Computes};
ghost use Rattle.flow_book.specs.Within.Gathering.{GathersFlows, GathersSources, are_placed, is_acyclic};
ghost use Rattle.flow_book.specs.Within.Order.{AreGathered};

use crate::collections::is_kept;
use crate::looks::find_source;
use crate::peeling::{all_peeled, has_flows};
use catalog_rows::{fits_kept, member_ids};
use disk_trait::{Duplicate, Memory};
use id_index::{IdIndex, row_at, with_row};
use library_laws::circles_are_found;
use media_rows::{FlowRow, Member, SourceRow};
use shared_tree::Version;
use std::alloc::Global;

/// Whether each flow has its source and each source a flow, and collections are good, of rows with distinct
/// ids and what was gathered from them.
pub(crate) fn are_good(
    alloc: Global,
    sources: &[SourceRow],
    kept_sources: &Version<SourceRow>,
    flows: &[FlowRow],
    kept: &Gathered,
) -> Result<bool, Memory>
    requires sources { GathersSources sources.now (Some kept_sources.now) }
    requires flows { GathersFlows flows.now (Some kept.now) }
    ensures { Computes result (can_restore_catalog sources.now flows.now) }
{
    if !are_placed(sources, kept_sources, flows, kept) {
        return Ok(false);
    }
    are_acyclic(alloc, flows, kept)
}

/// Whether each flow has its source and each source a flow, and each collected flow is there.
fn are_placed(
    sources: &[SourceRow],
    kept_sources: &Version<SourceRow>,
    flows: &[FlowRow],
    kept: &Gathered,
) -> bool
    requires sources { IsKeyedBy source_key kept_sources.now }
    requires flows { IsKeyedBy flow_key kept.now.flows }
    ensures { result ≡ are_placed sources.now kept_sources.now flows.now kept.now.flows
        kept.now.by_source }
{
    are_flows_under_sources(kept_sources, flows)
        && are_used(&kept.by_source, sources)
        && are_all_kept(&kept.flows, flows)
}

fn are_flows_under_sources(sources: &Version<SourceRow>, flows: &[FlowRow]) -> bool
    requires keyed { IsKeyedBy source_key sources.now }
    ensures { result
        ≡ list_all (λ row. fits_kept (source_of row.body.source (values sources.now)) row)
        flows.now }
{
    for row in flows {
        if !fits_kept(find_source(sources, row.body.source), row) {
            return false;
        }
    }
    true
}

/// Whether each source has a flow by the index.
fn are_used(by_source: &IdIndex, sources: &[SourceRow]) -> bool
    ensures { result
        ≡ list_all (λ source. has_pairs (ids_at source.id by_source.now)) sources.now }
{
    sources.iter().all(|source| by_source.has_any(source.id))
}

fn are_all_kept(flows: &Version<FlowRow>, rows: &[FlowRow]) -> bool
    requires keyed { IsKeyedBy flow_key flows.now }
    ensures { result ≡ list_all
        (λ row. list_all (is_kept (values flows.now)) (member_ids row.body.members))
        rows.now }
{
    for row in rows {
        if !are_kept(flows, row.body.members.items()) {
            return false;
        }
    }
    true
}

fn are_kept(flows: &Version<FlowRow>, members: &[Member]) -> bool
    requires keyed { IsKeyedBy flow_key flows.now }
    ensures { result ≡ list_all (is_kept (values flows.now)) (member_ids members.now) }
{
    for member in members {
        if !is_kept(flows, member.flow) {
            return false;
        }
    }
    true
}

/// Whether no flow reaches itself: none is left once those that no other collects were left out.
fn are_acyclic(alloc: Global, rows: &[FlowRow], kept: &Gathered) -> Result<bool, Memory>
    requires { GathersFlows rows.now (Some kept.now) }
    ensures { Computes result (list_all (is_acyclic rows.now) rows.now) }
{
    circles_are_found();
    let left = all_peeled(alloc, rows, &kept.flows, &kept.collectors)?;
    Ok(!has_flows(&left.flows))
}

/// Copies of flows at the keys of their ids, with their indexes.
#[derive(Drop)]
pub(crate) struct Gathered {
    pub(crate) flows: Version<FlowRow>,
    pub(crate) by_source: IdIndex,
    pub(crate) collectors: IdIndex,
}

/// Copies of flows with their indexes, or nothing where an id stands twice. The last one is put first.
pub(crate) fn flows_gathered(alloc: Global, rows: &[FlowRow]) -> Result<Option<Gathered>, Memory>
    ensures { IfOk result (GathersFlows rows.now) }
{
    let mut next = Gathered {
        flows: Version::empty(),
        by_source: IdIndex::empty(),
        collectors: IdIndex::empty(),
    };
    for placed in 0..rows.len() {
        match gathered_with(alloc, &next, &rows[rows.len() - 1 - placed])? {
            None => return Ok(None),
            Some(more) => next = more,
        }
    }
    Ok(Some(next))
}

/// One more flow, or nothing where its id is there already.
fn gathered_with(alloc: Global, old: &Gathered, row: &FlowRow) -> Result<Option<Gathered>, Memory>
    ensures { IfOk result (λ next. (rows : List FlowRow)
        → AreGathered rows old.now.flows old.now.by_source old.now.collectors
        → GathersFlows (row.now ∷ rows) next) }
{
    old.flows.keys_rise();
    let id = row.body.id;
    if row_at(&old.flows, id).is_some() {
        return Ok(None);
    }
    let collected = member_ids(alloc, row.body.members.items())?;
    Ok(Some(Gathered {
        flows: with_row(alloc, &old.flows, id, row.duplicate(alloc)?)?,
        by_source: old.by_source.link(alloc, &[row.body.source], id)?,
        collectors: old.collectors.link(alloc, &collected, id)?,
    }))
}

/// Copies of sources at the keys of their ids, or nothing where an id stands twice. The last one is put first.
pub(crate) fn sources_gathered(
    alloc: Global,
    rows: &[SourceRow],
) -> Result<Option<Version<SourceRow>>, Memory>
    ensures { IfOk result (GathersSources rows.now) }
{
    let mut next = Version::empty();
    for placed in 0..rows.len() {
        let row = &rows[rows.len() - 1 - placed];
        if row_at(&next, row.id).is_some() {
            return Ok(None);
        }
        next = with_row(alloc, &next, row.id, row.duplicate(alloc)?)?;
    }
    Ok(Some(next))
}
