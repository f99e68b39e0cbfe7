//! The book and its public calls.
ghost use Rattle.std.specs.Prelude.{◌≡◌, [], IfOk, IsTrue, option_copied};
ghost use Rattle.media_rows.specs.Catalog.{Catalog, after_drop, after_put, after_set, after_set_source, after_touch, flow_before, flow_of, no_flow_refusal, put_refusal, set_refusal, set_source_refusal, source_before, source_of};
ghost use Rattle.media_rows.specs.Good.{is_catalog_in_order};
ghost use Rattle.media_rows.specs.Lists.{rises};
ghost use Rattle.media_rows.specs.Refusals.{IsChange, Restores};
ghost use Rattle.media_rows.specs.Restoring.{can_restore_catalog, catalog_of};
ghost use Rattle.flow_book.specs.Listing.{cut_count, flows_listed, sources_listed};

use crate::collections::collectors_with;
use crate::drops::{flows_after_drop, sources_after_drop};
use crate::lists::{flows_listed, sources_listed};
use crate::looks::{find_flow, find_source};
use crate::puts::{by_source_after_put, flows_after_put, put_refusal, sources_after_put};
use crate::restores::{are_good, flows_gathered, sources_gathered};
use crate::sets::{
    collectors_after_set, flows_after_set, flows_after_touch, set_refusal, source_refusal,
    sources_after_set,
};
use catalog_rows::member_ids;
use disk_trait::Memory;
use id_index::{IdIndex, all_rows};
use media_rows::{
    ApplyFault, BookFault, FlowBody, FlowFilter, FlowList, FlowRow, Part, Refusal, SourceFilter,
    SourceList, SourceRow,
};
use shared_tree::Version;
use std::alloc::Global;
use std::marker::Model;

/// Sources and flows, each by rising id. Contracts see the catalog of both. A change gives a new book
/// and leaves this one as it is; moments are seconds since 1970-01-01T00:00:00Z.
#[derive(Drop)]
pub struct FlowBook {
    sources: Version<SourceRow>,
    flows: Version<FlowRow>,
    /// The flows of each source.
    by_source: IdIndex,
    /// The flows that collect each flow.
    collectors: IdIndex,
}

impl Model for FlowBook {
    ghost use Rattle.media_rows.specs.Catalog.{Catalog};
    ghost use Rattle.shared_tree.specs.Pairs.{values};
    ghost use Rattle.flow_book.specs.Within.Order.{IsKeptInOrder};

    ghost Value = { Catalog };

    ghost view = { λ b. record { sources = values b.sources; flows = values b.flows } };

    ghost invariant = { λ b. IsKeptInOrder b.sources b.flows b.by_source b.collectors };
}

impl FlowBook {
    /// A book without sources and flows. It takes no memory.
    pub fn empty() -> FlowBook
        ensures sources { result.sources ≡ [] }
        ensures flows { result.flows ≡ [] }
    {
        FlowBook {
            sources: Version::empty(),
            flows: Version::empty(),
            by_source: IdIndex::empty(),
            collectors: IdIndex::empty(),
        }
    }

    /// The book of these rows, which may come in any order. It is refused exactly where an id stands
    /// twice, a flow has no source or not its format, a source has no flow, a collected flow is missing
    /// or a flow reaches itself.
    pub fn from_rows(
        alloc: Global,
        sources: &SourceList,
        flows: &FlowList,
    ) -> Result<FlowBook, ApplyFault>
        ensures { Restores (can_restore_catalog sources.now flows.now)
            (catalog_of sources.now flows.now) result }
    {
        let (sources, flows) = (sources.items(), flows.items());
        let Some(kept_sources) = sources_gathered(alloc, sources)? else {
            return Err(ApplyFault::Refused);
        };
        let Some(kept) = flows_gathered(alloc, flows)? else {
            return Err(ApplyFault::Refused);
        };
        if !are_good(alloc, sources, &kept_sources, flows, &kept)? {
            return Err(ApplyFault::Refused);
        }
        Ok(FlowBook {
            sources: kept_sources,
            flows: kept.flows,
            by_source: kept.by_source,
            collectors: kept.collectors,
        })
    }

    /// Puts a flow, and makes its source where that is new. It is refused as `ReadOnly`, `FlowChanged`,
    /// `SourceFormat`, `CollectedMissing` or `CollectsItself`.
    pub fn put_flow(&self, alloc: Global, body: &FlowBody, now: u64) -> Result<FlowBook, BookFault>
        ensures { IsChange (put_refusal self.now body.now)
            (after_put body.now now self.now) result }
    {
        let refusal = put_refusal(alloc, &self.sources, &self.flows, &self.collectors, body)?;
        if let Some(why) = refusal {
            return Err(BookFault::Refused(why));
        }
        self.flows.keys_rise();
        let members = body.members.items();
        Ok(FlowBook {
            sources: sources_after_put(alloc, &self.sources, body, now)?,
            flows: flows_after_put(alloc, &self.flows, body, now)?,
            by_source: by_source_after_put(alloc, &self.flows, &self.by_source, body)?,
            collectors: collectors_with(alloc, &self.flows, &self.collectors, body.id, members)?,
        })
    }

    /// Sets or clears a part of a flow. It is refused as `NoFlow`, `ReadOnly`, `NotSet`,
    /// `CollectedMissing` or `CollectsItself`.
    pub fn set_flow(
        &self,
        alloc: Global,
        flow: u128,
        part: &Part,
        now: u64,
    ) -> Result<FlowBook, BookFault>
        ensures { IsChange (set_refusal self.now flow part.now)
            (after_set flow part.now now self.now) result }
    {
        if let Some(why) = set_refusal(alloc, &self.flows, &self.collectors, flow, part)? {
            return Err(BookFault::Refused(why));
        }
        self.flows.keys_rise();
        Ok(FlowBook {
            sources: self.sources.share()?,
            flows: flows_after_set(alloc, &self.flows, flow, part, now)?,
            by_source: self.by_source.share()?,
            collectors: collectors_after_set(alloc, &self.flows, &self.collectors, flow, part)?,
        })
    }

    /// Sets or clears a part of a source: a tag, its label or its description. It is refused as
    /// `NoSource`, or as `NotSet` where the part isn't set or no source may have it.
    pub fn set_source(
        &self,
        alloc: Global,
        source: u128,
        part: &Part,
        now: u64,
    ) -> Result<FlowBook, BookFault>
        ensures { IsChange (set_source_refusal self.now source part.now)
            (after_set_source source part.now now self.now) result }
    {
        if let Some(why) = source_refusal(alloc, &self.sources, source, part)? {
            return Err(BookFault::Refused(why));
        }
        Ok(FlowBook {
            sources: sources_after_set(alloc, &self.sources, source, part, now)?,
            flows: self.flows.share()?,
            by_source: self.by_source.share()?,
            collectors: self.collectors.share()?,
        })
    }

    /// Notes that segments came to a flow or went from it. It is refused as `NoFlow`.
    pub fn touch_segments(&self, alloc: Global, flow: u128, now: u64) -> Result<FlowBook, BookFault>
        ensures { IsChange (no_flow_refusal self.now flow) (after_touch flow now self.now) result }
    {
        if self.flow(flow).is_none() {
            return Err(BookFault::Refused(Refusal::NoFlow));
        }
        self.flows.keys_rise();
        Ok(FlowBook {
            sources: self.sources.share()?,
            flows: flows_after_touch(alloc, &self.flows, flow, now)?,
            by_source: self.by_source.share()?,
            collectors: self.collectors.share()?,
        })
    }

    /// Drops a flow, be it read-only or not, with its entries in all collections, and its source where
    /// that has no other flow. It is refused as `NoFlow`.
    pub fn drop_flow(&self, alloc: Global, flow: u128) -> Result<FlowBook, BookFault>
        ensures { IsChange (no_flow_refusal self.now flow) (after_drop flow self.now) result }
    {
        let Some(row) = find_flow(&self.flows, flow) else {
            return Err(BookFault::Refused(Refusal::NoFlow));
        };
        self.flows.keys_rise();
        self.sources.keys_rise();
        let collected = member_ids(alloc, row.body.members.items())?;
        let by_source = self.by_source.unlink(alloc, &[row.body.source], flow)?;
        let collectors = self.collectors.unlink(alloc, &collected, flow)?;
        Ok(FlowBook {
            sources: sources_after_drop(alloc, &self.sources, &by_source, row.body.source)?,
            flows: flows_after_drop(alloc, &self.flows, &collectors, flow)?,
            by_source,
            collectors: collectors.forget(alloc, flow)?,
        })
    }

    /// The flow of this id, if it is kept.
    pub fn flow(&self, flow: u128) -> Option<&FlowRow>
        ensures { option_copied result ≡ flow_of flow self.now.flows }
    {
        find_flow(&self.flows, flow)
    }

    /// The source of this id, if it is kept.
    pub fn source(&self, source: u128) -> Option<&SourceRow>
        ensures { option_copied result ≡ source_of source self.now.sources }
    {
        find_source(&self.sources, source)
    }

    /// The flows that pass and whose ids lie behind `after`, where one is given.
    pub fn list_flows(
        &self,
        alloc: Global,
        wanted: &FlowFilter,
        after: Option<u128>,
    ) -> Result<FlowList, Memory>
        ensures exact { IfOk result (λ list. list ≡ flows_listed wanted.now after self.now.flows) }
        ensures rising { IfOk result (λ list. IsTrue (rises flow_before list)) }
    {
        self.flows.keys_rise();
        let rows = all_rows(alloc, &self.flows)?;
        flows_listed(alloc, &rows, wanted, after)
    }

    /// The sources that pass and whose ids lie behind `after`, where one is given.
    pub fn list_sources(
        &self,
        alloc: Global,
        wanted: &SourceFilter,
        after: Option<u128>,
    ) -> Result<SourceList, Memory>
        ensures exact { IfOk result
            (λ list. list ≡ sources_listed wanted.now after self.now.sources) }
        ensures rising { IfOk result (λ list. IsTrue (rises source_before list)) }
    {
        self.sources.keys_rise();
        let rows = all_rows(alloc, &self.sources)?;
        sources_listed(alloc, &rows, wanted, after)
    }

    /// A law: sources and flows stand by rising id, and so each id once.
    pub fn is_in_order(&self)
        ensures { IsTrue (is_catalog_in_order self.now) }
    {
        self.sources.keys_rise();
        self.flows.keys_rise();
    }

    /// The number of flows, cut at the last value of its type.
    pub fn flow_count(&self) -> u64
        ensures { result ≡ cut_count self.now.flows }
    {
        self.flows.len()
    }
}
