//! Lists that a query asks for.
ghost use Rattle.std.specs.Prelude.{IfOk, IsTrue};
ghost use Rattle.json_bodies.specs.Answers.{Answers};
ghost use Rattle.tams_http.specs.Good.{is_ask_good};
ghost use Rattle.tams_http.specs.Asked.{flows_asked, pairs_in, segments_asked, sources_asked};

use crate::ask::{Ask, AskFault};
use crate::named::flow_at;
use http_queries::{
    PairList, QueryKind, query_fault, read_flow_filter, read_list_page, read_pairs, read_range,
    read_segment_filter, read_segment_page, read_source_filter,
};
use media_rows::{Command, Query, Refusal};
use std::alloc::Global;

/// The pairs of a query, or the name of the first one at fault.
pub(crate) fn pairs_in(alloc: Global, kind: QueryKind, query: &[u8]) -> Result<PairList, AskFault>
    ensures { Answers (pairs_in kind query.now) result }
{
    let pairs = read_pairs(alloc, query)?;
    match query_fault(alloc, kind, &pairs)? {
        Some(name) => Err(AskFault::Refused(Refusal::BadQuery(name))),
        None => Ok(pairs),
    }
}

pub(crate) fn sources_asked(alloc: Global, query: &[u8]) -> Result<Ask, AskFault>
    ensures answer { Answers (sources_asked query.now) result }
    ensures good { IfOk result (λ ask. IsTrue (is_ask_good ask)) }
{
    let pairs = pairs_in(alloc, QueryKind::Sources, query)?;
    let filter = read_source_filter(alloc, &pairs)?;
    let page = read_list_page(&pairs);
    Ok(Ask::Run(Command::Ask(Query::Sources(filter, page))))
}

pub(crate) fn flows_asked(alloc: Global, query: &[u8]) -> Result<Ask, AskFault>
    ensures answer { Answers (flows_asked query.now) result }
    ensures good { IfOk result (λ ask. IsTrue (is_ask_good ask)) }
{
    let pairs = pairs_in(alloc, QueryKind::Flows, query)?;
    let filter = read_flow_filter(alloc, &pairs)?;
    let range = read_range(&pairs);
    let page = read_list_page(&pairs);
    Ok(Ask::Run(Command::Ask(Query::Flows(filter, range, page))))
}

pub(crate) fn segments_asked(alloc: Global, path: &[u8], query: &[u8]) -> Result<Ask, AskFault>
    ensures answer { Answers (segments_asked path.now query.now) result }
    ensures good { IfOk result (λ ask. IsTrue (is_ask_good ask)) }
{
    let flow = flow_at(alloc, path)?;
    let pairs = pairs_in(alloc, QueryKind::Segments, query)?;
    let filter = read_segment_filter(alloc, &pairs)?;
    let page = read_segment_page(&pairs);
    Ok(Ask::Run(Command::Ask(Query::Segments(flow, filter, page))))
}
