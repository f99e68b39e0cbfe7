//! The answer to each question.
ghost use Rattle.media_rows.specs.Views.{asked};
ghost use Rattle.core_queries.specs.Replies.{IsReply};
ghost use Rattle.core_views.specs.Shown.{IsShown};

use crate::flows::{flow_view, flows_view};
use crate::media::{object_view, segments_view};
use core_parts::Parts;
use core_views::{
    flow_part_view, hooks_view, request_view, requests_view, source_part_view, source_view,
    sources_view,
};
use media_rows::{BookFault, Query, Reply, View};
use std::alloc::Global;

/// Answers a question: by what it shows of the library, or by its refusal.
pub fn query(alloc: Global, parts: &Parts, question: &Query) -> Result<Reply, BookFault>
    ensures { IsReply (asked parts.now.library question.now) result }
{
    Ok(Reply::Shown(view_of(alloc, parts, question)?))
}

/// What it shows.
fn view_of(alloc: Global, parts: &Parts, question: &Query) -> Result<View, BookFault>
    ensures { IsShown (asked parts.now.library question.now) result }
{
    let registry = parts.registry();
    let catalog = registry.catalog();
    match question {
        Query::Root => Ok(View::Root),
        Query::Service => Ok(View::Service),
        Query::Hooks => Ok(hooks_view(alloc, registry.outbox())?),
        Query::Sources(wanted, page) => Ok(sources_view(alloc, catalog, wanted, page)?),
        Query::Source(id) => source_view(alloc, catalog, *id),
        Query::SourcePart(id, name) => source_part_view(alloc, catalog, *id, name),
        Query::Flows(wanted, range, page) => Ok(flows_view(alloc, parts, wanted, range, page)?),
        Query::Flow(id) => flow_view(alloc, parts, *id),
        Query::FlowPart(id, name) => flow_part_view(alloc, catalog, *id, name),
        Query::Segments(flow, wanted, page) => segments_view(alloc, parts, *flow, wanted, page),
        Query::Object(id) => object_view(alloc, parts, id),
        Query::Requests => Ok(requests_view(alloc, registry.requests())?),
        Query::Request(serial) => request_view(registry.requests(), *serial),
    }
}
