//! What a request to a route asks for, by its method.
ghost use Rattle.std.specs.Prelude.{◌≡◌, IfOk, IsTrue};
ghost use Rattle.json_bodies.specs.Answers.{Answers};
ghost use Rattle.json_bodies.specs.Hook.{has_hook_texts};
ghost use Rattle.tams_http.specs.Good.{is_ask_good, is_command_good};
ghost use Rattle.tams_http.specs.Asked.{asked_by, delete_asked, hook_command, post_asked, put_asked, get_asked};

use crate::ask::{Ask, AskFault};
use crate::lists::{flows_asked, pairs_in, segments_asked, sources_asked};
use crate::named::{flow_at, object_at, request_at, source_at};
use crate::parts::{cleared_part, flow_part_name, set_part, source_part_name};
use http_queries::{QueryKind, read_cut_range};
use http_routes::{Route, path_of, query_of};
use http_wire::MethodKind;
use media_rows::{Command, Hook, Query, Refusal};
use std::alloc::Global;
use tams_json::{read_flow, read_hook, read_segments, read_storage};

/// GET and HEAD.
pub(crate) fn get_asked(
    alloc: Global,
    store: u128,
    route: Route,
    path: &[u8],
    query: &[u8],
) -> Result<Ask, AskFault>
    ensures answer { Answers (get_asked store route path.now query.now) result }
    ensures good { IfOk result (λ ask. IsTrue (is_ask_good ask)) }
{
    let query = match route {
        Route::Root => Query::Root,
        Route::Service => Query::Service,
        Route::Hooks => Query::Hooks,
        Route::Sources => return sources_asked(alloc, query),
        Route::Source => Query::Source(source_at(alloc, path)?),
        Route::SourcePart(part) => {
            let source = source_at(alloc, path)?;
            Query::SourcePart(source, source_part_name(alloc, part, path)?)
        }
        Route::Flows => return flows_asked(alloc, query),
        Route::Flow => Query::Flow(flow_at(alloc, path)?),
        Route::FlowPart(part) => {
            let flow = flow_at(alloc, path)?;
            Query::FlowPart(flow, flow_part_name(alloc, part, path)?)
        }
        Route::Segments => return segments_asked(alloc, path, query),
        Route::Storage => return Err(AskFault::Refused(Refusal::NoMethod)),
        Route::Object => Query::Object(object_at(alloc, path)?),
        Route::Requests => Query::Requests,
        Route::Request => Query::Request(request_at(alloc, store, path)?),
        Route::Media => return Ok(Ask::GetMedia(object_at(alloc, path)?)),
    };
    Ok(Ask::Run(Command::Ask(query)))
}

/// PUT.
pub(crate) fn put_asked(
    alloc: Global,
    route: Route,
    path: &[u8],
    body: &[u8],
) -> Result<Ask, AskFault>
    ensures answer { Answers (put_asked route path.now body.now) result }
    ensures good { IfOk result (λ ask. IsTrue (is_ask_good ask)) }
{
    match route {
        Route::SourcePart(part) => {
            let source = source_at(alloc, path)?;
            let name = source_part_name(alloc, part, path)?;
            Ok(Ask::Run(Command::SetSource(source, set_part(alloc, name, body)?)))
        }
        Route::Flow => {
            let flow = flow_at(alloc, path)?;
            Ok(Ask::Run(Command::PutFlow(read_flow(alloc, body, flow)?)))
        }
        Route::FlowPart(part) => {
            let flow = flow_at(alloc, path)?;
            let name = flow_part_name(alloc, part, path)?;
            Ok(Ask::Run(Command::SetFlow(flow, set_part(alloc, name, body)?)))
        }
        Route::Media => Ok(Ask::PutMedia(object_at(alloc, path)?)),
        _ => Err(AskFault::Refused(Refusal::NoMethod)),
    }
}

/// The registration of a hook, or the removal of that of its address where it names no event.
fn hook_command(hook: Hook) -> Command
    requires { IsTrue (has_hook_texts hook) }
    ensures command { result ≡ hook_command hook hook.events }
    ensures good { IsTrue (is_command_good result) }
{
    if hook.events.items().is_empty() {
        let Hook { url, .. } = hook;
        Command::DropHook(url)
    } else {
        Command::PutHook(hook)
    }
}

/// POST.
pub(crate) fn post_asked(
    alloc: Global,
    route: Route,
    path: &[u8],
    body: &[u8],
) -> Result<Ask, AskFault>
    ensures answer { Answers (post_asked route path.now body.now) result }
    ensures good { IfOk result (λ ask. IsTrue (is_ask_good ask)) }
{
    match route {
        Route::Hooks => Ok(Ask::Run(hook_command(read_hook(alloc, body)?))),
        Route::Segments => {
            let flow = flow_at(alloc, path)?;
            Ok(Ask::Run(Command::AddSegments(flow, read_segments(alloc, body)?)))
        }
        Route::Storage => {
            let flow = flow_at(alloc, path)?;
            Ok(Ask::Run(Command::Allocate(flow, read_storage(alloc, body)?)))
        }
        _ => Err(AskFault::Refused(Refusal::NoMethod)),
    }
}

/// DELETE.
pub(crate) fn delete_asked(
    alloc: Global,
    route: Route,
    path: &[u8],
    query: &[u8],
) -> Result<Ask, AskFault>
    ensures answer { Answers (delete_asked route path.now query.now) result }
    ensures good { IfOk result (λ ask. IsTrue (is_ask_good ask)) }
{
    match route {
        Route::SourcePart(part) => {
            let source = source_at(alloc, path)?;
            let name = source_part_name(alloc, part, path)?;
            Ok(Ask::Run(Command::SetSource(source, cleared_part(alloc, name)?)))
        }
        Route::Flow => Ok(Ask::Run(Command::DropFlow(flow_at(alloc, path)?))),
        Route::FlowPart(part) => {
            let flow = flow_at(alloc, path)?;
            let name = flow_part_name(alloc, part, path)?;
            Ok(Ask::Run(Command::SetFlow(flow, cleared_part(alloc, name)?)))
        }
        Route::Segments => {
            let flow = flow_at(alloc, path)?;
            let pairs = pairs_in(alloc, QueryKind::Cut, query)?;
            Ok(Ask::Run(Command::CutSegments(flow, read_cut_range(&pairs))))
        }
        _ => Err(AskFault::Refused(Refusal::NoMethod)),
    }
}

/// What a request to a route asks for.
pub(crate) fn asked_by(
    alloc: Global,
    store: u128,
    method: MethodKind,
    route: Route,
    target: &[u8],
    body: &[u8],
) -> Result<Ask, AskFault>
    ensures answer { Answers
        (asked_by store method route (record { target = target.now; body = body.now })) result }
    ensures good { IfOk result (λ ask. IsTrue (is_ask_good ask)) }
{
    let path = path_of(target);
    match method {
        MethodKind::Get | MethodKind::Head => get_asked(
            alloc,
            store,
            route,
            path,
            query_of(target),
        ),
        MethodKind::Post => post_asked(alloc, route, path, body),
        MethodKind::Put => put_asked(alloc, route, path, body),
        MethodKind::Delete => delete_asked(alloc, route, path, query_of(target)),
        MethodKind::Other => Err(AskFault::Refused(Refusal::NoMethod)),
    }
}
