//! Words for methods, for what is asked for, and for what a refusal names.
use http_wire::MethodKind;
use media_rows::{Command, Query, Refusal};
use std::str;
use tams_http::Ask;

/// The method of a word (RFC 9110, section 9.3).
pub(crate) fn method_of(word: &str) -> MethodKind {
    match word {
        "GET" => MethodKind::Get,
        "HEAD" => MethodKind::Head,
        "POST" => MethodKind::Post,
        "PUT" => MethodKind::Put,
        "DELETE" => MethodKind::Delete,
        _ => MethodKind::Other,
    }
}

/// The name of what is asked for.
pub(crate) fn ask_name(ask: &Ask) -> &'static str {
    match ask {
        Ask::Run(command) => command_name(command),
        Ask::PutMedia(_) => "PutMedia",
        Ask::GetMedia(_) => "GetMedia",
    }
}

fn command_name(command: &Command) -> &'static str {
    match command {
        Command::PutFlow(_) => "PutFlow",
        Command::SetFlow(..) => "SetFlow",
        Command::SetSource(..) => "SetSource",
        Command::DropFlow(_) => "DropFlow",
        Command::Allocate(..) => "Allocate",
        Command::Keep { .. } => "Keep",
        Command::AddSegments(..) => "AddSegments",
        Command::CutSegments(..) => "CutSegments",
        Command::PutHook(_) => "PutHook",
        Command::DropHook(_) => "DropHook",
        Command::Ask(query) => query_name(query),
    }
}

fn query_name(query: &Query) -> &'static str {
    match query {
        Query::Root => "Root",
        Query::Service => "Service",
        Query::Hooks => "Hooks",
        Query::Sources(..) => "Sources",
        Query::Source(_) => "Source",
        Query::SourcePart(..) => "SourcePart",
        Query::Flows(..) => "Flows",
        Query::Flow(_) => "Flow",
        Query::FlowPart(..) => "FlowPart",
        Query::Segments(..) => "Segments",
        Query::Object(_) => "Object",
        Query::Requests => "Requests",
        Query::Request(_) => "Request",
    }
}

/// What a refusal of a request names: a member, a query's name or a part.
pub(crate) fn detail_of(refusal: &Refusal) -> &str {
    match refusal {
        Refusal::Missing(name)
        | Refusal::WrongKind(name)
        | Refusal::TooLong(name)
        | Refusal::OutOfRange(name)
        | Refusal::BadTimerange(name)
        | Refusal::BadQuery(name)
        | Refusal::NotSet(name) => str::from_utf8(name.bytes()).unwrap_or("no text"),
        _ => "-",
    }
}
