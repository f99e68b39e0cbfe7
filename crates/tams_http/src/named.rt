//! The ids and names in a path, or the refusal where one names nothing.
ghost use Rattle.std.specs.Prelude.{◌≡◌, IfOk, IsTrue};
ghost use Rattle.std.specs.Str.{is_utf8};
ghost use Rattle.media_rows.specs.Ids.{is_object_id};
ghost use Rattle.json_bodies.specs.Answers.{Answers};
ghost use Rattle.tams_http.specs.Named.{flow_at, named_or, object_at, request_at, source_at, tag_at};

use crate::ask::AskFault;
use disk_trait::Text;
use http_routes::{read_named_id, read_named_object, read_named_request, read_named_tag};
use media_rows::Refusal;
use std::alloc::Global;

/// What was found, or the refusal.
fn named_or<T: Drop>(found: Option<T>, refusal: Refusal) -> Result<T, AskFault>
    ensures { Answers (named_or refusal found) result }
{
    match found {
        Some(value) => Ok(value),
        None => Err(AskFault::Refused(refusal)),
    }
}

pub(crate) fn source_at(alloc: Global, path: &[u8]) -> Result<u128, AskFault>
    ensures { Answers (source_at path.now) result }
{
    named_or(read_named_id(alloc, path)?, Refusal::NoSource)
}

pub(crate) fn flow_at(alloc: Global, path: &[u8]) -> Result<u128, AskFault>
    ensures { Answers (flow_at path.now) result }
{
    named_or(read_named_id(alloc, path)?, Refusal::NoFlow)
}

pub(crate) fn object_at(alloc: Global, path: &[u8]) -> Result<Text, AskFault>
    ensures answer { Answers (object_at path.now) result }
    ensures good { IfOk result (λ object. IsTrue (is_object_id object)) }
{
    match read_named_object(alloc, path)? {
        Some(object) => Ok(object),
        None => Err(AskFault::Refused(Refusal::UnknownObject)),
    }
}

pub(crate) fn request_at(alloc: Global, store: u128, path: &[u8]) -> Result<u64, AskFault>
    ensures { Answers (request_at store path.now) result }
{
    named_or(read_named_request(alloc, store, path)?, Refusal::NoRequest)
}

pub(crate) fn tag_at(alloc: Global, path: &[u8]) -> Result<Text, AskFault>
    ensures answer { Answers (tag_at path.now) result }
    ensures good { IfOk result (λ name. IsTrue (is_utf8 name)) }
{
    match read_named_tag(alloc, path)? {
        Some(name) => Ok(name),
        None => Err(AskFault::Refused(Refusal::NotSet(Text::from_bytes(alloc, b"tags")?))),
    }
}
