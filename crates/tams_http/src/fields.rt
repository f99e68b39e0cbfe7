//! The fields of a response, each with its value where it has one.
ghost use Rattle.std.specs.Prelude.{◌≡◌, ◌≤◌, ◌++◌, IfOk, IsSome, OnOk, decimal, option_map};
ghost use Rattle.std.specs.Fmt.{signed_decimal};
ghost use Rattle.http.specs.StatusCode.{reason_phrase};
ghost use Rattle.tams_http.specs.Answered as spec;
ghost use Rattle.tams_http.specs.Answered.{field_if, id_key_text, next_key_of, reply_status};

use disk_trait::{Listed, Memory, Text};
use http_queries::{id_of_key, next_query, read_pairs};
use http_routes::{RouteTable, path_of, query_of};
use http_wire::{FieldList, HeadField};
use itoa::Buffer;
use media_rows::{Refusal, Reply, View, print_id};
use std::alloc::Global;
use tams_json::request_id;

/// The number of the refusal for a method that the route hasn't.
const NO_METHOD: u8 = 7;

/// The status of a reply (RFC 9110, section 15).
#[tactic(auto, using(crate::proofs::Statuses::known_status))]
pub(crate) fn reply_status(reply: &Reply) -> u16
    ensures value { result ≡ reply_status reply.now }
    ensures low { 200 ≤ result }
    ensures high { result ≤ 599 }
    ensures known { IsSome (reason_phrase result) }
{
    match reply {
        Reply::Created | Reply::CreatedObjects(_) => 201,
        Reply::Accepted(_) => 202,
        Reply::Done => 204,
        Reply::Shown(_) | Reply::Media(_) | Reply::Partly(_) => 200,
        Reply::Refused(refusal) => refusal.status(),
    }
}

/// Adds a field, where it has a value.
pub(crate) fn push_field(
    alloc: Global,
    fields: &mut FieldList,
    name: &str,
    value: Option<Text>,
) -> Result<(), Memory>
    ensures { OnOk result (fields.new ≡ fields.old ++ field_if name.now value) }
{
    match value {
        Some(value) => {
            let name = Text::from_bytes(alloc, name.as_bytes())?;
            fields.push(HeadField { name, value })
        }
        None => Ok(()),
    }
}

/// A number in decimal.
fn number_text(alloc: Global, n: u64) -> Result<Text, Memory>
    ensures { IfOk result (λ text. text ≡ decimal n) }
{
    let mut buffer = Buffer::new();
    Text::from_bytes(alloc, buffer.format(n).as_bytes())
}

/// The length of the content, in bytes.
pub(crate) fn content_length(
    alloc: Global,
    reply: &Reply,
    body: &[u8],
) -> Result<Option<Text>, Memory>
    ensures { IfOk result (λ value. value ≡ spec.content_length reply.now body.now) }
{
    match reply {
        Reply::Done => Ok(None),
        Reply::Media(size) => Ok(Some(number_text(alloc, *size)?)),
        Reply::Created
        | Reply::CreatedObjects(_)
        | Reply::Accepted(_)
        | Reply::Shown(_)
        | Reply::Refused(_)
        | Reply::Partly(_) => Ok(Some(number_text(alloc, body.len() as u64)?)),
    }
}

/// The type of a body that has a byte.
fn json_type(alloc: Global, body: &[u8]) -> Result<Option<Text>, Memory>
    ensures { IfOk result (λ value. value ≡ spec.json_type body.now) }
{
    if body.is_empty() {
        return Ok(None);
    }
    Ok(Some(Text::from_bytes(alloc, b"application/json")?))
}

/// The type of the content.
pub(crate) fn content_type(
    alloc: Global,
    reply: &Reply,
    body: &[u8],
) -> Result<Option<Text>, Memory>
    ensures { IfOk result (λ value. value ≡ spec.content_type reply.now body.now) }
{
    match reply {
        Reply::Media(_) => Ok(Some(Text::from_bytes(alloc, b"application/octet-stream")?)),
        Reply::Created
        | Reply::CreatedObjects(_)
        | Reply::Accepted(_)
        | Reply::Done
        | Reply::Shown(_)
        | Reply::Refused(_)
        | Reply::Partly(_) => json_type(alloc, body),
    }
}

/// The methods of the route that a target names.
fn allowed_at(alloc: Global, table: &RouteTable, target: &[u8]) -> Result<Option<Text>, Memory>
    ensures { IfOk result (λ value. value ≡ spec.allowed_at target.now) }
{
    match table.find(path_of(target)) {
        Some(route) => Ok(Some(Text::from_bytes(alloc, route.methods().allow().as_bytes())?)),
        None => Ok(None),
    }
}

fn is_no_method(refusal: &Refusal) -> bool
    ensures { result ≡ spec.is_no_method refusal.now }
{
    refusal.number() == NO_METHOD
}

/// The methods that are allowed, where another one was asked for.
pub(crate) fn allow(
    alloc: Global,
    table: &RouteTable,
    reply: &Reply,
    target: &[u8],
) -> Result<Option<Text>, Memory>
    ensures { IfOk result (λ value. value ≡ spec.allow reply.now target.now) }
{
    match reply {
        Reply::Refused(refusal) => {
            if is_no_method(refusal) {
                allowed_at(alloc, table, target)
            } else {
                Ok(None)
            }
        }
        Reply::Created
        | Reply::CreatedObjects(_)
        | Reply::Accepted(_)
        | Reply::Done
        | Reply::Shown(_)
        | Reply::Media(_)
        | Reply::Partly(_) => Ok(None),
    }
}

/// Where a delete request is shown.
fn request_address(alloc: Global, store: u128, base: &Text, serial: u64) -> Result<Text, Memory>
    ensures { IfOk result (λ text. text ≡ spec.request_address store base.now serial) }
{
    let mut address = base.copy(alloc)?;
    address.append(b"/flow-delete-requests/")?;
    address.append(request_id(alloc, store, serial)?.bytes())?;
    Ok(address)
}

/// Where the request that was accepted is shown.
pub(crate) fn location(
    alloc: Global,
    reply: &Reply,
    store: u128,
    base: &Text,
) -> Result<Option<Text>, Memory>
    ensures { IfOk result (λ value. value ≡ spec.location reply.now store base.now) }
{
    match reply {
        Reply::Accepted(row) => Ok(Some(request_address(alloc, store, base, row.serial)?)),
        Reply::Created
        | Reply::CreatedObjects(_)
        | Reply::Done
        | Reply::Shown(_)
        | Reply::Media(_)
        | Reply::Refused(_)
        | Reply::Partly(_) => Ok(None),
    }
}

/// The id of a key.
fn id_key_text(alloc: Global, key: Option<i128>) -> Result<Option<Text>, Memory>
    ensures { IfOk result (λ text. text ≡ option_map id_key_text key) }
{
    match key {
        Some(key) => Ok(Some(print_id(alloc, id_of_key(key))?)),
        None => Ok(None),
    }
}

/// A point in decimal.
fn point_text(alloc: Global, key: Option<i128>) -> Result<Option<Text>, Memory>
    ensures { IfOk result (λ text. text ≡ option_map signed_decimal key) }
{
    let Some(key) = key else {
        return Ok(None);
    };
    let mut buffer = Buffer::new();
    Ok(Some(Text::from_bytes(alloc, buffer.format(key).as_bytes())?))
}

/// The key of the next page of a view.
fn next_key_of(alloc: Global, view: &View) -> Result<Option<Text>, Memory>
    ensures { IfOk result (λ key. key ≡ next_key_of view.now) }
{
    match view {
        View::Sources(_, next) | View::Flows(_, next) => id_key_text(alloc, *next),
        View::Segments(_, next) => point_text(alloc, *next),
        View::Root
        | View::Service
        | View::Source(_)
        | View::Flow(_)
        | View::Object { .. }
        | View::Request(_)
        | View::Requests(_)
        | View::Hooks(_)
        | View::OnePart(_)
        | View::AllTags(_) => Ok(None),
    }
}

/// The key of the next page of a reply.
pub(crate) fn next_key_text(alloc: Global, reply: &Reply) -> Result<Option<Text>, Memory>
    ensures { IfOk result (λ key. key ≡ spec.next_key_text reply.now) }
{
    match reply {
        Reply::Shown(view) => next_key_of(alloc, view),
        Reply::Created
        | Reply::CreatedObjects(_)
        | Reply::Accepted(_)
        | Reply::Done
        | Reply::Media(_)
        | Reply::Refused(_)
        | Reply::Partly(_) => Ok(None),
    }
}

/// The address of the page behind a key, as a link to the next one (RFC 8288, section 3).
pub(crate) fn next_link(
    alloc: Global,
    base: &Text,
    target: &[u8],
    key: &Text,
) -> Result<Text, Memory>
    ensures { IfOk result (λ text. text ≡ spec.next_link base.now target.now key.now) }
{
    let pairs = read_pairs(alloc, query_of(target))?;
    let query = next_query(alloc, &pairs, key)?;
    let mut page_link = Text::from_bytes(alloc, b"<")?;
    page_link.append(base.bytes())?;
    page_link.append(path_of(target))?;
    page_link.append(b"?")?;
    page_link.append(query.bytes())?;
    page_link.append(b">; rel=\"next\"")?;
    Ok(page_link)
}

/// The word with which a connection ends.
pub(crate) fn connection_word(alloc: Global, ends: bool) -> Result<Option<Text>, Memory>
    ensures { IfOk result (λ value. value ≡ spec.connection_word ends) }
{
    if ends {
        Ok(Some(Text::from_bytes(alloc, b"close")?))
    } else {
        Ok(None)
    }
}
