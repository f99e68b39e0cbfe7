//! The requests of a workload, one after another.
ghost use Rattle.std.specs.Prelude.{◌≡◌, ◌++◌, ◌≤◌, ◌<◌, IfOk, OnOk, string_bytes};
ghost use Rattle.std.specs.List.{flat_map};
ghost use Rattle.media_rows.specs.Lists.{numbers_below};
ghost use Rattle.generated_workload.specs.Workload.{ask_objects, delete_segments, flow_path, half_query, half_target, limit_body, list_segments, media_bytes, generated_id, object_requests, post_segment, put_flow, put_object, root_requests, seconds_range, segment_body, workload_requests};

use crate::requests::{append_bare, append_number, append_request};
use disk_trait::{Memory, Text};
use form_urlencoded::Serializer;
use std::alloc::Global;

/// The id of the store, with which the id of each object begins.
const STORE_ID: &[u8] = b"00000000-0000-4000-8000-000000000001";

/// The path of the flow.
const FLOW_PATH: &[u8] = b"/flows/00000000-0000-4000-8000-0000000000f1";

/// The body that makes the flow.
const FLOW_BODY: &[u8] =
    b"{\"source_id\":\"00000000-0000-4000-8000-0000000000a1\",\"format\":\"urn:x-nmos:format:video\"}";

/// The largest number that a workload is made of.
pub const MOST_NUMBER: u64 = 1_000_000;

/// The most objects that a workload puts.
pub const MOST_COUNT: u64 = 1_000;

/// Bytes of the largest object.
const MOST_BYTES: u64 = 4_096;

/// How many values a byte has.
const BYTE_VALUES: u64 = 256;

/// Seconds of a segment.
const SEGMENT_SECONDS: u64 = 10;

/// For so many deleted segments the root is asked for once.
const GROUP: u64 = 32;

/// The requests of a workload of this number, with so many objects, as the bytes of one connection.
/// The error is want of memory.
pub fn workload_bytes(alloc: Global, number: u64, count: u64) -> Result<Text, Memory>
    requires number { number ≤ MOST_NUMBER }
    requires count { count ≤ MOST_COUNT }
    ensures { IfOk result (λ text. text ≡ workload_requests number count) }
{
    let mut out = Text::new(alloc);
    append_flow(&mut out)?;
    append_asking(alloc, count, &mut out)?;
    append_objects(alloc, number, count, &mut out)?;
    append_listing(alloc, &mut out)?;
    append_deleting(alloc, count, &mut out)?;
    append_roots(count, &mut out)?;
    Ok(out)
}

/// Adds the request that puts the flow.
fn append_flow(out: &mut Text) -> Result<(), Memory>
    ensures { OnOk result (out.new ≡ out.old ++ put_flow) }
{
    append_request(b"PUT", FLOW_PATH, FLOW_BODY, out)
}

/// The target that begins with the path of the flow and ends like this.
fn flow_target(alloc: Global, end: &[u8]) -> Result<Text, Memory>
    ensures { IfOk result (λ target. target ≡ flow_path ++ end.now) }
{
    let mut target = Text::from_bytes(alloc, FLOW_PATH)?;
    target.append(end)?;
    Ok(target)
}

/// Adds the request for so many new objects.
fn append_asking(alloc: Global, count: u64, out: &mut Text) -> Result<(), Memory>
    ensures { OnOk result (out.new ≡ out.old ++ ask_objects count) }
{
    let target = flow_target(alloc, b"/storage")?;
    let body = limit_body(alloc, count)?;
    append_request(b"POST", target.bytes(), body.bytes(), out)
}

/// The body that asks for so many new objects.
fn limit_body(alloc: Global, count: u64) -> Result<Text, Memory>
    ensures { IfOk result (λ body. body ≡ limit_body count) }
{
    let mut body = Text::from_bytes(alloc, b"{\"limit\":")?;
    append_number(count, &mut body)?;
    body.append(b"}")?;
    Ok(body)
}

/// Adds the requests that put so many objects, each with the one that posts its segment.
fn append_objects(alloc: Global, number: u64, count: u64, out: &mut Text) -> Result<(), Memory>
    requires number { number ≤ MOST_NUMBER }
    requires count { count ≤ MOST_COUNT }
    ensures { OnOk result
        (out.new ≡ out.old ++ flat_map (object_requests number) (numbers_below count)) }
{
    for i in 0..count {
        append_object(alloc, number, i, out)?;
    }
    Ok(())
}

/// Adds the requests that put the i-th object and post its segment.
fn append_object(alloc: Global, number: u64, i: u64, out: &mut Text) -> Result<(), Memory>
    requires number { number ≤ MOST_NUMBER }
    requires index { i < MOST_COUNT }
    ensures { OnOk result (out.new ≡ out.old ++ object_requests number i) }
{
    let object = object_id(alloc, i)?;
    append_media(alloc, number, i, &object, out)?;
    append_segment(alloc, i, &object, out)
}

/// Adds the request that puts the i-th object, of this id.
fn append_media(
    alloc: Global,
    number: u64,
    i: u64,
    object: &Text,
    out: &mut Text,
) -> Result<(), Memory>
    requires number { number ≤ MOST_NUMBER }
    requires index { i < MOST_COUNT }
    requires object { object.now ≡ generated_id i }
    ensures { OnOk result (out.new ≡ out.old ++ put_object number i) }
{
    let mut target = Text::from_bytes(alloc, b"/media/")?;
    target.append(object.bytes())?;
    let bytes = media_bytes(alloc, number, i)?;
    append_request(b"PUT", target.bytes(), bytes.bytes(), out)
}

/// Adds the request that posts the segment of the i-th object, of this id.
fn append_segment(alloc: Global, i: u64, object: &Text, out: &mut Text) -> Result<(), Memory>
    requires index { i < MOST_COUNT }
    requires object { object.now ≡ generated_id i }
    ensures { OnOk result (out.new ≡ out.old ++ post_segment i) }
{
    let target = flow_target(alloc, b"/segments")?;
    let body = segment_body(alloc, i, object)?;
    append_request(b"POST", target.bytes(), body.bytes(), out)
}

/// The id of the i-th object.
fn object_id(alloc: Global, i: u64) -> Result<Text, Memory>
    requires { i < MOST_COUNT }
    ensures { IfOk result (λ id. id ≡ generated_id i) }
{
    let mut id = Text::from_bytes(alloc, STORE_ID)?;
    id.append(b"-")?;
    append_number(i + 1, &mut id)?;
    Ok(id)
}

/// The bytes of the i-th object.
fn media_bytes(alloc: Global, number: u64, i: u64) -> Result<Text, Memory>
    requires number { number ≤ MOST_NUMBER }
    requires index { i < MOST_COUNT }
    ensures { IfOk result (λ bytes. bytes ≡ media_bytes number i) }
{
    let size = 1 + (31 * number + 17 * i) % MOST_BYTES;
    let mut bytes = Text::new(alloc);
    for j in 0..size {
        bytes.push(((number + i + j) % BYTE_VALUES) as u8)?;
    }
    Ok(bytes)
}

/// The body that posts the segment of the i-th object, of this id.
fn segment_body(alloc: Global, i: u64, object: &Text) -> Result<Text, Memory>
    requires index { i < MOST_COUNT }
    requires object { object.now ≡ generated_id i }
    ensures { IfOk result (λ body. body ≡ segment_body i) }
{
    let range = seconds_range(alloc, SEGMENT_SECONDS * i, SEGMENT_SECONDS * (i + 1))?;
    let mut body = Text::from_bytes(alloc, b"{\"object_id\":\"")?;
    body.append(object.bytes())?;
    body.append(b"\",\"timerange\":\"")?;
    body.append(range.as_bytes())?;
    body.append(b"\"}")?;
    Ok(body)
}

/// The time range from one second up to another, without that one.
fn seconds_range(alloc: Global, start: u64, end: u64) -> Result<String, Memory>
    ensures { IfOk result (λ range. string_bytes range ≡ seconds_range start end) }
{
    Ok(format!(in alloc; "[{start}:0_{end}:0)")?)
}

/// Adds the request that lists the segments.
fn append_listing(alloc: Global, out: &mut Text) -> Result<(), Memory>
    ensures { OnOk result (out.new ≡ out.old ++ list_segments) }
{
    let target = flow_target(alloc, b"/segments?limit=1000")?;
    append_bare(b"GET", target.bytes(), out)
}

/// Adds the request that deletes the first half of the segments.
fn append_deleting(alloc: Global, count: u64, out: &mut Text) -> Result<(), Memory>
    requires { count ≤ MOST_COUNT }
    ensures { OnOk result (out.new ≡ out.old ++ delete_segments count) }
{
    let target = half_target(alloc, count)?;
    append_bare(b"DELETE", target.bytes(), out)
}

/// The target that names the first half of the segments.
fn half_target(alloc: Global, count: u64) -> Result<Text, Memory>
    requires { count ≤ MOST_COUNT }
    ensures { IfOk result (λ target. target ≡ half_target count) }
{
    let query = half_query(alloc, count)?;
    let mut target = flow_target(alloc, b"/segments?")?;
    target.append(query.as_bytes())?;
    Ok(target)
}

/// The query of that target.
fn half_query(alloc: Global, count: u64) -> Result<String, Memory>
    requires { count ≤ MOST_COUNT }
    ensures { IfOk result (λ query. string_bytes query ≡ half_query count) }
{
    let range = seconds_range(alloc, 0, SEGMENT_SECONDS * (count / 2))?;
    let mut form = Serializer::new(String::new(alloc));
    form.append_pair("timerange", range.as_str())?;
    Ok(form.finish())
}

/// Adds a request for the root for each group of deleted segments.
fn append_roots(count: u64, out: &mut Text) -> Result<(), Memory>
    ensures { OnOk result (out.new ≡ out.old ++ root_requests count) }
{
    let groups = (count / 2).div_ceil(GROUP);
    for _ in 0..groups {
        append_bare(b"GET", b"/", out)?;
    }
    Ok(())
}
