//! The response to a reply.
ghost use Rattle.std.specs.Prelude.{◌≡◌, ◌++◌, IfOk, option_map};
ghost use Rattle.tams_http.specs.Answered as spec;
ghost use Rattle.tams_http.specs.Answered.{response_fields};

use crate::fields::{
    allow, connection_word, content_length, content_type, location, next_key_text, next_link,
    push_field,
};
use disk_trait::{Listed, Memory, Text};
use http_routes::RouteTable;
use http_wire::FieldList;
use media_rows::Reply;
use std::alloc::Global;

/// A request as it is answered: its target, what the store's addresses begin with, whether the connection ends
/// behind the answer, and whether the answer is a head alone.
#[derive(Drop)]
pub struct AnswerContext<'a> {
    pub target: &'a [u8],
    pub base: &'a Text,
    pub ends: bool,
    pub head_only: bool,
}

/// The store that answers.
#[derive(Drop)]
pub(crate) struct StoreContext<'a> {
    pub(crate) id: u128,
    pub(crate) table: &'a RouteTable,
}

/// The link to the page behind a key, where there is one.
fn page_link(
    alloc: Global,
    base: &Text,
    target: &[u8],
    key: &Option<Text>,
) -> Result<Option<Text>, Memory>
    ensures { IfOk result (λ value. value
        ≡ option_map (spec.next_link base.now target.now) key.now) }
{
    match key {
        Some(key) => Ok(Some(next_link(alloc, base, target, key)?)),
        None => Ok(None),
    }
}

/// The fields of the response to a reply with this body.
pub(crate) fn response_fields(
    alloc: Global,
    store: &StoreContext<'_>,
    context: &AnswerContext<'_>,
    reply: &Reply,
    body: &[u8],
) -> Result<FieldList, Memory>
    ensures { IfOk result (λ fields. fields ≡ response_fields (record {
      store = store.now.id;
      base = context.now.base.now;
      target = context.now.target.now;
      ends = context.now.ends;
      head_only = context.now.head_only;
    }) reply.now body.now) }
{
    let mut fields = Listed::new(alloc);
    let to = &mut fields;
    push_field(
        alloc,
        to,
        "Content-Length",
        content_length(alloc, reply, body)?,
    )?;
    push_field(alloc, to, "Content-Type", content_type(alloc, reply, body)?)?;
    push_field(
        alloc,
        to,
        "Allow",
        allow(alloc, store.table, reply, context.target)?,
    )?;
    push_field(
        alloc,
        to,
        "Location",
        location(alloc, reply, store.id, context.base)?,
    )?;
    let key = next_key_text(alloc, reply)?;
    let page_link = page_link(alloc, context.base, context.target, &key)?;
    push_field(alloc, to, "Link", page_link)?;
    push_field(alloc, to, "X-Paging-NextKey", key)?;
    push_field(
        alloc,
        to,
        "Connection",
        connection_word(alloc, context.ends)?,
    )?;
    Ok(fields)
}
