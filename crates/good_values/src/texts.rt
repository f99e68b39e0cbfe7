//! Texts and moments of what a client says: of tags, of collections, of flows and of hooks.
ghost use Rattle.std.specs.Prelude.{◌≡◌, IfOk};
ghost use Rattle.std.specs.List.{list_all};
ghost use Rattle.std.specs.Str.{is_utf8};
ghost use Rattle.media_rows.specs.Essence.{is_essence};
ghost use Rattle.media_rows.specs.Good.{if_there, is_body_text, is_member_text, is_tag_text};
ghost use Rattle.media_rows.specs.Moments.{is_moment};
ghost use Rattle.good_values.specs.Within.{are_plain_texts, is_hook_in_utf8};

use disk_trait::{Memory, Text};
use media_rows::{FlowBody, Hook, Member, Tag, is_essence, is_utf8};
use std::alloc::Global;

/// The last moment, in seconds since 1970-01-01T00:00:00Z.
const LAST_MOMENT: u64 = 253_402_300_799;

/// Whether a number is a moment.
pub fn is_moment(moment: u64) -> bool
    ensures { result ≡ is_moment moment }
{
    moment <= LAST_MOMENT
}

/// Whether a number that may be absent is a moment.
pub(crate) fn is_moment_or_none(moment: &Option<u64>) -> bool
    ensures { result ≡ if_there is_moment moment.now }
{
    match moment {
        None => true,
        Some(moment) => is_moment(*moment),
    }
}

/// Whether a text that may be absent is UTF-8.
pub(crate) fn is_text_or_none(text: &Option<Text>) -> bool
    ensures { result ≡ if_there is_utf8 text.now }
{
    match text {
        None => true,
        Some(text) => is_utf8(text.bytes()),
    }
}

fn are_texts(texts: &[Text]) -> bool
    ensures { result ≡ list_all is_utf8 texts.now }
{
    texts.iter().all(|text| is_utf8(text.bytes()))
}

/// Whether a tag's texts are UTF-8.
pub(crate) fn is_tag_text(tag: &Tag) -> bool
    ensures { result ≡ is_tag_text tag.now }
{
    is_utf8(tag.name.bytes()) && are_texts(tag.values.items())
}

pub(crate) fn are_tag_texts(tags: &[Tag]) -> bool
    ensures { result ≡ list_all is_tag_text tags.now }
{
    tags.iter().all(|tag| is_tag_text(tag))
}

fn is_member_text(member: &Member) -> bool
    ensures { result ≡ is_member_text member.now }
{
    is_text_or_none(&member.role)
}

pub(crate) fn are_member_texts(members: &[Member]) -> bool
    ensures { result ≡ list_all is_member_text members.now }
{
    members.iter().all(|member| is_member_text(member))
}

/// Whether what a client says of a flow is in good texts.
pub(crate) fn is_body_text(alloc: Global, body: &FlowBody) -> Result<bool, Memory>
    ensures { IfOk result (λ good. good ≡ is_body_text body.now) }
{
    if !are_plain_texts(body) {
        return Ok(false);
    }
    match &body.essence {
        None => Ok(true),
        Some(text) => is_essence(alloc, text.bytes()),
    }
}

/// The same but for the essence.
fn are_plain_texts(body: &FlowBody) -> bool
    ensures { result ≡ are_plain_texts body.now }
{
    is_text_or_none(&body.codec)
        && is_text_or_none(&body.container)
        && is_text_or_none(&body.label)
        && is_text_or_none(&body.description)
        && are_tag_texts(body.tags.items())
        && are_member_texts(body.members.items())
}

/// Whether a hook's texts are UTF-8.
pub(crate) fn is_hook_text(hook: &Hook) -> bool
    ensures { result ≡ is_hook_in_utf8 hook.now }
{
    is_utf8(hook.url.bytes()) && is_text_or_none(&hook.key_name) && is_text_or_none(&hook.key_value)
}
