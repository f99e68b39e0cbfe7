//! Tags, and the flows that a flow collects.
ghost use Rattle.std.specs.Prelude.{◌≡◌, IfOk, IfSome, IsTrue, option_and_then, string_bytes};
ghost use Rattle.std.specs.List.{list_all};
ghost use Rattle.std.specs.Str.{is_utf8};
ghost use Rattle.serde_json.specs.Find.{as_object};
ghost use Rattle.serde_json.specs.View.{view, members_view};
ghost use Rattle.media_rows.specs.Good.{if_there, is_member_text, is_tag_text};
ghost use Rattle.json_bodies.specs.Flow.{each_tag, is_short_tag, has_name, tags};
ghost use Rattle.json_bodies.specs.Kinds as spec;
ghost use Rattle.json_bodies.specs.Kinds.{tag_of_value, tag_rule, has_short_values, has_short_role, collection};

use crate::fault::{Breach, RuleFault};
use crate::kinds::{Kind, MemberKind, TextKind, read_list};
use crate::rules::{LONGEST_TEXT, Rule};
use disk_trait::{Memory, Text, TextList};
use media_rows::{Member, MemberList, Tag, TagList};
use serde_json::{Map, Value};
use std::alloc::Global;

/// The most tags of a flow.
const MOST_TAGS: usize = 256;

/// Bytes of the longest name of a tag.
const LONGEST_TAG_NAME: usize = 128;

/// The most flows that a flow collects.
const MOST_MEMBERS: usize = 256;

/// The tag of a name, whose value is a text or a list of texts.
pub(crate) fn read_tag(alloc: Global, name: &[u8], value: &Value) -> Result<Option<Tag>, Memory>
    ensures tag { IfOk result (λ found. found ≡ tag_of_value name.now (view value.now)) }
    ensures good { IfOk result
        (λ found. IsTrue (if_there (λ tag. list_all is_utf8 tag.values) found)) }
    ensures name { IfOk result (λ found. IfSome found (λ tag. tag.name ≡ name.now)) }
{
    if let Some(text) = TextKind.read(alloc, value)? {
        return Ok(Some(single_tag(alloc, name, text)?));
    }
    let Some(values) = read_list(alloc, value, &TextKind)? else {
        return Ok(None);
    };
    Ok(Some(Tag {
        name: Text::from_bytes(alloc, name)?,
        single: false,
        values,
    }))
}

/// A tag that was given as a text.
fn single_tag(alloc: Global, name: &[u8], text: Text) -> Result<Tag, Memory>
    ensures { IfOk result (λ tag. tag ≡ spec.single_tag name.now text) }
{
    let mut values = TextList::new(alloc);
    values.push(text)?;
    Ok(Tag {
        name: Text::from_bytes(alloc, name)?,
        single: true,
        values,
    })
}

/// Whether no value of a tag is longer than a text may be.
pub(crate) fn has_short_values(tag: &Tag) -> bool
    ensures { result ≡ has_short_values tag.now }
{
    tag.values
        .items()
        .iter()
        .all(|value| value.bytes().len() <= LONGEST_TEXT)
}

/// The tag of a name.
#[derive(Drop)]
pub(crate) struct TagRule<'n> {
    pub(crate) name: &'n Text,
}

impl<'n> Rule<Tag> for TagRule<'n> {
    ghost gives = { λ rule. tag_rule rule.name.now };

    ghost is_good = { λ _ tag. list_all is_utf8 tag.values };

    fn read(&self, alloc: Global, value: &Value) -> Result<Tag, RuleFault> {
        let Some(tag) = read_tag(alloc, self.name.bytes(), value)? else {
            return Err(RuleFault::Breach(Breach::WrongKind));
        };
        if has_short_values(&tag) {
            Ok(tag)
        } else {
            Err(RuleFault::Breach(Breach::TooLong))
        }
    }
}

/// The tag of a name that is UTF-8.
#[tactic(auto, using(crate::proofs::Texts::is_utf8_text))]
fn read_named_tag(alloc: Global, name: &String, value: &Value) -> Result<Option<Tag>, Memory>
    ensures tag { IfOk result
        (λ found. found ≡ tag_of_value (string_bytes name.now) (view value.now)) }
    ensures good { IfOk result (λ found. IsTrue (if_there is_tag_text found)) }
{
    read_tag(alloc, name.as_str().as_bytes(), value)
}

/// The tags that members are, by their names, where each is one.
fn each_tag(alloc: Global, members: &Map<String, Value>) -> Result<Option<TagList>, Memory>
    ensures tags { IfOk result (λ found. found ≡ each_tag (members_view members.now.entries)) }
    ensures good { IfOk result (λ found. IsTrue (if_there (list_all is_tag_text) found)) }
{
    let mut tags = TagList::new(alloc);
    for (name, value) in members.iter() {
        let Some(tag) = read_named_tag(alloc, name, value)? else {
            return Ok(None);
        };
        tags.push(tag)?;
    }
    Ok(Some(tags))
}

/// The tags of an object.
fn read_tags(alloc: Global, value: &Value) -> Result<Option<TagList>, Memory>
    ensures tags { IfOk result
        (λ found. found ≡ option_and_then each_tag (as_object (view value.now))) }
    ensures good { IfOk result (λ found. IsTrue (if_there (list_all is_tag_text) found)) }
{
    match value.as_object() {
        Some(members) => each_tag(alloc, members),
        None => Ok(None),
    }
}

fn is_short_tag(tag: &Tag) -> bool
    ensures { result ≡ is_short_tag tag.now }
{
    tag.name.bytes().len() <= LONGEST_TAG_NAME && has_short_values(tag)
}

fn are_short(tags: &[Tag]) -> bool
    ensures { result ≡ list_all is_short_tag tags.now }
{
    tags.iter().all(|tag| is_short_tag(tag))
}

fn have_names(tags: &[Tag]) -> bool
    ensures { result ≡ list_all has_name tags.now }
{
    tags.iter().all(|tag| 1 <= tag.name.bytes().len())
}

/// The tags of a flow.
#[derive(Drop)]
pub(crate) struct TagsRule;

impl Rule<TagList> for TagsRule {
    ghost gives = { λ _. tags };

    ghost is_good = { λ _. list_all is_tag_text };

    fn read(&self, alloc: Global, value: &Value) -> Result<TagList, RuleFault> {
        let Some(tags) = read_tags(alloc, value)? else {
            return Err(RuleFault::Breach(Breach::WrongKind));
        };
        if !are_short(tags.items()) {
            return Err(RuleFault::Breach(Breach::TooLong));
        }
        if tags.items().len() > MOST_TAGS || !have_names(tags.items()) {
            return Err(RuleFault::Breach(Breach::OutOfRange));
        }
        Ok(tags)
    }
}

/// Whether a role is no longer than a text may be.
fn has_short_role(member: &Member) -> bool
    ensures { result ≡ has_short_role member.now }
{
    match &member.role {
        Some(role) => role.bytes().len() <= LONGEST_TEXT,
        None => true,
    }
}

fn have_short_roles(members: &[Member]) -> bool
    ensures { result ≡ list_all has_short_role members.now }
{
    members.iter().all(|member| has_short_role(member))
}

/// The flows that a flow collects.
#[derive(Drop)]
pub(crate) struct CollectionRule;

impl Rule<MemberList> for CollectionRule {
    ghost gives = { λ _. collection };

    ghost is_good = { λ _. list_all is_member_text };

    fn read(&self, alloc: Global, value: &Value) -> Result<MemberList, RuleFault> {
        let Some(members) = read_list(alloc, value, &MemberKind)? else {
            return Err(RuleFault::Breach(Breach::WrongKind));
        };
        if !have_short_roles(members.items()) {
            return Err(RuleFault::Breach(Breach::TooLong));
        }
        if members.items().len() > MOST_MEMBERS {
            return Err(RuleFault::Breach(Breach::OutOfRange));
        }
        Ok(members)
    }
}
