//! Bodies of flows.
ghost use Rattle.std.specs.Prelude.{◌≡◌, IfOk, IsTrue, codes, true};
ghost use Rattle.std.specs.List.{list_all};
ghost use Rattle.std.specs.Str.{is_utf8};
ghost use Rattle.serde_json.specs.View.{view};
ghost use Rattle.media_rows.specs.Essence.{is_essence};
ghost use Rattle.media_rows.specs.Good.{if_there, is_body_text, is_tag_text, is_member_text};
ghost use Rattle.json_bodies.specs.Answers.{Answers};
ghost use Rattle.json_bodies.specs.Flow as spec;
ghost use Rattle.json_bodies.specs.Flow.{anything, origin_of, flow_texts, numbers_of, flow_contents, flow_body_of, flow_in, same_id, format, named_source};
ghost use Rattle.json_bodies.specs.Plain.{IsPlain};
ghost use Rattle.json_bodies.specs.Rules.{required};

use crate::body::{check_object, read_body};
use crate::essence::read_essence;
use crate::fault::{BodyFault, Breach, RuleFault};
use crate::members::{optional, required};
use crate::rules::{
    IdRule, LAST_WHOLE, LONGEST_DESCRIPTION, LONGEST_TEXT, Rule, TextRule, TruthRule, WholeRule,
};
use crate::tags::{CollectionRule, TagsRule};
use disk_trait::Text;
use media_rows::{FlowBody, FormatKind, MemberList, TagList, read_id};
use serde_json::Value;
use std::alloc::Global;

/// The source and the format of a flow.
#[derive(Clone, Copy, Debug, PartialEq, Eq)]
pub(crate) struct Origin {
    pub(crate) source: u128,
    pub(crate) format: FormatKind,
}

/// The texts of a flow.
#[derive(Drop)]
pub(crate) struct FlowTexts {
    pub(crate) codec: Option<Text>,
    pub(crate) container: Option<Text>,
    pub(crate) label: Option<Text>,
    pub(crate) description: Option<Text>,
}

/// The mark and the bit rates of a flow, these in bits per second.
#[derive(Clone, Copy, Debug, PartialEq, Eq)]
pub(crate) struct FlowNumbers {
    pub(crate) read_only: bool,
    pub(crate) max_bit_rate: Option<u64>,
    pub(crate) avg_bit_rate: Option<u64>,
}

/// What a flow holds besides.
#[derive(Drop)]
pub(crate) struct FlowContents {
    pub(crate) tags: TagList,
    pub(crate) members: MemberList,
    pub(crate) essence: Option<Text>,
}

/// The flow that a body spells, whose path names this id. Its members are those of our own profile of the
/// Time-addressable Media Store; the names of formats are those of NMOS and of TAMS.
pub fn read_flow(alloc: Global, body: &[u8], id: u128) -> Result<FlowBody, BodyFault>
    ensures answer { Answers (flow_in id body.now) result }
    ensures texts { IfOk result (λ flow. IsTrue (is_body_text flow)) }
{
    let value = read_body(alloc, body)?;
    check_object(alloc, &value)?;
    flow_of(alloc, &value, id)
}

fn flow_of(alloc: Global, object: &Value, id: u128) -> Result<FlowBody, BodyFault>
    requires { IsPlain (view object.now) }
    ensures answer { Answers (flow_body_of id (view object.now)) result }
    ensures texts { IfOk result (λ flow. IsTrue (is_body_text flow)) }
{
    optional(alloc, object, "id", &SameIdRule { id })?;
    let origin = origin_of(alloc, object)?;
    let texts = texts_of(alloc, object)?;
    let numbers = numbers_of(alloc, object)?;
    let contents = contents_of(alloc, object)?;
    Ok(FlowBody {
        id,
        source: origin.source,
        format: origin.format,
        read_only: numbers.read_only,
        codec: texts.codec,
        container: texts.container,
        label: texts.label,
        description: texts.description,
        max_bit_rate: numbers.max_bit_rate,
        avg_bit_rate: numbers.avg_bit_rate,
        tags: contents.tags,
        members: contents.members,
        essence: contents.essence,
    })
}

/// The source and the format, of which both have to be there.
fn origin_of(alloc: Global, object: &Value) -> Result<Origin, BodyFault>
    ensures { Answers (origin_of (view object.now)) result }
{
    let found = optional(alloc, object, "source_id", &IdRule)?;
    check_format(alloc, object)?;
    let source = named_source(alloc, found)?;
    let format = required(alloc, object, "format", &FormatRule)?;
    Ok(Origin { source, format })
}

/// Goes on where a format is there.
fn check_format(alloc: Global, object: &Value) -> Result<(), BodyFault>
    ensures { Answers (required (codes "format") anything (view object.now)) result }
{
    if object.get("format").is_some() {
        Ok(())
    } else {
        Err(BodyFault::Refused(Breach::Missing.refusal(alloc, "format")?))
    }
}

/// A source that has to be there.
fn named_source(alloc: Global, found: Option<u128>) -> Result<u128, BodyFault>
    ensures { Answers (named_source found) result }
{
    match found {
        Some(source) => Ok(source),
        None => Err(BodyFault::Refused(Breach::Missing.refusal(alloc, "source_id")?)),
    }
}

fn texts_of(alloc: Global, object: &Value) -> Result<FlowTexts, BodyFault>
    ensures answer { Answers (flow_texts (view object.now)) result }
    ensures codec { IfOk result (λ texts. IsTrue (if_there is_utf8 texts.codec)) }
    ensures container { IfOk result (λ texts. IsTrue (if_there is_utf8 texts.container)) }
    ensures label { IfOk result (λ texts. IsTrue (if_there is_utf8 texts.label)) }
    ensures description { IfOk result (λ texts. IsTrue (if_there is_utf8 texts.description)) }
{
    let text = TextRule { most: LONGEST_TEXT };
    let long = TextRule {
        most: LONGEST_DESCRIPTION,
    };
    Ok(FlowTexts {
        codec: optional(alloc, object, "codec", &text)?,
        container: optional(alloc, object, "container", &text)?,
        label: optional(alloc, object, "label", &text)?,
        description: optional(alloc, object, "description", &long)?,
    })
}

fn numbers_of(alloc: Global, object: &Value) -> Result<FlowNumbers, BodyFault>
    ensures { Answers (numbers_of (view object.now)) result }
{
    let rule = WholeRule {
        least: 0,
        most: LAST_WHOLE,
    };
    let mark = optional(alloc, object, "read_only", &TruthRule)?;
    Ok(FlowNumbers {
        read_only: mark.unwrap_or(false),
        max_bit_rate: optional(alloc, object, "max_bit_rate", &rule)?,
        avg_bit_rate: optional(alloc, object, "avg_bit_rate", &rule)?,
    })
}

fn contents_of(alloc: Global, object: &Value) -> Result<FlowContents, BodyFault>
    requires { IsPlain (view object.now) }
    ensures answer { Answers (flow_contents (view object.now)) result }
    ensures tags { IfOk result (λ contents. IsTrue (list_all is_tag_text contents.tags)) }
    ensures members { IfOk result (λ contents. IsTrue (list_all is_member_text contents.members)) }
    ensures essence { IfOk result (λ contents. IsTrue (if_there is_essence contents.essence)) }
{
    let tags = optional(alloc, object, "tags", &TagsRule)?;
    let members = optional(alloc, object, "flow_collection", &CollectionRule)?;
    let essence = read_essence(alloc, object)?;
    Ok(FlowContents {
        tags: tags.unwrap_or(TagList::new(alloc)),
        members: members.unwrap_or(MemberList::new(alloc)),
        essence,
    })
}

/// The id that the path names.
#[derive(Drop)]
struct SameIdRule {
    id: u128,
}

impl Rule<u128> for SameIdRule {
    ghost gives = { λ rule. same_id rule.id };

    ghost is_good = { λ _ _. true };

    fn read(&self, _alloc: Global, value: &Value) -> Result<u128, RuleFault> {
        match value.as_str().and_then(|text| read_id(text.as_bytes())) {
            Some(id) if id == self.id => Ok(id),
            _ => Err(RuleFault::Breach(Breach::WrongKind)),
        }
    }
}

/// The format of a name.
pub fn read_format(name: &[u8]) -> Option<FormatKind>
    ensures { result ≡ spec.format_of name.now }
{
    if name == b"urn:x-nmos:format:video".as_slice() {
        Some(FormatKind::Video)
    } else if name == b"urn:x-nmos:format:audio".as_slice() {
        Some(FormatKind::Audio)
    } else if name == b"urn:x-nmos:format:data".as_slice() {
        Some(FormatKind::DataEssence)
    } else if name == b"urn:x-nmos:format:multi".as_slice() {
        Some(FormatKind::Multi)
    } else if name == b"urn:x-tam:format:image".as_slice() {
        Some(FormatKind::Image)
    } else {
        None
    }
}

/// A format.
#[derive(Drop)]
struct FormatRule;

impl Rule<FormatKind> for FormatRule {
    ghost gives = { λ _. format };

    ghost is_good = { λ _ _. true };

    fn read(&self, _alloc: Global, value: &Value) -> Result<FormatKind, RuleFault> {
        value
            .as_str()
            .and_then(|name| read_format(name.as_bytes()))
            .ok_or(RuleFault::Breach(Breach::WrongKind))
    }
}
