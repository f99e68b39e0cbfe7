//! Bodies that register a hook.
ghost use Rattle.std.specs.Prelude.{◌≡◌, IfOk, IsTrue, true};
ghost use Rattle.std.specs.List.{list_all};
ghost use Rattle.std.specs.Str.{is_utf8};
ghost use Rattle.serde_json.specs.View.{view};
ghost use Rattle.media_rows.specs.Good.{if_there};
ghost use Rattle.json_bodies.specs.Answers.{Answers};
ghost use Rattle.json_bodies.specs.Hook as spec;
ghost use Rattle.json_bodies.specs.Hook.{address, event_kind_of, events, hook_from, hook_in, has_hook_texts, is_other_event};

use crate::body::{check_object, read_body};
use crate::fault::{BodyFault, Breach, RuleFault};
use crate::kinds::{CountedRule, IdKind, Kind, read_list};
use crate::members::{optional, required};
use crate::rules::{LONGEST_TEXT, Rule, TextRule};
use disk_trait::{Memory, Text};
use media_rows::{EventKind, EventList, Hook};
use serde_json::Value;
use std::alloc::Global;
use url::{ParseError, Url};

/// Bytes of the longest address, as it stands in the body.
const LONGEST_ADDRESS: usize = 2_048;

/// The most flows or sources to which a hook keeps.
const MOST_IDS: usize = 256;

/// The hook that a body spells. Its address is one of http or https, kept as the URL Standard prints it.
/// It is our own profile of the Time-addressable Media Store.
pub fn read_hook(alloc: Global, body: &[u8]) -> Result<Hook, BodyFault>
    ensures answer { Answers (hook_in body.now) result }
    ensures texts { IfOk result (λ hook. IsTrue (has_hook_texts hook)) }
{
    let value = read_body(alloc, body)?;
    check_object(alloc, &value)?;
    hook_of(alloc, &value)
}

fn hook_of(alloc: Global, object: &Value) -> Result<Hook, BodyFault>
    ensures answer { Answers (hook_from (view object.now)) result }
    ensures texts { IfOk result (λ hook. IsTrue (has_hook_texts hook)) }
{
    let text = TextRule { most: LONGEST_TEXT };
    let ids = CountedRule {
        kind: IdKind,
        least: 0,
        most: MOST_IDS,
    };
    Ok(Hook {
        url: required(alloc, object, "url", &AddressRule)?,
        events: required(alloc, object, "events", &EventsRule)?,
        key_name: optional(alloc, object, "api_key_name", &text)?,
        key_value: optional(alloc, object, "api_key_value", &text)?,
        flow_ids: optional(alloc, object, "flow_ids", &ids)?,
        source_ids: optional(alloc, object, "source_ids", &ids)?,
    })
}

/// The address of the web that a text is, as it is printed. An address past the largest size that `url`
/// knows counts as want of memory.
#[tactic(auto, using(crate::proofs::Texts::is_utf8_text))]
fn printed_address(alloc: Global, text: &str) -> Result<Option<Text>, Memory>
    ensures address { IfOk result (λ found. found ≡ spec.printed_address text.now) }
    ensures good { IfOk result (λ found. IsTrue (if_there is_utf8 found)) }
{
    match Url::parse(alloc, text) {
        Ok(url) if url.scheme() == "http" || url.scheme() == "https" => {
            Ok(Some(Text::from_bytes(alloc, url.as_str().as_bytes())?))
        }
        Ok(_) => Ok(None),
        Err(ParseError::OutOfMemory | ParseError::Overflow) => Err(Memory),
        Err(_) => Ok(None),
    }
}

/// An address of the web.
#[derive(Drop)]
struct AddressRule;

impl Rule<Text> for AddressRule {
    ghost gives = { λ _. address };

    ghost is_good = { λ _. is_utf8 };

    fn read(&self, alloc: Global, value: &Value) -> Result<Text, RuleFault> {
        let Some(text) = value.as_str() else {
            return Err(RuleFault::Breach(Breach::WrongKind));
        };
        let Some(printed) = printed_address(alloc, text)? else {
            return Err(RuleFault::Breach(Breach::WrongKind));
        };
        if text.len() > LONGEST_ADDRESS {
            return Err(RuleFault::Breach(Breach::TooLong));
        }
        Ok(printed)
    }
}

/// The event of a name.
fn event_of(name: &str) -> Option<EventKind>
    ensures { result ≡ spec.event_of name.now }
{
    match name {
        "flows/created" => Some(EventKind::FlowCreated),
        "flows/updated" => Some(EventKind::FlowUpdated),
        "flows/deleted" => Some(EventKind::FlowDeleted),
        "flows/segments_added" => Some(EventKind::SegmentsAdded),
        "flows/segments_deleted" => Some(EventKind::SegmentsDeleted),
        "sources/created" => Some(EventKind::SourceCreated),
        "sources/updated" => Some(EventKind::SourceUpdated),
        "sources/deleted" => Some(EventKind::SourceDeleted),
        _ => None,
    }
}

/// The name of an event.
#[derive(Drop)]
struct EventNameKind;

impl Kind<EventKind> for EventNameKind {
    ghost kind_of = { λ _. event_kind_of };

    ghost is_good = { λ _ _. true };

    fn read(&self, _alloc: Global, value: &Value) -> Result<Option<EventKind>, Memory> {
        Ok(value.as_str().and_then(|name| event_of(name)))
    }
}

/// Whether no event stands twice. Among nine one does, so few are compared with all others.
fn are_distinct(kinds: &[EventKind]) -> bool
    ensures { result ≡ spec.are_kinds_distinct kinds.now }
{
    match kinds {
        [] => true,
        [first, rest @ ..] => is_other_than_all(*first, rest) && are_distinct(rest),
    }
}

fn is_other_than_all(kind: EventKind, others: &[EventKind]) -> bool
    ensures { result ≡ list_all (is_other_event kind) others.now }
{
    others.iter().all(|other| kind.number() != other.number())
}

/// Events, of which none stands twice.
#[derive(Drop)]
struct EventsRule;

impl Rule<EventList> for EventsRule {
    ghost gives = { λ _. events };

    ghost is_good = { λ _ _. true };

    fn read(&self, alloc: Global, value: &Value) -> Result<EventList, RuleFault> {
        match read_list(alloc, value, &EventNameKind)? {
            Some(kinds) if are_distinct(kinds.items()) => Ok(kinds),
            _ => Err(RuleFault::Breach(Breach::WrongKind)),
        }
    }
}
