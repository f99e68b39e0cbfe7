//! The text of an event: compact JSON (RFC 8259), with keys in byte order.
ghost use Rattle.std.specs.Prelude.{◌≡◌, IfOk, IsTrue, OnOk, codes};
ghost use Rattle.time_range.specs.Printing.{canonical_range_text};
ghost use Rattle.media_rows.specs.Formats.{event_name};
ghost use Rattle.media_rows.specs.Good.{is_event_text};
ghost use Rattle.media_rows.specs.Outbox.{is_of_source};
ghost use Rattle.json_replies.specs.Shapes.{always, member_tokens, members_tokens, object_tokens, string_value, where_set};
ghost use Rattle.json_replies.specs.Values.{range_value};
ghost use Rattle.hook_delivery.specs.Posting as spec;
ghost use Rattle.hook_delivery.specs.Posting.{event_marks, event_members, subject_members, subject_name};
ghost use Rattle.hook_delivery.specs.Within.Adding.{Adds};

use disk_trait::{Memory, Text};
use json::Writer;
use json_replies::request_id;
use media_rows::{EventKind, EventRow, moment_text, print_id};
use std::alloc::Global;
use std::str;
use time_range::{TimeRange, print_range};

/// The text of an event. `store` is the store's id.
#[tactic(auto, unfolding(crate::specs::Posting::event_text))]
pub(crate) fn event_text(alloc: Global, event: &EventRow, store: u128) -> Result<Text, Memory>
    requires { IsTrue (is_event_text event.now) }
    ensures { IfOk result (λ text. text ≡ spec.event_text store event.now) }
{
    let mut out = Writer::new(Vec::new(alloc));
    write_event(alloc, &mut out, event, store)?;
    Ok(Text::from_vec(out.into_inner()))
}

/// Adds an event.
fn write_event(alloc: Global, out: &mut Writer, event: &EventRow, store: u128) -> Result<(), Memory>
    requires { IsTrue (is_event_text event.now) }
    ensures { OnOk result (Adds out.old out.new (object_tokens (event_members store event.now))) }
{
    out.begin_object()?;
    write_subject(alloc, out, event)?;
    write_marks(alloc, out, event, store)?;
    out.end_object()?;
    Ok(())
}

/// Adds an event's id, its moment and its kind.
fn write_marks(alloc: Global, out: &mut Writer, event: &EventRow, store: u128) -> Result<(), Memory>
    requires { IsTrue (is_event_text event.now) }
    ensures { OnOk result (Adds out.old out.new (members_tokens (event_marks store event.now))) }
{
    let id = request_id(alloc, store, event.serial)?;
    let moment = moment_text(alloc, event.moment)?;
    write_member(out, "event_id", id.bytes())?;
    write_member(out, "event_timestamp", moment.bytes())?;
    write_member(out, "event_type", event_name(event.kind).as_bytes())
}

/// Adds the member that tells what happened to which flow or source.
#[tactic(auto, unfolding(json_replies::specs::Shapes::member_tokens))]
fn write_subject(alloc: Global, out: &mut Writer, event: &EventRow) -> Result<(), Memory>
    ensures { OnOk result (Adds out.old out.new
        (member_tokens (always (codes "event") (object_tokens (subject_members event.now))))) }
{
    let id = print_id(alloc, event.subject)?;
    out.key("event")?;
    out.begin_object()?;
    write_member(out, subject_name(event.kind), id.bytes())?;
    write_range(alloc, out, &event.range)?;
    out.end_object()?;
    Ok(())
}

/// Adds a range, where there is one.
#[tactic(auto, unfolding(json_replies::specs::Shapes::member_tokens))]
fn write_range(alloc: Global, out: &mut Writer, range: &Option<TimeRange>) -> Result<(), Memory>
    ensures { OnOk result (Adds out.old out.new
        (member_tokens (where_set (codes "timerange") range_value range.now))) }
{
    match range {
        Some(range) => {
            let text = range_text(alloc, range)?;
            write_member(out, "timerange", text.bytes())
        }
        None => Ok(()),
    }
}

/// Adds a member whose value is a text in UTF-8, as each text of an event is. Another one would be answered as
/// want of memory.
#[tactic(auto, unfolding(json_replies::specs::Shapes::member_tokens))]
fn write_member(out: &mut Writer, name: &str, text: &[u8]) -> Result<(), Memory>
    ensures { OnOk result (Adds out.old out.new
        (member_tokens (always name.now (string_value text.now)))) }
{
    match str::from_utf8(text) {
        Ok(text) => {
            out.key(name)?;
            out.string(text)?;
            Ok(())
        }
        Err(_) => Err(Memory),
    }
}

/// The canonical text of a range.
fn range_text(alloc: Global, range: &TimeRange) -> Result<Text, Memory>
    ensures { IfOk result (λ text. text ≡ canonical_range_text range.now) }
{
    let mut printed = Vec::new(alloc);
    match print_range(range, &mut printed) {
        Ok(()) => Ok(Text::from_vec(printed)),
        Err(_) => Err(Memory),
    }
}

/// The name of the member that has the id of an event's subject.
fn subject_name(kind: EventKind) -> &'static str
    ensures { result.now ≡ subject_name kind }
{
    if is_of_source(kind) {
        "source_id"
    } else {
        "flow_id"
    }
}

/// Whether an event is one of a source.
fn is_of_source(kind: EventKind) -> bool
    ensures { result ≡ is_of_source kind }
{
    matches!(
        kind,
        EventKind::SourceCreated | EventKind::SourceUpdated | EventKind::SourceDeleted
    )
}

fn event_name(kind: EventKind) -> &'static str
    ensures { result.now ≡ event_name kind }
{
    match kind {
        EventKind::FlowCreated => "flows/created",
        EventKind::FlowUpdated => "flows/updated",
        EventKind::FlowDeleted => "flows/deleted",
        EventKind::SegmentsAdded => "flows/segments_added",
        EventKind::SegmentsDeleted => "flows/segments_deleted",
        EventKind::SourceCreated => "sources/created",
        EventKind::SourceUpdated => "sources/updated",
        EventKind::SourceDeleted => "sources/deleted",
    }
}
