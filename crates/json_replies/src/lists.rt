//! Lists that stand in many answers: tags, collections and ids.
ghost use Rattle.std.specs.Prelude.{◌≡◌, ◌++◌, OnOk, map};
ghost use Rattle.json_replies.specs.Shapes.{Appends, list_tokens, members_tokens};
ghost use Rattle.json_replies.specs.Values.{collected_members, collected_value, collection_value, event_value, id_value, tag_member, tag_value, tags_value, value_lists};

use crate::json_text::JsonText;
use crate::shows::{Shows, show_if_set, show_list, show_member};
use crate::values::{Events, Ids, Texts};
use disk_trait::{Memory, TextList};
use media_rows::{EventList, IdList, Member, MemberList, Tag, TagList};
use std::alloc::Global;

/// Tags by their values, without their names.
pub(crate) struct TagValues;

/// Objects of tags.
pub(crate) struct Tags;

/// Flows that another one collects.
pub(crate) struct Collected;

/// Collections of flows.
pub(crate) struct Collections;

/// Lists of ids.
pub(crate) struct IdLists;

/// Lists of events.
pub(crate) struct EventLists;

impl Shows<Tag> for TagValues {
    ghost shown = { λ _. tag_value };

    fn show(&self, alloc: Global, value: &Tag, out: &mut JsonText) -> Result<(), Memory> {
        show_values(alloc, value.single, &value.values, out)
    }
}

/// Appends the values of a tag: the text alone where it is a single one.
fn show_values(
    alloc: Global,
    single: bool,
    values: &TextList,
    out: &mut JsonText,
) -> Result<(), Memory>
    ensures { OnOk result (Appends out.old out.new (value_lists single values.now)) }
{
    match values.items() {
        [value] if single => out.text(value.bytes()),
        items => show_list(alloc, items, &Texts, out),
    }
}

impl Shows<TagList> for Tags {
    ghost shown = { λ _. tags_value };

    fn show(&self, alloc: Global, value: &TagList, out: &mut JsonText) -> Result<(), Memory> {
        out.begin_object()?;
        show_tags(alloc, value.items(), out)?;
        out.end_object()
    }
}

/// Appends tags as members of an object.
#[tactic(auto, unfolding(crate::specs::Shapes::member_tokens))]
fn show_tags(alloc: Global, tags: &[Tag], out: &mut JsonText) -> Result<(), Memory>
    ensures { OnOk result (Appends out.old out.new (members_tokens (map tag_member tags.now))) }
{
    for tag in tags {
        out.name(tag.name.bytes())?;
        show_values(alloc, tag.single, &tag.values, out)?;
    }
    Ok(())
}

impl Shows<Member> for Collected {
    ghost shown = { λ _. collected_value };

    fn show(&self, alloc: Global, value: &Member, out: &mut JsonText) -> Result<(), Memory> {
        out.begin_object()?;
        show_member(alloc, "id", &value.flow, &Ids, out)?;
        show_if_set(alloc, "role", &value.role, &Texts, out)?;
        out.end_object()
    }
}

impl Shows<MemberList> for Collections {
    ghost shown = { λ _. collection_value };

    fn show(&self, alloc: Global, value: &MemberList, out: &mut JsonText) -> Result<(), Memory> {
        show_list(alloc, value.items(), &Collected, out)
    }
}

impl Shows<IdList> for IdLists {
    ghost shown = { λ _. list_tokens id_value };

    fn show(&self, alloc: Global, value: &IdList, out: &mut JsonText) -> Result<(), Memory> {
        show_list(alloc, value.items(), &Ids, out)
    }
}

impl Shows<EventList> for EventLists {
    ghost shown = { λ _. list_tokens event_value };

    fn show(&self, alloc: Global, value: &EventList, out: &mut JsonText) -> Result<(), Memory> {
        show_list(alloc, value.items(), &Events, out)
    }
}
