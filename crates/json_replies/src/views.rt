//! What queries show.
ghost use Rattle.std.specs.Prelude.{◌≡◌, OnOk};
ghost use Rattle.json_replies.specs.Replies.{root_names, service_members, view_value};
ghost use Rattle.json_replies.specs.Shapes.{Appends, list_tokens, object_tokens, string_value};

use crate::flows::Flows;
use crate::json_text::JsonText;
use crate::lists::Tags;
use crate::parts::show_part;
use crate::requests::{Hooks, Requests};
use crate::segments::{Segments, show_object};
use crate::shows::{Shows, show_list, show_member, show_word};
use crate::sources::Sources;
use crate::values::Ids;
use disk_trait::{Memory, Text};
use media_rows::View;
use std::alloc::Global;

/// Appends what a view shows, for the store's id and the base of its addresses.
pub(crate) fn show_view(
    alloc: Global,
    view: &View,
    store: u128,
    base: &Text,
    out: &mut JsonText,
) -> Result<(), Memory>
    ensures { OnOk result (Appends out.old out.new (view_value store base.now view.now)) }
{
    match view {
        View::Root => show_root(out),
        View::Service => show_service(alloc, store, out),
        View::Source(row) => Sources.show(alloc, row, out),
        View::Sources(rows, _) => show_list(alloc, rows.items(), &Sources, out),
        View::Flow(flow) => Flows.show(alloc, flow, out),
        View::Flows(flows, _) => show_list(alloc, flows.items(), &Flows, out),
        View::Segments(rows, _) => show_list(alloc, rows.items(), &Segments { base }, out),
        View::Object { row, flows } => show_object(alloc, row, flows, out),
        View::Request(row) => Requests { store }.show(alloc, row, out),
        View::Requests(rows) => show_list(alloc, rows.items(), &Requests { store }, out),
        View::Hooks(hooks) => show_list(alloc, hooks.items(), &Hooks, out),
        View::OnePart(part) => show_part(alloc, part, out),
        View::AllTags(tags) => Tags.show(alloc, tags, out),
    }
}

/// Appends the names of what the store has.
fn show_root(out: &mut JsonText) -> Result<(), Memory>
    ensures { OnOk result (Appends out.old out.new (list_tokens string_value root_names)) }
{
    out.begin_array()?;
    out.string("flow-delete-requests")?;
    out.string("flows")?;
    out.string("objects")?;
    out.string("service")?;
    out.string("sources")?;
    out.end_array()
}

/// Appends what the store says of itself.
fn show_service(alloc: Global, store: u128, out: &mut JsonText) -> Result<(), Memory>
    ensures { OnOk result (Appends out.old out.new (object_tokens (service_members store))) }
{
    out.begin_object()?;
    show_member(alloc, "store_id", &store, &Ids, out)?;
    show_word("type", "tams-profile-1", out)?;
    out.end_object()
}
