//! Delete requests and hooks.
ghost use Rattle.std.specs.Prelude.{◌≡◌, ◌++◌, IfOk};
ghost use Rattle.json_replies.specs.Rows.{hook_value, request_id, request_value};
ghost use Rattle.json_replies.specs.Shapes.{string_value};

use crate::json_text::JsonText;
use crate::lists::{EventLists, IdLists};
use crate::shows::{Shows, show_if_set, show_member};
use crate::values::{HookStatuses, Ids, Moments, Numbers, Ranges, Statuses, Texts, Truths};
use disk_trait::{Memory, Text};
use itoa::Buffer;
use media_rows::{DeleteRow, HookShown, print_id};
use std::alloc::Global;

/// Delete requests of the store with this id.
#[derive(Drop)]
pub(crate) struct Requests {
    pub(crate) store: u128,
}

/// Serials of delete requests, by the requests' ids.
#[derive(Drop)]
struct RequestIds {
    store: u128,
}

/// Hooks, with the numbers of their waiting events.
pub(crate) struct Hooks;

impl Shows<DeleteRow> for Requests {
    ghost shown = { λ r. request_value r.store };

    #[tactic(auto, unfolding(crate::specs::Rows::request_value))]
    fn show(&self, alloc: Global, row: &DeleteRow, out: &mut JsonText) -> Result<(), Memory> {
        out.begin_object()?;
        show_member(alloc, "created", &row.created, &Moments, out)?;
        show_member(alloc, "delete_flow", &row.delete_flow, &Truths, out)?;
        show_member(alloc, "flow_id", &row.flow, &Ids, out)?;
        show_member(
            alloc,
            "id",
            &row.serial,
            &RequestIds { store: self.store },
            out,
        )?;
        show_member(alloc, "status", &row.status, &Statuses, out)?;
        show_member(alloc, "timerange_to_delete", &row.range, &Ranges, out)?;
        show_member(alloc, "updated", &row.updated, &Moments, out)?;
        out.end_object()
    }
}

impl Shows<u64> for RequestIds {
    ghost shown = { λ r serial. string_value (request_id r.store serial) };

    fn show(&self, alloc: Global, serial: &u64, out: &mut JsonText) -> Result<(), Memory> {
        let id = request_id(alloc, self.store, *serial)?;
        out.text(id.bytes())
    }
}

/// The id of a delete request: the store's id, `-` and the serial.
#[tactic(auto, unfolding(crate::specs::Rows::request_id))]
pub fn request_id(alloc: Global, store: u128, serial: u64) -> Result<Text, Memory>
    ensures { IfOk result (λ text. text ≡ request_id store serial) }
{
    let mut text = print_id(alloc, store)?;
    text.push(b'-')?;
    let mut buffer = Buffer::new();
    text.append(buffer.format(serial).as_bytes())?;
    Ok(text)
}

impl Shows<HookShown> for Hooks {
    ghost shown = { λ _. hook_value };

    #[tactic(auto, unfolding(crate::specs::Rows::hook_value))]
    fn show(&self, alloc: Global, shown: &HookShown, out: &mut JsonText) -> Result<(), Memory> {
        let hook = &shown.row.hook;
        out.begin_object()?;
        show_if_set(alloc, "api_key_name", &hook.key_name, &Texts, out)?;
        show_member(alloc, "events", &hook.events, &EventLists, out)?;
        show_if_set(alloc, "flow_ids", &hook.flow_ids, &IdLists, out)?;
        show_if_set(alloc, "source_ids", &hook.source_ids, &IdLists, out)?;
        show_member(alloc, "status", &shown.row.failed, &HookStatuses, out)?;
        show_member(alloc, "url", &hook.url, &Texts, out)?;
        show_member(alloc, "waiting", &shown.waiting, &Numbers, out)?;
        out.end_object()
    }
}
