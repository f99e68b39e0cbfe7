//! Flows.
ghost use Rattle.std.specs.Prelude.{◌≡◌, ◌++◌, OnOk};
ghost use Rattle.json_replies.specs.Rows.{flow_first, flow_last, flow_middle, flow_value};
ghost use Rattle.json_replies.specs.Shapes.{Appends, members_tokens};

use crate::json_text::JsonText;
use crate::lists::{Collections, Tags};
use crate::shows::{Shows, show_if_any, show_if_set, show_member};
use crate::values::{Formats, Ids, Moments, Numbers, Ranges, Texts, Truths, Verbatim};
use disk_trait::Memory;
use media_rows::{FlowRow, FlowShown};
use std::alloc::Global;

/// Flows, with the hulls of their segments.
pub(crate) struct Flows;

impl Shows<FlowShown> for Flows {
    ghost shown = { λ _. flow_value };

    #[tactic(auto, unfolding(crate::specs::Rows::flow_value))]
    fn show(&self, alloc: Global, flow: &FlowShown, out: &mut JsonText) -> Result<(), Memory> {
        out.begin_object()?;
        show_first(alloc, &flow.row, out)?;
        show_middle(alloc, &flow.row, out)?;
        show_last(alloc, flow, out)?;
        out.end_object()
    }
}

/// Appends the first members of a flow.
fn show_first(alloc: Global, row: &FlowRow, out: &mut JsonText) -> Result<(), Memory>
    ensures { OnOk result (Appends out.old out.new (members_tokens (flow_first row.now))) }
{
    let flow = &row.body;
    show_if_set(alloc, "avg_bit_rate", &flow.avg_bit_rate, &Numbers, out)?;
    show_if_set(alloc, "codec", &flow.codec, &Texts, out)?;
    show_if_set(alloc, "container", &flow.container, &Texts, out)?;
    show_member(alloc, "created", &row.created, &Moments, out)?;
    show_if_set(alloc, "description", &flow.description, &Texts, out)?;
    show_if_set(alloc, "essence_parameters", &flow.essence, &Verbatim, out)
}

/// Appends the members in the middle.
fn show_middle(alloc: Global, row: &FlowRow, out: &mut JsonText) -> Result<(), Memory>
    ensures { OnOk result (Appends out.old out.new (members_tokens (flow_middle row.now))) }
{
    let flow = &row.body;
    show_if_any(alloc, "flow_collection", &flow.members, &Collections, out)?;
    show_member(alloc, "format", &flow.format, &Formats, out)?;
    show_member(alloc, "id", &flow.id, &Ids, out)?;
    show_if_set(alloc, "label", &flow.label, &Texts, out)?;
    show_if_set(alloc, "max_bit_rate", &flow.max_bit_rate, &Numbers, out)?;
    show_member(
        alloc,
        "metadata_updated",
        &row.metadata_updated,
        &Moments,
        out,
    )
}

/// Appends the last members.
fn show_last(alloc: Global, flow: &FlowShown, out: &mut JsonText) -> Result<(), Memory>
    ensures { OnOk result (Appends out.old out.new (members_tokens (flow_last flow.now))) }
{
    let row = &flow.row;
    show_member(alloc, "read_only", &row.body.read_only, &Truths, out)?;
    show_if_set(
        alloc,
        "segments_updated",
        &row.segments_updated,
        &Moments,
        out,
    )?;
    show_member(alloc, "source_id", &row.body.source, &Ids, out)?;
    show_if_any(alloc, "tags", &row.body.tags, &Tags, out)?;
    show_member(alloc, "timerange", &flow.hull, &Ranges, out)
}
