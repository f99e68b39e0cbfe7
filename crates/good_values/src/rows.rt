//! What rows hold.
ghost use Rattle.std.specs.Prelude.{◌≡◌, IfOk};
ghost use Rattle.std.specs.List.{list_all};
ghost use Rattle.media_rows.specs.Good.{is_event_text, is_flow_text, is_hook_text, is_object_text, is_request_text, is_source_text};

use crate::texts::{
    are_tag_texts, is_body_text, is_hook_text, is_moment, is_moment_or_none, is_text_or_none,
};
use disk_trait::Memory;
use media_rows::{DeleteRow, EventRow, FlowRow, HookRow, ObjectRow, SourceRow, is_object_id};
use std::alloc::Global;

/// Whether the texts and the moments of sources are good.
pub fn are_sources_good(rows: &[SourceRow]) -> bool
    ensures { result ≡ list_all is_source_text rows.now }
{
    rows.iter().all(|row| is_source_good(row))
}

fn is_source_good(row: &SourceRow) -> bool
    ensures { result ≡ is_source_text row.now }
{
    is_text_or_none(&row.label)
        && is_text_or_none(&row.description)
        && are_tag_texts(row.tags.items())
        && is_moment(row.created)
        && is_moment(row.updated)
}

/// Whether the texts and the moments of flows are good. Memory is asked for essences alone.
pub fn are_flows_good(alloc: Global, rows: &[FlowRow]) -> Result<bool, Memory>
    ensures { IfOk result (λ good. good ≡ list_all is_flow_text rows.now) }
{
    for row in rows {
        if !is_flow_good(alloc, row)? {
            return Ok(false);
        }
    }
    Ok(true)
}

fn is_flow_good(alloc: Global, row: &FlowRow) -> Result<bool, Memory>
    ensures { IfOk result (λ good. good ≡ is_flow_text row.now) }
{
    let texts = is_body_text(alloc, &row.body)?;
    Ok(
        texts
            && is_moment(row.created)
            && is_moment(row.metadata_updated)
            && is_moment_or_none(&row.segments_updated),
    )
}

/// Whether the ids and the moments of objects are good.
pub fn are_objects_good(rows: &[ObjectRow]) -> bool
    ensures { result ≡ list_all is_object_text rows.now }
{
    rows.iter().all(|row| is_object_id(row.id.bytes()) && is_moment(row.idle_since))
}

/// Whether the moments of delete requests are good.
pub fn are_requests_good(rows: &[DeleteRow]) -> bool
    ensures { result ≡ list_all is_request_text rows.now }
{
    rows.iter()
        .all(|row| is_moment(row.created) && is_moment(row.updated))
}

/// Whether the texts of hooks are good.
pub fn are_hooks_good(rows: &[HookRow]) -> bool
    ensures { result ≡ list_all is_hook_text rows.now }
{
    rows.iter().all(|row| is_hook_text(&row.hook))
}

/// Whether the moments of events are good.
pub fn are_events_good(rows: &[EventRow]) -> bool
    ensures { result ≡ list_all is_event_text rows.now }
{
    rows.iter().all(|row| is_moment(row.moment))
}
