//! The rows of each kind, one kind behind the other.
ghost use Rattle.std.specs.Prelude.{◌≡◌, ◌++◌, ◌∷◌, [], IfOk, OnOk, map};
ghost use Rattle.media_rows.specs.declared.row.Row.TheVariants as rows;
ghost use Rattle.media_rows.specs.Lists.{in_order};
ghost use Rattle.media_rows.specs.Snapshot.{rows_of, segment_row_before};
ghost use Rattle.core_rows.specs.Texts.{AddsRows};

use core_parts::Parts;
use core_registry::Registry;
use core_rows::{append_next_serial, append_rows};
use disk_trait::{Memory, Text};
use flow_book::FlowBook;
use media_book::MediaBook;
use media_rows::{FlowFilter, FlowList, ObjectRow, SourceFilter, SourceList, TagTests};
use std::alloc::Global;

/// The text of all rows of a library: by kind, then sources and flows by id, segments by flow and first point, all
/// else by serial, and the next serial last. A row that has no spelling is want of memory.
pub fn snapshot_text(alloc: Global, parts: &Parts) -> Result<Text, Memory>
    ensures { IfOk result (AddsRows [] (rows_of parts.now.library)) }
{
    let objects = parts.media().object_rows(alloc)?;
    snapshot_text_with(alloc, parts, objects.items())
}

/// The same, with these rows in place of those of the library's objects.
pub fn snapshot_text_with(
    alloc: Global,
    parts: &Parts,
    objects: &[ObjectRow],
) -> Result<Text, Memory>
    ensures { IfOk result
        (AddsRows [] (rows_of (record parts.now.library { objects = objects.now }))) }
{
    let mut text = Text::new(alloc);
    append_catalog(alloc, parts.registry().catalog(), &mut text)?;
    append_media(alloc, parts.media(), objects, &mut text)?;
    append_others(alloc, parts.registry(), &mut text)?;
    Ok(text)
}

/// Adds the text of sources and of flows.
fn append_catalog(alloc: Global, catalog: &FlowBook, text: &mut Text) -> Result<(), Memory>
    ensures { OnOk result (AddsRows text.old
        (map rows.Source catalog.now.sources ++ map rows.Flow catalog.now.flows) text.new) }
{
    let sources = all_sources(alloc, catalog)?;
    append_rows(alloc, sources.items(), text)?;
    let flows = all_flows(alloc, catalog)?;
    append_rows(alloc, flows.items(), text)
}

/// Adds the text of these objects, and of segments.
fn append_media(
    alloc: Global,
    media: &MediaBook,
    objects: &[ObjectRow],
    text: &mut Text,
) -> Result<(), Memory>
    ensures { OnOk result (AddsRows text.old
        (map rows.Object objects.now
        ++ map rows.Segment (in_order segment_row_before media.now.media.segments)) text.new) }
{
    append_rows(alloc, objects, text)?;
    let segments = media.segment_rows(alloc)?;
    append_rows(alloc, segments.items(), text)
}

/// Adds the text of delete requests, of hooks and waiting events, and of the next serial.
fn append_others(alloc: Global, registry: &Registry, text: &mut Text) -> Result<(), Memory>
    ensures { OnOk result (AddsRows text.old
        (map rows.Request registry.now.requests ++ map rows.Hook registry.now.outbox.hooks
        ++ map rows.Event registry.now.outbox.events
        ++ rows.Numbers registry.now.next_serial ∷ []) text.new) }
{
    let requests = registry.requests().list(alloc)?;
    append_rows(alloc, requests.items(), text)?;
    let hooks = registry.outbox().hooks(alloc)?;
    append_rows(alloc, hooks.items(), text)?;
    let events = registry.outbox().waiting(alloc)?;
    append_rows(alloc, events.items(), text)?;
    append_next_serial(alloc, registry.next_serial(), text)
}

/// All sources, by rising id.
fn all_sources(alloc: Global, catalog: &FlowBook) -> Result<SourceList, Memory>
    ensures { IfOk result (λ list. list ≡ catalog.now.sources) }
{
    let any = SourceFilter {
        format: None,
        label: None,
        tags: TagTests::new(alloc),
    };
    catalog.list_sources(alloc, &any, None)
}

/// All flows, by rising id.
fn all_flows(alloc: Global, catalog: &FlowBook) -> Result<FlowList, Memory>
    ensures { IfOk result (λ list. list ≡ catalog.now.flows) }
{
    let any = FlowFilter {
        source: None,
        format: None,
        codec: None,
        label: None,
        tags: TagTests::new(alloc),
    };
    catalog.list_flows(alloc, &any, None)
}
