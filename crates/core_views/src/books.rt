//! What is shown of sources and flows, of delete requests and of hooks.
ghost use Rattle.std.specs.Prelude.{◌≡◌, IfOk, Ok, filter, map, take};
ghost use Rattle.media_rows.specs.declared.refusal.Refusal.TheVariants.{NoFlow, NoRequest, NoSource};
ghost use Rattle.media_rows.specs.declared.reply.View.TheVariants as views;
ghost use Rattle.media_rows.specs.Catalog.{flow_of, source_of};
ghost use Rattle.media_rows.specs.Requests.{request_of};
ghost use Rattle.media_rows.specs.Views.{flow_part, kept_or, passes_source, shown_sources, source_key, source_part};
ghost use Rattle.shared_tree.specs.Pairs.{values_of};
ghost use Rattle.webhook_outbox.specs.Posting.{shown_in};
ghost use Rattle.core_views.specs.Pages.{key_behind};
ghost use Rattle.core_views.specs.Shown.{IsShown};

use crate::pages::{first_rows, id_before, key_behind, rows_past};
use crate::parts::{flow_part, source_part};
use delete_work::DeleteBook;
use disk_trait::{Duplicate, Memory};
use flow_book::FlowBook;
use media_rows::{BookFault, Page, PartName, Refusal, SourceFilter, SourceList, SourceRow, View};
use std::alloc::Global;
use webhook_outbox::Outbox;

/// A source, or `NoSource`.
pub fn source_view(alloc: Global, catalog: &FlowBook, id: u128) -> Result<View, BookFault>
    ensures { IsShown (kept_or NoSource (λ row. Ok (views.Source row))
        (source_of id catalog.now.sources)) result }
{
    match catalog.source(id) {
        None => Err(BookFault::Refused(Refusal::NoSource)),
        Some(row) => Ok(View::Source(row.duplicate(alloc)?)),
    }
}

/// A page of the sources that pass, with the key of the next one.
pub fn sources_view(
    alloc: Global,
    catalog: &FlowBook,
    wanted: &SourceFilter,
    page: &Page,
) -> Result<View, Memory>
    ensures { IfOk result (λ view. view
        ≡ shown_sources page.now (filter (passes_source wanted.now) catalog.now.sources)) }
{
    let listed = catalog.list_sources(alloc, wanted, id_before(page))?;
    let past = rows_past(alloc, listed.items(), page)?;
    source_page(alloc, &past, page.limit)
}

/// The page of the first so many sources, with the key of the next one where there are more.
fn source_page(alloc: Global, rows: &[&SourceRow], limit: u64) -> Result<View, Memory>
    ensures { IfOk result (λ view. view ≡ views.Sources (take limit (values_of rows.now))
        (key_behind source_key limit (values_of rows.now))) }
{
    let page = first_rows(rows, limit);
    let mut list = SourceList::new(alloc);
    for row in page {
        list.push(row.duplicate(alloc)?)?;
    }
    Ok(View::Sources(list, key_behind(rows, limit)))
}

/// A part of a source, or `NoSource`, or `NotSet`.
pub fn source_part_view(
    alloc: Global,
    catalog: &FlowBook,
    id: u128,
    name: &PartName,
) -> Result<View, BookFault>
    ensures { IsShown (kept_or NoSource (λ row. source_part row name.now)
        (source_of id catalog.now.sources)) result }
{
    match catalog.source(id) {
        None => Err(BookFault::Refused(Refusal::NoSource)),
        Some(row) => source_part(alloc, row, name),
    }
}

/// A part of a flow, or `NoFlow`, or `NotSet`.
pub fn flow_part_view(
    alloc: Global,
    catalog: &FlowBook,
    id: u128,
    name: &PartName,
) -> Result<View, BookFault>
    ensures { IsShown (kept_or NoFlow (λ row. flow_part row.body name.now)
        (flow_of id catalog.now.flows)) result }
{
    match catalog.flow(id) {
        None => Err(BookFault::Refused(Refusal::NoFlow)),
        Some(row) => flow_part(alloc, &row.body, name),
    }
}

/// A delete request, or `NoRequest`.
pub fn request_view(requests: &DeleteBook, serial: u64) -> Result<View, BookFault>
    ensures { IsShown (kept_or NoRequest (λ row. Ok (views.Request row))
        (request_of serial requests.now)) result }
{
    match requests.find(serial) {
        None => Err(BookFault::Refused(Refusal::NoRequest)),
        Some(row) => Ok(View::Request(*row)),
    }
}

/// All delete requests, by rising serial.
pub fn requests_view(alloc: Global, requests: &DeleteBook) -> Result<View, Memory>
    ensures { IfOk result (λ view. view ≡ views.Requests requests.now) }
{
    Ok(View::Requests(requests.list(alloc)?))
}

/// All hooks by rising serial, each with the number of its waiting events.
pub fn hooks_view(alloc: Global, outbox: &Outbox) -> Result<View, Memory>
    ensures { IfOk result (λ view. view
        ≡ views.Hooks (map (shown_in outbox.now) outbox.now.hooks)) }
{
    Ok(View::Hooks(outbox.shown_hooks(alloc)?))
}
