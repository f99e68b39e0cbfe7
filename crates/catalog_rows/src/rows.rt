//! Rows that a change makes of what was kept.
ghost use Rattle.std.specs.Prelude.{◌≡◌, ◌==◌, IfOk, filter, not, option_copied};
ghost use Rattle.media_rows.specs.Catalog.{new_source, put_row, set_row, set_source_row, touched};
ghost use Rattle.media_rows.specs.Collections.{member_ids, without_entries};
ghost use Rattle.catalog_rows.specs.Answers.{Computes};

use crate::parts::{body_with, source_with};
use disk_trait::{Duplicate, Memory};
use media_rows::{FlowBody, FlowRow, Member, MemberList, Part, SourceRow, TagList};
use std::alloc::Global;

/// The row of a flow that is put at a moment, in seconds since 1970-01-01T00:00:00Z, in place of the
/// kept one if there is one.
pub fn put_row(
    alloc: Global,
    old: Option<&FlowRow>,
    body: &FlowBody,
    now: u64,
) -> Result<FlowRow, Memory>
    ensures { Computes result (put_row (option_copied old.entry) body.now now) }
{
    let body = body.duplicate(alloc)?;
    match old {
        None => Ok(FlowRow {
            body,
            created: now,
            metadata_updated: now,
            segments_updated: None,
        }),
        Some(kept) => Ok(FlowRow {
            body,
            created: kept.created,
            metadata_updated: now,
            segments_updated: kept.segments_updated,
        }),
    }
}

/// The source that a flow makes where it is the first under it. The moment is as in `put_row`.
pub fn new_source(alloc: Global, body: &FlowBody, now: u64) -> SourceRow
    ensures { result ≡ new_source body.now now }
{
    SourceRow {
        id: body.source,
        format: body.format,
        label: None,
        description: None,
        tags: TagList::new(alloc),
        created: now,
        updated: now,
    }
}

/// A flow with one part set or cleared at a moment, as in `put_row`.
pub fn set_row(alloc: Global, row: &FlowRow, part: &Part, now: u64) -> Result<FlowRow, Memory>
    ensures { Computes result (set_row part.now now row.now) }
{
    Ok(FlowRow {
        body: body_with(alloc, part, &row.body)?,
        created: row.created,
        metadata_updated: now,
        segments_updated: row.segments_updated,
    })
}

/// A source with one part set or cleared at a moment, as in `put_row`. The parts that it hasn't change
/// nothing but the moment.
pub fn set_source_row(
    alloc: Global,
    row: &SourceRow,
    part: &Part,
    now: u64,
) -> Result<SourceRow, Memory>
    ensures { Computes result (set_source_row part.now now row.now) }
{
    let mut next = source_with(alloc, part, row)?;
    next.updated = now;
    Ok(next)
}

/// A flow whose segments changed at a moment, as in `put_row`.
pub fn touched(alloc: Global, row: &FlowRow, now: u64) -> Result<FlowRow, Memory>
    ensures { Computes result (touched now row.now) }
{
    let mut next = row.duplicate(alloc)?;
    next.segments_updated = Some(now);
    Ok(next)
}

/// A flow without its entries of one.
pub fn without_entries(alloc: Global, row: &FlowRow, id: u128) -> Result<FlowRow, Memory>
    ensures { Computes result (without_entries id row.now) }
{
    let mut next = row.duplicate(alloc)?;
    next.body.members = members_without(alloc, row.body.members.items(), id)?;
    Ok(next)
}

fn members_without(alloc: Global, members: &[Member], id: u128) -> Result<MemberList, Memory>
    ensures { Computes result (filter (λ m. not (m.flow == id)) members.now) }
{
    let mut list = MemberList::new(alloc);
    for member in members {
        if member.flow != id {
            list.push(member.duplicate(alloc)?)?;
        }
    }
    Ok(list)
}

/// The flows that these entries collect, in the order of the entries.
pub fn member_ids(alloc: Global, members: &[Member]) -> Result<Vec<u128>, Memory>
    ensures { IfOk result (λ ids. ids.items ≡ member_ids members.now) }
{
    let mut ids = Vec::new(alloc);
    for member in members {
        ids.push(member.flow)?;
    }
    Ok(ids)
}
