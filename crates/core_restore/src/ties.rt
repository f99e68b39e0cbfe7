//! What rows of one kind say of those of another.
ghost use Rattle.std.specs.Prelude.{◌≡◌, IfOk, IsTrue};
ghost use Rattle.std.specs.List.{list_all};
ghost use Rattle.media_rows.specs.Collections.{is_kept};
ghost use Rattle.media_rows.specs.Good.{is_after_segments, is_request_good, rises_by};
ghost use Rattle.media_rows.specs.Requests.{is_done};
ghost use Rattle.core_restore.specs.Within.{AreLast, are_tied};

use disk_trait::Memory;
use flow_book::FlowBook;
use good_values::is_eternity;
use id_index::{row_at, with_row};
use media_rows::{DeleteRow, DeleteStatus, SegmentRow};
use shared_tree::Version;
use std::alloc::Global;

/// Whether the flows of segments are kept, and delete requests are good. Segments stand by rising serial.
pub(crate) fn are_tied(
    alloc: Global,
    catalog: &FlowBook,
    segments: &[SegmentRow],
    requests: &[DeleteRow],
) -> Result<bool, Memory>
    requires rising { IsTrue (rises_by (λ row. row.serial) segments.now) }
    ensures { IfOk result
        (λ tied. tied ≡ are_tied catalog.now.flows segments.now requests.now) }
{
    if !are_flows_kept(catalog, segments) {
        return Ok(false);
    }
    let last = last_serials(alloc, segments)?;
    Ok(are_requests_good(catalog, segments, &last, requests))
}

/// Whether the flow of each segment is kept.
fn are_flows_kept(catalog: &FlowBook, segments: &[SegmentRow]) -> bool
    ensures { result ≡ list_all (λ row. is_kept catalog.now.flows row.flow) segments.now }
{
    segments.iter().all(|row| is_kept(catalog, row.flow))
}

/// Whether a flow is kept.
fn is_kept(catalog: &FlowBook, flow: u128) -> bool
    ensures { result ≡ is_kept catalog.now.flows flow }
{
    catalog.flow(flow).is_some()
}

/// The serials of the last segments of flows, where segments stand by rising serial.
fn last_serials(alloc: Global, segments: &[SegmentRow]) -> Result<Version<u64>, Memory>
    requires rising { IsTrue (rises_by (λ row. row.serial) segments.now) }
    ensures { IfOk result (λ last. AreLast segments.now last) }
{
    let mut last = Version::empty();
    for row in segments {
        last = with_row(alloc, &last, row.flow, row.serial)?;
    }
    Ok(last)
}

/// Whether delete requests are good by the flows and by the last segments of flows.
fn are_requests_good(
    catalog: &FlowBook,
    segments: &[SegmentRow],
    last: &Version<u64>,
    requests: &[DeleteRow],
) -> bool
    requires last { AreLast segments.now last.now }
    ensures { result
        ≡ list_all (is_request_good catalog.now.flows segments.now) requests.now }
{
    for row in requests {
        if !is_request_good(catalog, segments, last, row) {
            return false;
        }
    }
    true
}

fn is_request_good(
    catalog: &FlowBook,
    segments: &[SegmentRow],
    last: &Version<u64>,
    row: &DeleteRow,
) -> bool
    requires last { AreLast segments.now last.now }
    ensures { result ≡ is_request_good catalog.now.flows segments.now row.now }
{
    if is_done(row) {
        return true;
    }
    if !is_kept(catalog, row.flow) {
        return false;
    }
    !row.delete_flow || (is_eternity(&row.range) && is_after_segments(segments, last, row))
}

/// Whether a request was made after each segment of its flow, by the last one.
fn is_after_segments(segments: &[SegmentRow], last: &Version<u64>, row: &DeleteRow) -> bool
    requires last { AreLast segments.now last.now }
    ensures { result ≡ is_after_segments segments.now row.now }
{
    match row_at(last, row.flow) {
        Some(serial) => *serial < row.serial,
        None => true,
    }
}

/// Whether a delete request is worked off, or its flow is gone.
fn is_done(row: &DeleteRow) -> bool
    ensures { result ≡ is_done row.now.status }
{
    match row.status {
        DeleteStatus::Created | DeleteStatus::Started => false,
        DeleteStatus::Done => true,
    }
}
