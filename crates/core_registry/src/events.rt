//! What changes make happen, in order.
ghost use Rattle.std.specs.Prelude.{◌≡◌, ◌++◌, [], ◌∷◌, IfOk, IsTrue, map, option_copied};
ghost use Rattle.media_rows.specs.declared.event.EventKind.TheVariants.{SegmentsAdded};
ghost use Rattle.media_rows.specs.Events.{flow_event, new_flow_events, put_events, set_events, source_event};
ghost use Rattle.media_rows.specs.Catalog.{after_drop, flow_of};
ghost use Rattle.media_rows.specs.Good.{are_sources_good};
ghost use Rattle.media_rows.specs.Ranges.{hull_of};
ghost use Rattle.core_registry.specs.Going.{ending_events, going_events, hull_event, hull_events, hull_if_any};
ghost use Rattle.core_registry.specs.Within.{gone_if, hull_if_told};

use disk_trait::Memory;
use flow_book::FlowBook;
use media_rows::{
    EventKind, FlowBody, FlowRow, Happened, HappenedList, Segment, SegmentRow, SourceRow,
    range_hull,
};
use std::alloc::Global;
use time_range::TimeRange;

/// The least range that covers the segments of a post, and never where there are none.
#[tactic(auto, using(crate::proofs::Happening::hull_join, crate::proofs::Happening::hull_none))]
pub fn hull_of_posts(posts: &[Segment]) -> TimeRange
    ensures { result ≡ hull_of (map (λ post. post.range) posts.now) }
{
    let mut hull = TimeRange::never();
    for post in posts {
        hull = range_hull(&hull, &post.range);
    }
    hull
}

/// The least range that covers these segments, where there are any.
#[tactic(auto, using(crate::proofs::Happening::hull_join, crate::proofs::Happening::hull_none))]
pub fn hull_if_any(rows: &[SegmentRow]) -> Option<TimeRange>
    ensures { result ≡ hull_if_any rows.now }
{
    if rows.is_empty() {
        return None;
    }
    let mut hull = TimeRange::never();
    for row in rows {
        hull = range_hull(&hull, &row.segment.range);
    }
    Some(hull)
}

/// What a PUT of a flow makes happen.
pub(crate) fn put_events(
    alloc: Global,
    catalog: &FlowBook,
    body: &FlowBody,
) -> Result<HappenedList, Memory>
    ensures { IfOk result (λ list. list ≡ put_events catalog.now body.now) }
{
    match catalog.flow(body.id) {
        None => new_flow_events(alloc, catalog.source(body.source), body),
        Some(_) => one(
            alloc,
            flow_event(EventKind::FlowUpdated, body.id, body.source),
        ),
    }
}

/// A new flow comes, and its source before it where that is new too.
fn new_flow_events(
    alloc: Global,
    source: Option<&SourceRow>,
    body: &FlowBody,
) -> Result<HappenedList, Memory>
    ensures { IfOk result (λ list. list ≡ new_flow_events (option_copied source.entry) body.now) }
{
    let flow = flow_event(EventKind::FlowCreated, body.id, body.source);
    match source {
        None => list_of(
            alloc,
            &[source_event(EventKind::SourceCreated, body.source), flow],
        ),
        Some(_) => list_of(alloc, &[flow]),
    }
}

/// What a part of a flow makes happen: the flow, if it is kept, is updated.
pub(crate) fn set_events(
    alloc: Global,
    catalog: &FlowBook,
    flow: u128,
) -> Result<HappenedList, Memory>
    ensures { IfOk result (λ list. list ≡ set_events catalog.now flow) }
{
    match catalog.flow(flow) {
        None => Ok(HappenedList::new(alloc)),
        Some(row) => one(
            alloc,
            flow_event(EventKind::FlowUpdated, row.body.id, row.body.source),
        ),
    }
}

/// What a part of a source makes happen.
pub(crate) fn source_events(
    alloc: Global,
    kind: EventKind,
    source: u128,
) -> Result<HappenedList, Memory>
    ensures { IfOk result (λ list. list ≡ source_event kind source ∷ []) }
{
    one(alloc, source_event(kind, source))
}

/// What a post makes happen.
pub(crate) fn added_events(
    alloc: Global,
    catalog: &FlowBook,
    flow: u128,
    posts: &[Segment],
) -> Result<HappenedList, Memory>
    ensures { IfOk result (λ list. list ≡ hull_events SegmentsAdded (flow_of flow catalog.now.flows)
        (hull_of (map (λ post. post.range) posts.now))) }
{
    match catalog.flow(flow) {
        None => Ok(HappenedList::new(alloc)),
        Some(row) => one(
            alloc,
            segments_event(EventKind::SegmentsAdded, row, hull_of_posts(posts)),
        ),
    }
}

/// What the going of segments with this hull makes happen, if any go.
pub(crate) fn going_events(
    alloc: Global,
    catalog: &FlowBook,
    flow: u128,
    hull: &Option<TimeRange>,
) -> Result<HappenedList, Memory>
    ensures { IfOk result (λ list. list ≡ going_events catalog.now flow hull.now) }
{
    match (hull, catalog.flow(flow)) {
        (Some(hull), Some(row)) => one(
            alloc,
            segments_event(EventKind::SegmentsDeleted, row, *hull),
        ),
        _ => Ok(HappenedList::new(alloc)),
    }
}

/// What the going of a flow makes happen, where the catalog without it is `left`.
#[tactic(auto, using(crate::proofs::Happening::ending_is, crate::proofs::Happening::ending_none))]
pub(crate) fn ending_events(
    alloc: Global,
    catalog: &FlowBook,
    left: &FlowBook,
    flow: u128,
    hull: &Option<TimeRange>,
) -> Result<HappenedList, Memory>
    requires sources { IsTrue (are_sources_good catalog.now) }
    requires left { left.now ≡ after_drop flow catalog.now }
    ensures { IfOk result (λ list. list ≡ ending_events catalog.now flow hull.now) }
{
    match catalog.flow(flow) {
        None => Ok(HappenedList::new(alloc)),
        Some(row) => {
            let last = left.source(row.body.source).is_none();
            gone_with(alloc, row, hull, last)
        }
    }
}

/// A flow went with segments of this hull, if there were any, and with its source where it was the
/// last.
fn gone_with(
    alloc: Global,
    row: &FlowRow,
    hull: &Option<TimeRange>,
    last: bool,
) -> Result<HappenedList, Memory>
    ensures { IfOk result
        (λ list. list ≡ hull_if_told row.now hull.now ++ gone_if last row.now) }
{
    let flow = flow_event(EventKind::FlowDeleted, row.body.id, row.body.source);
    let source = source_event(EventKind::SourceDeleted, row.body.source);
    match (hull, last) {
        (None, false) => list_of(alloc, &[flow]),
        (None, true) => list_of(alloc, &[flow, source]),
        (Some(hull), false) => {
            let segments = segments_event(EventKind::SegmentsDeleted, row, *hull);
            list_of(alloc, &[segments, flow])
        }
        (Some(hull), true) => {
            let segments = segments_event(EventKind::SegmentsDeleted, row, *hull);
            list_of(alloc, &[segments, flow, source])
        }
    }
}

/// A list of these happenings.
fn list_of(alloc: Global, happened: &[Happened]) -> Result<HappenedList, Memory>
    ensures { IfOk result (λ list. list ≡ happened.now) }
{
    Ok(HappenedList::from_vec(Vec::from_slice(alloc, happened)?))
}

/// A list of one happening.
fn one(alloc: Global, happened: Happened) -> Result<HappenedList, Memory>
    ensures { IfOk result (λ list. list ≡ happened ∷ []) }
{
    list_of(alloc, &[happened])
}

fn flow_event(kind: EventKind, flow: u128, source: u128) -> Happened
    ensures { result ≡ flow_event kind flow source }
{
    Happened {
        kind,
        subject: flow,
        source,
        range: None,
    }
}

fn source_event(kind: EventKind, source: u128) -> Happened
    ensures { result ≡ source_event kind source }
{
    Happened {
        kind,
        subject: source,
        source,
        range: None,
    }
}

/// Segments of a flow came or went, with the hull of them.
fn segments_event(kind: EventKind, row: &FlowRow, hull: TimeRange) -> Happened
    ensures { result ≡ hull_event kind row.now hull }
{
    Happened {
        kind,
        subject: row.body.id,
        source: row.body.source,
        range: Some(hull),
    }
}
