//! A delete request and its step.
use delete_work::DeleteBook;
use disk_trait::Memory;
use media_rows::Deletion;
use object_refs::ObjectBook;
use segment_index::SegmentIndex;
use std::alloc::Global;
use time_range::TimeRange;

/// How many segments a step removes of a flow that has none, and whether it was the last one.
fn stepped(alloc: Global) -> Result<(usize, bool), Memory> {
    let asked = Deletion {
        flow: 7,
        range: TimeRange::eternity(),
        delete_flow: true,
    };
    let book = DeleteBook::empty().request(alloc, &asked, 40, 100)?;
    let step = book.step(alloc, &SegmentIndex::empty(), &ObjectBook::empty(), 200)?;
    Ok((step.removed.items().len(), step.finished))
}

#[test]
fn a_request_without_segments_is_done_at_once(rt: HostRuntime) {
    assert_eq!(rt; stepped(rt.alloc()).ok(), Some((0, true)));
}
