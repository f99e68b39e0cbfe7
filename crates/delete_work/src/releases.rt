//! Segments that go from an index, and the references that go with them.
ghost use Rattle.std.specs.Prelude.{◌≡◌, IfOk, IsTrue};
ghost use Rattle.std.specs.List.{list_all};
ghost use Rattle.media_rows.specs.Objects.{idled};
ghost use Rattle.object_refs.specs.References.{changed_at, objects_in, references_in, refers, released_at};
ghost use Rattle.delete_work.specs.Work.{HasReferences, released_by};
ghost use Rattle.delete_work.specs.Within.Seeking.{are_of, without_starts};

use crate::requested::first_point;
use disk_trait::Memory;
use media_rows::SegmentRow;
use object_refs::ObjectBook;
use segment_index::SegmentIndex;
use std::alloc::Global;

/// The index without the segments that begin where these do.
pub(crate) fn index_without(
    alloc: Global,
    index: &SegmentIndex,
    rows: &[SegmentRow],
) -> Result<SegmentIndex, Memory>
    ensures { IfOk result (λ next. next ≡ without_starts rows.now index.now) }
{
    let mut next = index.share()?;
    for row in rows {
        next = next.remove(alloc, first_point(row))?;
    }
    Ok(next)
}

/// The objects without the references of these segments, which are of one flow.
pub(crate) fn objects_without(
    alloc: Global,
    objects: &ObjectBook,
    flow: u128,
    rows: &[SegmentRow],
    now: u64,
) -> Result<ObjectBook, Memory>
    requires flow { IsTrue (are_of flow rows.now) }
    requires references { HasReferences flow rows.now objects.now.kept }
    ensures book { IfOk result (λ next. next.kept ≡ released_by now rows.now objects.now.kept) }
    ensures idle { IfOk result (λ next. objects_in next.kept
        ≡ idled (references_in objects.now.kept) (references_in next.kept) now
        (objects_in objects.now.kept)) }
{
    let mut next = objects.share(alloc)?;
    for row in rows {
        next.is_in_order();
        next = released(alloc, &next, row, now)?;
    }
    Ok(next)
}

/// The objects without the reference of one segment.
fn released(
    alloc: Global,
    objects: &ObjectBook,
    row: &SegmentRow,
    now: u64,
) -> Result<ObjectBook, Memory>
    requires there { IsTrue
        (refers (references_in objects.now.kept) row.now.segment.object row.now.flow) }
    ensures book { IfOk result (λ next. next.kept
        ≡ changed_at row.now.segment.object (released_at row.now.flow now) objects.now.kept) }
    ensures idle { IfOk result (λ next. objects_in next.kept
        ≡ idled (references_in objects.now.kept) (references_in next.kept) now
        (objects_in objects.now.kept)) }
{
    objects.unrefer(alloc, &row.segment.object, row.flow, now)
}
