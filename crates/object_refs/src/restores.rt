//! Trees that are made from rows.
ghost use Rattle.std.specs.Prelude.{◌≡◌, ◌&&◌, is_none, not};
ghost use Rattle.std.specs.List.{list_all};
ghost use Rattle.media_rows.specs.Objects.{is_stored_object, object_of};
ghost use Rattle.media_rows.specs.Refusals.{Restores};
ghost use Rattle.object_refs.specs.References.{changed_at, objects_in, referred};
ghost use Rattle.object_refs.specs.Within.Books.{are_names_distinct, bare_objects, has_serial, referring, with_new_object};

use crate::names::id_number;
use crate::trees::ObjectTrees;
use disk_trait::Duplicate;
use media_rows::{ApplyFault, BookFault, ObjectRow, SegmentRow};
use std::alloc::Global;

/// The trees of these objects, to which nothing refers. The last one is put first.
pub(crate) fn gathered(alloc: Global, objects: &[ObjectRow]) -> Result<ObjectTrees, ApplyFault>
    ensures { Restores (are_names_distinct objects.now) (bare_objects objects.now) result }
{
    let mut book = ObjectTrees::empty();
    for placed in 0..objects.len() {
        match with_object(alloc, &book, &objects[objects.len() - 1 - placed]) {
            Ok(next) => book = next,
            Err(fault) => return Err(fault),
        }
    }
    Ok(book)
}

/// The trees with an object more, whose id and serial are new.
fn with_object(
    alloc: Global,
    book: &ObjectTrees,
    row: &ObjectRow,
) -> Result<ObjectTrees, ApplyFault>
    ensures { Restores
        (is_none (object_of row.now.id (objects_in book.now))
        && not (has_serial row.now.serial book.now))
        (with_new_object row.now book.now) result }
{
    let number = id_number(&row.id);
    if book.has_id(number, &row.id) || book.has_serial(row.serial) {
        return Err(ApplyFault::Refused);
    }
    Ok(book.with_row(alloc, number, row.duplicate(alloc)?)?)
}

/// The trees with the references of these segments. The last one comes first.
pub(crate) fn referred_by(
    alloc: Global,
    bare: &ObjectTrees,
    segments: &[SegmentRow],
) -> Result<ObjectTrees, ApplyFault>
    ensures { Restores
        (list_all (λ s. is_stored_object (objects_in bare.now) s.segment.object) segments.now)
        (referring segments.now bare.now) result }
{
    let mut book = bare.share()?;
    for passed in 0..segments.len() {
        match with_segment(alloc, &book, &segments[segments.len() - 1 - passed]) {
            Ok(next) => book = next,
            Err(fault) => return Err(fault),
        }
    }
    Ok(book)
}

/// The trees with the reference of one segment more.
fn with_segment(
    alloc: Global,
    book: &ObjectTrees,
    row: &SegmentRow,
) -> Result<ObjectTrees, ApplyFault>
    ensures { Restores (is_stored_object (objects_in book.now) row.now.segment.object)
        (changed_at row.now.segment.object (referred row.now.flow) book.now) result }
{
    match book.refer(alloc, &row.segment.object, row.flow) {
        Ok(next) => Ok(next),
        Err(BookFault::Refused(_)) => Err(ApplyFault::Refused),
        Err(BookFault::Memory) => Err(ApplyFault::Memory),
    }
}
