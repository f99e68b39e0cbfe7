//! The sweep of objects that no segment names.
ghost use Rattle.std.specs.Prelude.{◌≡◌, ◌≤◌, IfOk, length};
ghost use Rattle.media_rows.specs.Objects.{sweep_size, swept_objects, without_objects};
ghost use Rattle.object_refs.specs.References.{objects_in, references_in};
ghost use Rattle.delete_work.specs.Work.{without_swept};

use disk_trait::{Duplicate, Memory};
use media_rows::ObjectList;
use object_refs::ObjectBook;
use std::alloc::Global;

/// The most objects that one sweep removes.
const SWEEP_SIZE: usize = 16;

/// What a sweep leaves, and which objects went, in the order in which they did.
#[derive(Drop)]
pub struct Swept {
    pub objects: ObjectBook,
    pub gone: ObjectList,
}

/// Removes the first 16 objects that are due: those that no segment names and that are idle for a day, by the
/// moment since which they are, and then by serial.
pub fn sweep_step(alloc: Global, objects: &ObjectBook, now: u64) -> Result<Swept, Memory>
    ensures gone { IfOk result (λ swept. swept.gone
        ≡ swept_objects (references_in objects.now.kept) (objects_in objects.now.kept) now) }
    ensures few { IfOk result (λ swept. length swept.gone ≤ sweep_size) }
    ensures left { IfOk result
        (λ swept. swept.objects.kept ≡ without_swept swept.gone objects.now.kept) }
    ensures rows { IfOk result (λ swept. objects_in swept.objects.kept
        ≡ without_objects swept.gone (objects_in objects.now.kept)) }
    ensures references { IfOk result
        (λ swept. references_in swept.objects.kept ≡ references_in objects.now.kept) }
{
    let mut left = objects.share(alloc)?;
    let mut gone = ObjectList::new(alloc);
    for _taken in 0..SWEEP_SIZE {
        left.is_in_order();
        let Some(first) = left.first_idle(now) else {
            return Ok(Swept {
                objects: left,
                gone,
            });
        };
        gone.push(first.duplicate(alloc)?)?;
        left = left.sweep(alloc, &first.id)?;
    }
    Ok(Swept {
        objects: left,
        gone,
    })
}
