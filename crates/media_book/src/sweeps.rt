//! The sweep of objects that no segment names.
ghost use Rattle.std.specs.Prelude.{◌≡◌, IfOk, IsTrue};
ghost use Rattle.media_rows.specs.Good.{rises_by};
ghost use Rattle.media_rows.specs.Objects.{without_objects};
ghost use Rattle.object_refs.specs.References.{objects_in};
ghost use Rattle.media_book.specs.Media.{swept};
ghost use Rattle.media_book.specs.Within.Ties.{AreHeld, AreSomeObjects, IsLost, MayLose, object_states};

use crate::MediaBook;
use crate::objects::blocks_of;
use delete_work::sweep_step;
use disk_trait::Memory;
use media_rows::{ObjectRow, ObjectState};
use object_blobs::Space;
use object_refs::ObjectBook;
use reference_laws::due_are_same;
use std::alloc::Global;

/// The free blocks and the number of stored bytes that objects leave which went.
#[derive(Drop)]
struct Room {
    space: Space,
    bytes: u64,
}

impl MediaBook {
    /// Removes the first 16 objects that are due, whose blocks are free again: objects that no segment names and
    /// that are idle for a day, by the moment since which they are, and then by serial.
    pub fn sweep(&self, alloc: Global, now: u64) -> Result<MediaBook, Memory>
        ensures { IfOk result (λ next. next.media ≡ swept now self.now.media) }
    {
        due_are_same();
        self.objects.is_in_order();
        let swept = sweep_step(alloc, &self.objects, now)?;
        let gone = swept.gone.items();
        let freed = freed(alloc, &self.objects, &self.space, self.bytes, gone)?;
        Ok(MediaBook {
            segments: self.segments.share()?,
            objects: swept.objects,
            space: freed.space,
            bytes: freed.bytes,
        })
    }
}

/// What is left once some of the objects went.
fn freed(
    alloc: Global,
    objects: &ObjectBook,
    space: &Space,
    bytes: u64,
    gone: &[ObjectRow],
) -> Result<Room, Memory>
    requires held { AreHeld (object_states (objects_in objects.now.kept)) space.now bytes }
    requires some { AreSomeObjects gone.now (objects_in objects.now.kept) }
    ensures held { IfOk result (λ left. AreHeld
        (object_states (without_objects gone.now (objects_in objects.now.kept))) left.space left.bytes) }
    ensures blocks { IfOk result (λ left. left.space.blocks ≡ space.now.blocks) }
{
    objects.is_in_order();
    let mut left = Room {
        space: space.share()?,
        bytes,
    };
    for row in gone {
        left = without_bytes(alloc, &left.space, left.bytes, row.state)?;
    }
    Ok(left)
}

/// What is left once an object in this state went.
fn without_bytes(
    alloc: Global,
    space: &Space,
    bytes: u64,
    state: ObjectState,
) -> Result<Room, Memory>
    requires kept { MayLose state space.now bytes }
    ensures { IfOk result (λ left. IsLost state space.now left.space bytes left.bytes) }
{
    match state {
        ObjectState::Allocated => Ok(Room {
            space: space.share()?,
            bytes,
        }),
        ObjectState::Stored {
            start_block,
            length,
            ..
        } => Ok(Room {
            space: space.give(alloc, start_block, blocks_of(length))?,
            bytes: bytes - length,
        }),
    }
}
