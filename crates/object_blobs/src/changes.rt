//! Steps of a change of a space: a hole put at its key, or left out.
ghost use Rattle.std.specs.Prelude.{◌≡◌, IfOk};
ghost use Rattle.shared_tree.specs.Pairs.{with_pair};
ghost use Rattle.object_blobs.specs.Within.Keys.{hole_key, with_front, with_rest, without_joined};

use crate::looks::key_of;
use crate::space::Hole;
use disk_trait::Memory;
use shared_tree::Version;
use std::alloc::Global;
use std::rc::Rc;

/// The holes with this one instead of the one that begins where it does.
pub(crate) fn with_hole(
    alloc: Global,
    holes: &Version<Hole>,
    hole: Hole,
) -> Result<Version<Hole>, Memory>
    ensures { IfOk result (λ next. next ≡ with_pair (hole_key hole, hole) holes.now) }
{
    holes.with(alloc, key_of(hole.start), Rc::new(alloc, hole)?)
}

/// The same, but the one that begins there is left out where this one is empty.
pub(crate) fn with_front(
    alloc: Global,
    holes: &Version<Hole>,
    hole: Hole,
) -> Result<Version<Hole>, Memory>
    ensures { IfOk result (λ next. next ≡ with_front hole holes.now) }
{
    if hole.blocks == 0 {
        holes.without(alloc, key_of(hole.start))
    } else {
        with_hole(alloc, holes, hole)
    }
}

/// The holes and this one, unless it is empty.
pub(crate) fn with_rest(
    alloc: Global,
    holes: Version<Hole>,
    hole: Hole,
) -> Result<Version<Hole>, Memory>
    ensures { IfOk result (λ next. next ≡ with_rest hole holes) }
{
    if hole.blocks == 0 {
        Ok(holes)
    } else {
        with_hole(alloc, &holes, hole)
    }
}

/// The holes without the one that begins at `end`, where free blocks before it end at `last` with it.
pub(crate) fn without_joined(
    alloc: Global,
    holes: &Version<Hole>,
    end: u64,
    last: u64,
) -> Result<Version<Hole>, Memory>
    ensures { IfOk result (λ next. next ≡ without_joined end last holes.now) }
{
    if last == end {
        holes.share()
    } else {
        holes.without(alloc, key_of(end))
    }
}
