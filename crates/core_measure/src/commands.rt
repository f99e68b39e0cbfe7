//! Commands that change something, each as a core prepares it.
ghost use Rattle.std.specs.Prelude.{◌≡◌, IsTrue};
ghost use Rattle.media_rows.specs.Good.{is_body_text};
ghost use Rattle.media_rows.specs.Moments.{is_moment};
ghost use Rattle.media_rows.specs.Objects.{is_stored_row, object_of};
ghost use Rattle.media_rows.specs.Sound.{are_posts_good, is_good_command, is_new_hook_good, is_part_good};

use crate::let_go;
use crate::stop::{Stop, stop_of};
use disk_trait::{Text, TextList};
use media_rows::{
    BookFault, Command, Digest, FlowBody, Hook, ObjectState, Part, PostList, Want, is_object_id,
};
use std::alloc::Global;
use store_core::{Core, Prepared};
use time_range::TimeRange;

/// What stands for the digest of an object's bytes, of which the form in use keeps none.
const NO_DIGEST: Digest = Digest { high: 0, low: 0 };

/// Bytes of a media block.
const BLOCK: u64 = 4096;

/// What is given in place of the reason of a refusal that comes before any call.
const NOT_ASKED: Stop = Stop::Refused(0);

/// What was prepared, where nothing refused it.
fn taken(made: Result<Prepared, BookFault>) -> Result<Prepared, Stop> {
    match made {
        Ok(made) => Ok(made),
        Err(fault) => Err(stop_of(fault)),
    }
}

/// What a command makes of a library.
fn prepared(alloc: Global, core: &Core, command: Command, now: u64) -> Result<Prepared, Stop>
    requires good { IsTrue (is_good_command core.now.library command) }
    requires moment { IsTrue (is_moment now) }
{
    let made = core.prepare(alloc, &command, now);
    let_go::command(command);
    taken(made)
}

pub(crate) fn put_flow(
    alloc: Global,
    core: &Core,
    body: FlowBody,
    now: u64,
) -> Result<Prepared, Stop>
    requires good { IsTrue (is_body_text body) }
    requires moment { IsTrue (is_moment now) }
{
    prepared(alloc, core, Command::PutFlow(body), now)
}

pub(crate) fn set_flow(
    alloc: Global,
    core: &Core,
    flow: u128,
    part: Part,
    now: u64,
) -> Result<Prepared, Stop>
    requires good { IsTrue (is_part_good part) }
    requires moment { IsTrue (is_moment now) }
{
    prepared(alloc, core, Command::SetFlow(flow, part), now)
}

pub(crate) fn set_source(
    alloc: Global,
    core: &Core,
    source: u128,
    part: Part,
    now: u64,
) -> Result<Prepared, Stop>
    requires good { IsTrue (is_part_good part) }
    requires moment { IsTrue (is_moment now) }
{
    prepared(alloc, core, Command::SetSource(source, part), now)
}

pub(crate) fn drop_flow(alloc: Global, core: &Core, flow: u128, now: u64) -> Result<Prepared, Stop>
    requires moment { IsTrue (is_moment now) }
{
    prepared(alloc, core, Command::DropFlow(flow), now)
}

/// So many objects, whose ids the store makes.
pub(crate) fn allocate(
    alloc: Global,
    core: &Core,
    flow: u128,
    count: u64,
    now: u64,
) -> Result<Prepared, Stop>
    requires moment { IsTrue (is_moment now) }
{
    prepared(
        alloc,
        core,
        Command::Allocate(flow, Want::Count(count)),
        now,
    )
}

/// An object of this id. A text that no object may have as its id is refused.
pub(crate) fn allocate_named(
    alloc: Global,
    core: &Core,
    flow: u128,
    id: &Text,
    now: u64,
) -> Result<Prepared, Stop>
    requires moment { IsTrue (is_moment now) }
{
    if !is_object_id(id.bytes()) {
        return Err(NOT_ASKED);
    }
    let mut ids = TextList::new(alloc);
    ids.push(id.copy(alloc)?)?;
    prepared(alloc, core, Command::Allocate(flow, Want::Named(ids)), now)
}

/// Whether an object is kept with its bytes.
fn is_stored(core: &Core, object: &Text) -> bool
    ensures { result ≡ is_stored_row (object_of object.now core.now.library.objects) }
{
    match core.object(object) {
        None => false,
        Some(row) => match row.state {
            ObjectState::Allocated => false,
            ObjectState::Stored { .. } => true,
        },
    }
}

/// So many bytes as an object's, at the least free place. An object that has its bytes is refused.
pub(crate) fn keep(
    alloc: Global,
    core: &Core,
    object: Text,
    length: u32,
    now: u64,
) -> Result<Prepared, Stop>
    requires moment { IsTrue (is_moment now) }
{
    let length = u64::from(length);
    let Some(start_block) = core.place((length + (BLOCK - 1)) / BLOCK) else {
        return Err(NOT_ASKED);
    };
    if is_stored(core, &object) {
        return Err(NOT_ASKED);
    }
    let command = Command::Keep {
        object,
        start_block,
        length,
        digest: NO_DIGEST,
    };
    prepared(alloc, core, command, now)
}

pub(crate) fn add_segments(
    alloc: Global,
    core: &Core,
    flow: u128,
    posts: PostList,
    now: u64,
) -> Result<Prepared, Stop>
    requires good { IsTrue (are_posts_good posts.segments) }
    requires moment { IsTrue (is_moment now) }
{
    prepared(alloc, core, Command::AddSegments(flow, posts), now)
}

pub(crate) fn cut_segments(
    alloc: Global,
    core: &Core,
    flow: u128,
    range: TimeRange,
    now: u64,
) -> Result<Prepared, Stop>
    requires moment { IsTrue (is_moment now) }
{
    prepared(alloc, core, Command::CutSegments(flow, range), now)
}

pub(crate) fn put_hook(alloc: Global, core: &Core, hook: Hook, now: u64) -> Result<Prepared, Stop>
    requires good { IsTrue (is_new_hook_good hook) }
    requires moment { IsTrue (is_moment now) }
{
    prepared(alloc, core, Command::PutHook(hook), now)
}

pub(crate) fn drop_hook(alloc: Global, core: &Core, url: Text, now: u64) -> Result<Prepared, Stop>
    requires moment { IsTrue (is_moment now) }
{
    prepared(alloc, core, Command::DropHook(url), now)
}

/// What a turn makes of a library. That there is nothing to do is refused.
pub(crate) fn turn(alloc: Global, core: &Core, now: u64) -> Result<Prepared, Stop>
    requires moment { IsTrue (is_moment now) }
{
    match core.prepare_turn(alloc, now) {
        Ok(Some(made)) => Ok(made),
        Ok(None) => Err(NOT_ASKED),
        Err(_) => Err(Stop::Memory),
    }
}
