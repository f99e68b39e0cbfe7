//! A library, and the one that is made by its changes alone.
ghost use Rattle.std.specs.Prelude.{◌≡◌, IfOk, IsTrue};
ghost use Rattle.media_rows.specs.Answer.{answer};
ghost use Rattle.media_rows.specs.Moments.{is_moment};
ghost use Rattle.media_rows.specs.Sound.{is_good_command};

use disk_trait::{FORM_IN_USE, Memory, same_bytes};
use media_rows::{ApplyFault, BookFault, Change, Command, Reply};
use snapshot_rows::{RowsFault, read_rows};
use std::alloc::Global;
use store_core::{Core, Prepared};

/// The store's id.
const STORE: u128 = 0x00000000_0000_4000_8000_000000000001;

/// The number of media blocks, each of 4,096 bytes.
const BLOCKS: u64 = 10;

/// A library, and the one that its changes make of an empty one.
#[derive(Drop)]
pub(crate) struct Followed {
    pub(crate) core: Core,
    pub(crate) follower: Core,
}

impl Followed {
    /// Two empty libraries.
    pub(crate) fn new(alloc: Global) -> Result<Followed, Memory> {
        Ok(Followed {
            core: Core::empty(alloc, STORE, BLOCKS)?,
            follower: Core::empty(alloc, STORE, BLOCKS)?,
        })
    }
}

/// Runs a command, and gives its reply, which is the library's answer.
pub(crate) fn run(
    alloc: Global,
    kept: &mut Followed,
    command: &Command,
    now: u64,
) -> Result<Reply, Memory>
    requires good { IsTrue (is_good_command kept.old.core.library command.now) }
    requires moment { IsTrue (is_moment now) }
    ensures { IfOk result (λ reply. reply ≡ (answer kept.old.core.library command.now now).reply) }
{
    match kept.core.prepare(alloc, command, now) {
        Ok(prepared) => become_prepared(alloc, kept, prepared),
        Err(BookFault::Refused(why)) => Ok(Reply::Refused(why)),
        Err(BookFault::Memory) => Err(Memory),
    }
}

/// Becomes what was prepared, applies its change to the other library, and gives the reply.
fn become_prepared(alloc: Global, kept: &mut Followed, prepared: Prepared) -> Result<Reply, Memory>
    ensures { IfOk result (λ reply. reply ≡ prepared.reply) }
{
    let Prepared {
        core,
        change,
        reply,
        past: _,
    } = prepared;
    kept.core = core;
    follow(alloc, kept, change)?;
    Ok(reply)
}

/// Applies a change, if there is one, to the other library; one that is refused leaves it.
fn follow(alloc: Global, kept: &mut Followed, change: Option<Change>) -> Result<(), Memory> {
    let Some(change) = change else {
        return Ok(());
    };
    match kept.follower.apply(alloc, &change) {
        Ok(next) => {
            kept.follower = next;
            Ok(())
        }
        Err(ApplyFault::Refused) => Ok(()),
        Err(ApplyFault::Memory) => Err(Memory),
    }
}

/// Runs a turn, and gives its reply. `None` where there is nothing to do.
pub(crate) fn turn(alloc: Global, kept: &mut Followed, now: u64) -> Result<Option<Reply>, Memory>
    requires moment { IsTrue (is_moment now) }
{
    match kept.core.prepare_turn(alloc, now)? {
        None => Ok(None),
        Some(prepared) => Ok(Some(become_prepared(alloc, kept, prepared)?)),
    }
}

/// Makes the library from its own rows. False where they are refused, or where the other library has other rows.
pub(crate) fn restore(alloc: Global, kept: &mut Followed) -> Result<bool, Memory> {
    let text = kept.core.rows(alloc)?;
    let same = same_bytes(text.bytes(), kept.follower.rows(alloc)?.bytes());
    match from_text(alloc, text.bytes())? {
        Some(again) if same => {
            kept.core = again;
            Ok(true)
        }
        _ => Ok(false),
    }
}

/// The library of a text of rows, if they are some.
fn from_text(alloc: Global, text: &[u8]) -> Result<Option<Core>, Memory> {
    let rows = match read_rows(alloc, text, FORM_IN_USE) {
        Ok(rows) => rows,
        Err(RowsFault::Damaged(_)) => return Ok(None),
        Err(RowsFault::Memory) => return Err(Memory),
    };
    match Core::from_rows(alloc, STORE, BLOCKS, rows) {
        Ok(core) => Ok(Some(core)),
        Err(ApplyFault::Refused) => Ok(None),
        Err(ApplyFault::Memory) => Err(Memory),
    }
}
