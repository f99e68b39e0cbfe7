//! The plan of a put of an object's bytes.
ghost use Rattle.std.specs.Prelude.{◌≡◌, IfOk, IfSome, IsTrue, Some};
ghost use Rattle.media_rows.specs.Moments.{is_moment};
ghost use Rattle.media_rows.specs.Objects.{blocks_of, free_place, object_of};
ghost use Rattle.store_plans.specs.Plans.{CanTakeDigest, HasExtent, IsPutPlan, PutFits, journal_in, planned_with};
ghost use Rattle.store_plans.specs.Within.{IsAllocated, IsPreparedStore, IsRecordIn, IsStorePlanned, RecordFits, store_plan_of};

use crate::outcome::Planned;
use crate::room::{Recorded, record_of};
use change_codec::{DIGEST_BYTES, digest_bytes};
use disk_trait::{Memory, Text};
use library_laws::places_are_least;
use media_journal::{Frame, Journal};
use media_rows::{BookFault, Command, Digest, Extent, ObjectState, Refusal};
use object_blobs::BLOCK;
use std::alloc::Global;
use store_core::{Core, Prepared};

/// What stands for the digest of an object's bytes until they have come.
const NO_DIGEST: Digest = Digest { high: 0, low: 0 };

/// What a put of an object's bytes makes of a store: a refusal; the extent of an object that is stored already, whose bytes
/// are to be compared; or the extent into which the bytes are to be written, and the plan of the change that stores them.
#[derive(Drop)]
pub enum PutPlan {
    Refused(Refusal),
    Kept(Extent),
    Write(Extent, StorePlan),
}

/// The plan of the change that stores an object's bytes, before their digest is known: zeros stand for it.
#[derive(Drop)]
pub struct StorePlan {
    pub prepared: Prepared,
    pub frame: Frame,
    pub rows: Option<Text>,
}

impl StorePlan {
    /// The plan with the digest of the bytes that came. It takes no memory.
    pub fn with_digest(self, digest: Digest) -> Planned
        requires takes { CanTakeDigest self }
        ensures { result ≡ planned_with digest self }
    {
        let StorePlan {
            mut prepared,
            mut frame,
            rows,
        } = self;
        frame.fill(frame.len() - DIGEST_BYTES, &digest_bytes(digest));
        prepared.set_digest(digest);
        let Prepared { core, reply, .. } = prepared;
        Planned {
            next: core,
            frame: Some(frame),
            rows,
            reply,
        }
    }
}

/// The plan of a put of so many bytes as those of an object, at a moment in seconds since 1970-01-01T00:00:00Z. An object
/// that isn't kept is refused, and one that is stored takes no other bytes. Bytes for which no place is free are refused as
/// `MediaFull`, and those whose change doesn't fit the journal, after all else, as `JournalFull`.
pub fn plan_put(
    alloc: Global,
    core: &Core,
    journal: &Journal,
    object: &Text,
    length: u64,
    now: u64,
) -> Result<PutPlan, Memory>
    requires moment { IsTrue (is_moment now) }
    ensures planned { IfOk result
        (IsPutPlan (journal_in core.now.library journal.now) object.now length now) }

    // The extent is that of the stored object, or the least place that is free.
    ensures extent { IfOk result
        (HasExtent (journal_in core.now.library journal.now) object.now length now) }

    // Where there is a record, it has the room that it needs.
    ensures fits { IfOk result (PutFits journal.now) }
{
    let Some(row) = core.object(object) else {
        return Ok(PutPlan::Refused(Refusal::UnknownObject));
    };
    match row.state {
        ObjectState::Allocated => plan_first(alloc, core, journal, object, length, now),
        ObjectState::Stored {
            start_block,
            length,
            ..
        } => Ok(PutPlan::Kept(Extent {
            start: start_block,
            length,
        })),
    }
}

/// The plan of the first bytes of an object.
fn plan_first(
    alloc: Global,
    core: &Core,
    journal: &Journal,
    object: &Text,
    length: u64,
    now: u64,
) -> Result<PutPlan, Memory>
    requires moment { IsTrue (is_moment now) }
    requires allocated { IsAllocated (object_of object.now core.now.library.objects) }
    ensures planned { IfOk result
        (IsPutPlan (journal_in core.now.library journal.now) object.now length now) }
    ensures extent { IfOk result
        (HasExtent (journal_in core.now.library journal.now) object.now length now) }
    ensures fits { IfOk result (PutFits journal.now) }
{
    places_are_least();
    let Some(start) = core.place(blocks_of(length)) else {
        return Ok(PutPlan::Refused(Refusal::MediaFull));
    };
    let extent = Extent { start, length };
    match plan_store(alloc, core, journal, object, extent, now)? {
        None => Ok(PutPlan::Refused(Refusal::JournalFull)),
        Some(planned) => Ok(PutPlan::Write(extent, planned)),
    }
}

/// The plan of the change that stores an object's bytes at their place, and `None` exactly where it doesn't fit the journal.
fn plan_store(
    alloc: Global,
    core: &Core,
    journal: &Journal,
    object: &Text,
    extent: Extent,
    now: u64,
) -> Result<Option<StorePlan>, Memory>
    requires moment { IsTrue (is_moment now) }
    requires allocated { IsAllocated (object_of object.now core.now.library.objects) }
    requires place { free_place core.now.library.objects core.now.library.blocks
        (blocks_of extent.length) ≡ Some extent.start }
    ensures { IfOk result (IsStorePlanned journal.now (journal_in core.now.library journal.now)
        object.now extent now) }
{
    core.keeps_good();
    let prepared = prepare_store(alloc, core, object, extent, now)?;
    match record_in(alloc, core, journal, &prepared)? {
        None => Ok(None),
        Some(recorded) => Ok(Some(store_plan(prepared, recorded))),
    }
}

/// The record of the change that was prepared, and `None` exactly where the change would end the serials or has no place.
fn record_in(
    alloc: Global,
    core: &Core,
    journal: &Journal,
    prepared: &Prepared,
) -> Result<Option<Recorded>, Memory>
    ensures found { IfOk result (IsRecordIn (journal_in core.now.library journal.now)
        prepared.now.past prepared.now.change) }
    ensures fits { IfOk result (λ found. IfSome found (RecordFits journal.now)) }
{
    if prepared.past {
        return Ok(None);
    }
    match &prepared.change {
        None => Ok(None),
        Some(change) => record_of(alloc, core, journal, change),
    }
}

/// The plan of what was prepared, with its record.
fn store_plan(prepared: Prepared, recorded: Recorded) -> StorePlan
    ensures { result ≡ store_plan_of prepared recorded }
{
    let Recorded { frame, rows } = recorded;
    StorePlan {
        prepared,
        frame,
        rows,
    }
}

/// What is prepared for the change that stores an object's bytes, with zeros for their digest.
fn prepare_store(
    alloc: Global,
    core: &Core,
    object: &Text,
    extent: Extent,
    now: u64,
) -> Result<Prepared, Memory>
    requires moment { IsTrue (is_moment now) }
    requires allocated { IsAllocated (object_of object.now core.now.library.objects) }
    requires place { free_place core.now.library.objects core.now.library.blocks
        (blocks_of extent.length) ≡ Some extent.start }
    ensures { IfOk result (IsPreparedStore core.now.library object.now extent now) }
{
    let command = Command::Keep {
        object: object.copy(alloc)?,
        start_block: extent.start,
        length: extent.length,
        digest: NO_DIGEST,
    };
    match core.prepare(alloc, &command, now) {
        Ok(prepared) => Ok(prepared),
        // An allocated object takes bytes.
        Err(BookFault::Refused(_)) => unreachable!(),
        Err(BookFault::Memory) => Err(Memory),
    }
}

/// The blocks that so many bytes take.
fn blocks_of(bytes: u64) -> u64
    ensures { result ≡ blocks_of bytes }
{
    bytes.div_ceil(BLOCK)
}
