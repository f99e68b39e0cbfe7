//! What a run ends with, and its line in the notes.
ghost use Rattle.std.specs.Prelude.{◌≡◌, ◌++◌, is_ok};
ghost use Rattle.tams_outcomes.specs.Lines.{TakesPart, checked_line, damaged_line, delivered_line, formatted_line, generated_line, line_of, migrated_line, served_line};
ghost use Rattle.tams_outcomes.specs.Parts.{line_by, part_by, shown_by};
ghost use Rattle.tams_outcomes.specs.declared.outcome.Shown.TheVariants.{Bytes, Number};

use crate::status::Status;
use disk_trait::Text;
use itoa::Buffer;
use site_edge::{Sink, SinkFailed};

/// How much a store keeps: the numbers of its rows of each kind.
#[derive(Clone, Copy, Debug, PartialEq, Eq)]
pub struct StoreCounts {
    pub flows: u64,
    pub segments: u64,
    pub objects: u64,
    pub requests: u64,
    pub hooks: u64,
    pub events: u64,
}

/// What a run of generated requests came to: the two numbers that they were made from, how many were
/// answered, the changes, what the store keeps at its end, and the bytes of its objects.
#[derive(Clone, Copy, Debug, PartialEq, Eq)]
pub struct WorkloadRun {
    pub number: u64,
    pub count: u64,
    pub requests: u64,
    pub changes: u64,
    pub kept: StoreCounts,
    pub bytes: u64,
}

/// A stored object whose bytes haven't the digest that is kept of them: its id, and the kept and the found
/// digest in 64 hexadecimal digits each.
#[derive(Drop)]
pub struct DamagedObject {
    pub object: Text,
    pub kept: Text,
    pub found: Text,
}

/// Why no playlist was said.
#[derive(Clone, Copy, Debug, PartialEq, Eq)]
pub enum PlaylistRefusal {
    /// The flow isn't kept.
    NoFlow,
    /// The flow is kept, and no peer came.
    NoPeer,
}

/// How a run ended.
#[derive(Drop)]
pub enum RunOutcome {
    /// A store of so many blocks was made, with so many a half and so many for media.
    Formatted {
        blocks: u64,
        half: u64,
        media: u64,
    },
    /// The file has a store that keeps so much.
    Checked(StoreCounts),
    /// A store was moved to the form in use: so many objects are stored, and so many bytes its rows have.
    Migrated {
        objects: u64,
        rows: u64,
    },
    /// The store is of the form in use already.
    AlreadyMigrated,
    /// So many turns changed something, before one that changed nothing.
    Worked(u64),
    /// So many events were delivered, of those that waited. It is full where the journal had no room for the change
    /// of one.
    Delivered {
        delivered: u64,
        waiting: u64,
        full: bool,
    },
    /// All was heard and answered, with so many answers and changes, and so many turns skipped.
    Served {
        requests: u64,
        changes: u64,
        skipped: u64,
    },
    /// The playlist of so many objects was said.
    Playlist(u64),
    /// No playlist was said.
    NoPlaylist(PlaylistRefusal),
    /// Generated requests were answered.
    Generated(WorkloadRun),
    /// The input ended within a request.
    Cut,
    BadWords,
    NotStore,
    AlreadyStore,
    /// The file has no room for a store of these numbers, or a half of a store of form 1 none for its rows in the
    /// form in use.
    TooSmall,
    /// The file stands for no library from this offset on, in bytes.
    Damaged(u64),
    /// The bytes of a stored object haven't the digest that is kept of them.
    DamagedObject(DamagedObject),
    /// The file stands for a library in a form that isn't in use, so it has to be migrated first.
    OldForm,
    DiskFault,
    NoMemory,
    LinkFault,
}

impl RunOutcome {
    ghost use Rattle.tams_outcomes.specs.Statuses.{status_of};

    /// What its status says.
    pub fn status(&self) -> Status
        ensures { result ≡ status_of self.now }
    {
        match self {
            RunOutcome::Formatted { .. }
            | RunOutcome::Checked(_)
            | RunOutcome::Migrated { .. }
            | RunOutcome::AlreadyMigrated
            | RunOutcome::Worked(_)
            | RunOutcome::Delivered { .. }
            | RunOutcome::Served { .. }
            | RunOutcome::Playlist(_)
            | RunOutcome::Generated(_) => Status::Done,
            RunOutcome::BadWords => Status::BadWords,
            RunOutcome::NotStore
            | RunOutcome::AlreadyStore
            | RunOutcome::TooSmall
            | RunOutcome::Damaged(_)
            | RunOutcome::DamagedObject(_)
            | RunOutcome::OldForm => Status::Refused,
            RunOutcome::DiskFault => Status::DiskFault,
            RunOutcome::NoMemory => Status::NoMemory,
            RunOutcome::LinkFault => Status::LinkFault,
            RunOutcome::Cut => Status::Cut,
            RunOutcome::NoPlaylist(_) => Status::NamedRefusal,
        }
    }

    /// Puts the outcome's line into the notes. It takes no memory.
    pub fn put_line<N: Sink>(&self, notes: &mut N) -> Result<(), SinkFailed>
        ensures { TakesPart (is_ok result) (N.tells notes.old) (line_of self.now) (N.faults notes.old)
            (N.faults notes.new) (N.taken notes.old) (N.taken notes.new) }
    {
        match self {
            RunOutcome::Formatted {
                blocks,
                half,
                media,
            } => put_formatted(notes, *blocks, *half, *media),
            RunOutcome::Checked(counts) => put_checked(notes, *counts),
            RunOutcome::Migrated { objects, rows } => put_migrated(notes, *objects, *rows),
            RunOutcome::AlreadyMigrated => notes.put(b"already migrated\n"),
            RunOutcome::Worked(turns) => put_parts(
                notes,
                &[part(b"worked: ", *turns)],
                b" turns\n",
            ),
            RunOutcome::Delivered {
                delivered,
                waiting,
                full,
            } => put_delivered(notes, *delivered, *waiting, *full),
            RunOutcome::Served {
                requests,
                changes,
                skipped,
            } => put_served(notes, *requests, *changes, *skipped),
            RunOutcome::Playlist(objects) => put_parts(
                notes,
                &[part(b"manifest: ", *objects)],
                b" objects\n",
            ),
            RunOutcome::NoPlaylist(PlaylistRefusal::NoFlow) => {
                notes.put(b"manifest refused: NoFlow\n")
            }
            RunOutcome::NoPlaylist(PlaylistRefusal::NoPeer) => {
                notes.put(b"manifest refused: NoPeer\n")
            }
            RunOutcome::Generated(run) => put_generated(notes, *run),
            RunOutcome::Damaged(at) => put_parts(notes, &[part(b"damaged at ", *at)], b"\n"),
            RunOutcome::DamagedObject(damaged) => put_damaged_object(notes, damaged),
            RunOutcome::BadWords => notes.put(b"bad words\n"),
            RunOutcome::NotStore => notes.put(b"not a store\n"),
            RunOutcome::AlreadyStore => notes.put(b"already a store\n"),
            RunOutcome::TooSmall => notes.put(b"too small\n"),
            RunOutcome::OldForm => notes.put(b"old store\n"),
            RunOutcome::DiskFault => notes.put(b"disk fault\n"),
            RunOutcome::NoMemory => notes.put(b"no memory\n"),
            RunOutcome::LinkFault => notes.put(b"link fault\n"),
            RunOutcome::Cut => notes.put(b"input ended within a request\n"),
        }
    }
}

/// Puts the line of a store that was made.
fn put_formatted<N: Sink>(
    notes: &mut N,
    blocks: u64,
    half: u64,
    media: u64,
) -> Result<(), SinkFailed>
    ensures { TakesPart (is_ok result) (N.tells notes.old) (formatted_line blocks half media)
        (N.faults notes.old) (N.faults notes.new) (N.taken notes.old) (N.taken notes.new) }
{
    let parts = [
        part(b"formatted ", blocks),
        part(b" blocks, ", half),
        part(b" per half, ", media),
    ];
    put_parts(notes, &parts, b" for media\n")
}

/// Puts the line of a store that was checked.
fn put_checked<N: Sink>(notes: &mut N, counts: StoreCounts) -> Result<(), SinkFailed>
    ensures { TakesPart (is_ok result) (N.tells notes.old) (checked_line counts)
        (N.faults notes.old) (N.faults notes.new) (N.taken notes.old) (N.taken notes.new) }
{
    let parts = [
        part(b"ok: ", counts.flows),
        part(b" flows, ", counts.segments),
        part(b" segments, ", counts.objects),
        part(b" objects, ", counts.requests),
        part(b" requests, ", counts.hooks),
        part(b" hooks, ", counts.events),
    ];
    put_parts(notes, &parts, b" events\n")
}

/// Puts the line of a store that was moved to the form in use.
fn put_migrated<N: Sink>(notes: &mut N, objects: u64, rows: u64) -> Result<(), SinkFailed>
    ensures { TakesPart (is_ok result) (N.tells notes.old) (migrated_line objects rows)
        (N.faults notes.old) (N.faults notes.new) (N.taken notes.old) (N.taken notes.new) }
{
    let parts = [part(b"migrated: ", objects), part(b" objects, ", rows)];
    put_parts(notes, &parts, b" bytes of rows\n")
}

/// Puts the line of a run that delivered.
fn put_delivered<N: Sink>(
    notes: &mut N,
    delivered: u64,
    waiting: u64,
    full: bool,
) -> Result<(), SinkFailed>
    ensures { TakesPart (is_ok result) (N.tells notes.old) (delivered_line delivered waiting full)
        (N.faults notes.old) (N.faults notes.new) (N.taken notes.old) (N.taken notes.new) }
{
    let parts = [part(b"delivered: ", delivered), part(b" of ", waiting)];
    if full {
        return put_parts(notes, &parts, b" events, no room\n");
    }
    put_parts(notes, &parts, b" events\n")
}

/// Puts the line of a run that served.
fn put_served<N: Sink>(
    notes: &mut N,
    requests: u64,
    changes: u64,
    skipped: u64,
) -> Result<(), SinkFailed>
    ensures { TakesPart (is_ok result) (N.tells notes.old) (served_line requests changes skipped)
        (N.faults notes.old) (N.faults notes.new) (N.taken notes.old) (N.taken notes.new) }
{
    let served = [part(b"ok: ", requests), part(b" requests, ", changes)];
    if skipped == 0 {
        return put_parts(notes, &served, b" changes\n");
    }
    let [answered, changed] = served;
    let parts = [answered, changed, part(b" changes, ", skipped)];
    put_parts(notes, &parts, b" turns skipped\n")
}

/// Puts the line of a run of generated requests.
fn put_generated<N: Sink>(notes: &mut N, run: WorkloadRun) -> Result<(), SinkFailed>
    ensures { TakesPart (is_ok result) (N.tells notes.old) (generated_line run)
        (N.faults notes.old) (N.faults notes.new) (N.taken notes.old) (N.taken notes.new) }
{
    let parts = [
        part(b"workload ", run.number),
        part(b" ", run.count),
        part(b": requests ", run.requests),
        part(b", changes ", run.changes),
        part(b", flows ", run.kept.flows),
        part(b", segments ", run.kept.segments),
        part(b", objects ", run.kept.objects),
        part(b", bytes ", run.bytes),
    ];
    put_parts(notes, &parts, b"\n")
}

/// Puts the line of a damaged object.
fn put_damaged_object<N: Sink>(notes: &mut N, damaged: &DamagedObject) -> Result<(), SinkFailed>
    ensures { TakesPart (is_ok result) (N.tells notes.old) (damaged_line damaged.now)
        (N.faults notes.old) (N.faults notes.new) (N.taken notes.old) (N.taken notes.new) }
{
    let parts = [
        named(b"damaged object ", damaged.object.bytes()),
        named(b": kept ", damaged.kept.bytes()),
        named(b", found ", damaged.found.bytes()),
    ];
    put_parts(notes, &parts, b"\n")
}

/// What is shown within a line.
#[derive(Clone, Copy)]
enum Shown<'a> {
    Number(u64),
    Bytes(&'a [u8]),
}

/// A text of a line, and what is shown behind it.
#[derive(Clone, Copy)]
struct LinePart<'a> {
    text: &'a [u8],
    shown: Shown<'a>,
}

fn part<'a>(text: &'a [u8], number: u64) -> LinePart<'a>
    ensures { result ≡ record { text = text.entry; shown = Number number } }
{
    LinePart {
        text,
        shown: Shown::Number(number),
    }
}

fn named<'a>(text: &'a [u8], bytes: &'a [u8]) -> LinePart<'a>
    ensures { result ≡ record { text = text.entry; shown = Bytes bytes.entry } }
{
    LinePart {
        text,
        shown: Shown::Bytes(bytes),
    }
}

/// Puts these parts of a line, and then its end.
fn put_parts<N: Sink>(notes: &mut N, parts: &[LinePart], end: &[u8]) -> Result<(), SinkFailed>
    ensures { TakesPart (is_ok result) (N.tells notes.old) (line_by parts.now end.now)
        (N.faults notes.old) (N.faults notes.new) (N.taken notes.old) (N.taken notes.new) }
{
    let Some((first, later)) = parts.split_first() else {
        return notes.put(end);
    };
    put_part(notes, first)?;
    put_parts(notes, later, end)
}

/// Puts a text and what is shown behind it.
fn put_part<N: Sink>(notes: &mut N, part: &LinePart) -> Result<(), SinkFailed>
    ensures tells { N.tells notes.new ≡ N.tells notes.old }
    ensures takes { TakesPart (is_ok result) (N.tells notes.old) (part_by part.now)
        (N.faults notes.old) (N.faults notes.new) (N.taken notes.old) (N.taken notes.new) }
{
    notes.put(part.text)?;
    put_shown(notes, part.shown)
}

/// Puts what is shown: a number in decimal digits, and bytes as they are.
fn put_shown<N: Sink>(notes: &mut N, shown: Shown) -> Result<(), SinkFailed>
    ensures tells { N.tells notes.new ≡ N.tells notes.old }
    ensures takes { TakesPart (is_ok result) (N.tells notes.old) (shown_by shown.entry)
        (N.faults notes.old) (N.faults notes.new) (N.taken notes.old) (N.taken notes.new) }
{
    match shown {
        Shown::Number(number) => {
            let mut buffer = Buffer::new();
            notes.put(buffer.format(number).as_bytes())
        }
        Shown::Bytes(bytes) => notes.put(bytes),
    }
}
