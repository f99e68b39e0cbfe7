//! Events of what happened, for the hooks that take them.
ghost use Rattle.std.specs.Prelude.{◌≡◌, ◌≤◌, ◌+◌, [], ◌∷◌, IfOk, filter, length};
ghost use Rattle.std.specs.List.{list_any};
ghost use Rattle.media_rows.specs.Library.{last_serial};
ghost use Rattle.media_rows.specs.Lists.{has_number};
ghost use Rattle.media_rows.specs.Outbox.{admits, after_post, event_row, events_for, is_of_source, same_event, takes, with_events};
ghost use Rattle.shared_tree.specs.Pairs.{values_of};
ghost use Rattle.webhook_outbox.specs.Delivered.{IsBehind};
ghost use Rattle.webhook_outbox.specs.Within.Posts.{AreKept, reached_within};
ghost use Rattle.webhook_outbox.specs.Within.Slots.{hook_rows};

use crate::looks::all_slots;
use crate::outbox::{Outbox, Slot};
use disk_trait::Memory;
use media_rows::{EventKind, EventRow, Happened, HookRow, IdList};
use std::alloc::Global;

/// The last serial that a library may come to.
pub(crate) const LAST_SERIAL: u64 = 9_223_372_036_854_775_807;

/// The outbox to which posting has come, and the serial that the next event gets.
#[derive(Drop)]
pub(crate) struct PostsReached {
    pub(crate) outbox: Outbox,
    pub(crate) next: u64,
}

/// The outbox with the events of what happened, happening by happening, or nothing where serials would end.
pub(crate) fn post_all(
    alloc: Global,
    outbox: &Outbox,
    happened: &[Happened],
    serial: u64,
    now: u64,
) -> Result<Option<PostsReached>, Memory>
    requires last { IsBehind serial outbox.now.events }
    ensures { IfOk result (λ reached. reached ≡ reached_within
        (after_post happened.now now (record { outbox = outbox.now; next = serial }))) }
{
    if serial > LAST_SERIAL {
        return Ok(None);
    }
    let mut reached = PostsReached {
        outbox: outbox.share()?,
        next: serial,
    };
    for one in happened {
        match post_one(alloc, &reached.outbox, one, reached.next, now)? {
            Some(next) => reached = next,
            None => return Ok(None),
        }
    }
    Ok(Some(reached))
}

/// The outbox with the events of one happening, or nothing where serials would end.
fn post_one(
    alloc: Global,
    outbox: &Outbox,
    happened: &Happened,
    serial: u64,
    now: u64,
) -> Result<Option<PostsReached>, Memory>
    requires last { IsBehind serial outbox.now.events }
    requires within { serial ≤ last_serial }
    ensures { IfOk result (λ reached. reached ≡ reached_within
        (after_post (happened.now ∷ []) now (record { outbox = outbox.now; next = serial }))) }
{
    let list = outbox.takers(alloc, happened)?;
    let takers: &[&Slot] = &list;
    let count = takers.len() as u64;
    if count > LAST_SERIAL - serial {
        return Ok(None);
    }
    Ok(Some(PostsReached {
        outbox: post_to(alloc, outbox, happened, takers, serial, now)?,
        next: serial + count,
    }))
}

/// The outbox with an event of one happening for each of these hooks.
fn post_to(
    alloc: Global,
    outbox: &Outbox,
    happened: &Happened,
    takers: &[&Slot],
    serial: u64,
    now: u64,
) -> Result<Outbox, Memory>
    requires kept { AreKept (hook_rows (values_of takers.now)) outbox.now.hooks }
    requires last { IsBehind serial outbox.now.events }
    requires within { serial + length takers.now ≤ last_serial }
    ensures { IfOk result (λ next. next ≡ with_events
        (events_for happened.now now serial (hook_rows (values_of takers.now))) outbox.now) }
{
    let mut next = outbox.share()?;
    let mut free = serial;
    for slot in takers {
        next = next.with_event(alloc, event_row(happened, &slot.row, free, now))?;
        free += 1;
    }
    next.full_have_failed();
    Ok(next)
}

impl Outbox {
    /// The hooks that take what happened, by rising serial.
    fn takers(&self, alloc: Global, happened: &Happened) -> Result<Vec<&Slot>, Memory>
        ensures { IfOk result (λ list. hook_rows (values_of list.items)
            ≡ filter (takes happened.now) self.now.hooks) }
    {
        takers(alloc, &all_slots(alloc, &self.slots)?, happened)
    }
}

/// What happened, as an event that waits for a hook.
fn event_row(happened: &Happened, row: &HookRow, serial: u64, now: u64) -> EventRow
    ensures { result ≡ event_row happened.now now row.now serial }
{
    EventRow {
        serial,
        hook: row.serial,
        kind: happened.kind,
        subject: happened.subject,
        range: happened.range,
        moment: now,
    }
}

/// Those of these hooks that take what happened.
fn takers<'a>(
    alloc: Global,
    slots: &[&'a Slot],
    happened: &Happened,
) -> Result<Vec<&'a Slot>, Memory>
    ensures { IfOk result (λ list. hook_rows (values_of list.items)
        ≡ filter (takes happened.now) (hook_rows (values_of slots.now))) }
{
    let mut list = Vec::new(alloc);
    for slot in slots {
        if takes(happened, &slot.row) {
            list.push(*slot)?;
        }
    }
    Ok(list)
}

/// Whether a hook takes what happened.
fn takes(happened: &Happened, row: &HookRow) -> bool
    ensures { result ≡ takes happened.now row.now }
{
    !row.failed
        && names_event(row.hook.events.items(), happened.kind)
        && (is_of_source(happened.kind) || admits(&row.hook.flow_ids, happened.subject))
        && admits(&row.hook.source_ids, happened.source)
}

fn names_event(kinds: &[EventKind], kind: EventKind) -> bool
    ensures { result ≡ list_any (same_event kind) kinds.now }
{
    kinds.iter().any(|other| kind.number() == other.number())
}

fn is_of_source(kind: EventKind) -> bool
    ensures { result ≡ is_of_source kind }
{
    match kind {
        EventKind::FlowCreated
        | EventKind::FlowUpdated
        | EventKind::FlowDeleted
        | EventKind::SegmentsAdded
        | EventKind::SegmentsDeleted => false,
        EventKind::SourceCreated | EventKind::SourceUpdated | EventKind::SourceDeleted => true,
    }
}

/// Whether a list that may be absent admits an id.
fn admits(ids: &Option<IdList>, id: u128) -> bool
    ensures { result ≡ admits ids.now id }
{
    match ids {
        None => true,
        Some(list) => has_number(list.items(), id),
    }
}

fn has_number(numbers: &[u128], number: u128) -> bool
    ensures { result ≡ has_number number numbers.now }
{
    numbers.iter().any(|other| number == *other)
}
