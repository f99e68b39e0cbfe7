//! Changes that are applied, as when a file is opened.
ghost use Rattle.std.specs.Prelude.{◌≡◌, ◌==◌, ◌||◌, IsTrue, nat_lt};
ghost use Rattle.media_rows.specs.declared.change.Change.TheVariants as changes;
ghost use Rattle.media_rows.specs.Apply.{applies, is_allowed};
ghost use Rattle.media_rows.specs.Changes.{after};
ghost use Rattle.media_rows.specs.Refusals.{Restores};
ghost use Rattle.media_rows.specs.Sound.{has_good_values};
ghost use Rattle.core_parts.specs.Conditions.{IsReady};
ghost use Rattle.core_parts.specs.Parts.{given_library, given_parts, within_serials};
ghost use Rattle.store_core.specs.Within.{without_reason};

use crate::Core;
use crate::commands::STEP_SIZE;
use change_codec::moment_of;
use core_parts::{Cut, Parts, good_is_ready};
use disk_trait::Text;
use good_values::{has_good_values, is_moment};
use library_laws::{applies_is_tested, good_is_tested};
use media_rows::{ApplyFault, BookFault, Change, Deletion, Digest, Extent};
use std::alloc::Global;
use time_range::TimeRange;

impl Core {
    /// The library after a change, which is refused exactly where it doesn't apply: nothing may refuse it, its moment and
    /// its values are good, and the serials don't end with it.
    pub fn apply(&self, alloc: Global, change: &Change) -> Result<Core, ApplyFault>
        ensures { Restores (applies self.now.library change.now) (after change.now self.now.library)
            (given_parts result) }
    {
        good_is_ready();
        applies_is_tested();
        good_is_tested();
        let parts = &self.parts;
        if !is_moment(moment_of(change)) {
            return Err(ApplyFault::Refused);
        }
        if !has_good_values(alloc, change)? {
            return Err(ApplyFault::Refused);
        }
        match next_parts(alloc, parts, change) {
            Ok(Some(parts)) => Ok(Core { parts }),
            Ok(None) => Err(ApplyFault::Refused),
            Err(fault) => Err(fault),
        }
    }
}

/// The library after a change, where nothing refuses it, unless its serials would end.
fn next_parts(alloc: Global, parts: &Parts, change: &Change) -> Result<Option<Parts>, ApplyFault>
    requires ready { IsReady parts.now.library }
    requires values { IsTrue (has_good_values change.now) }
    ensures { Restores (is_allowed parts.now.library change.now)
        (within_serials (after change.now parts.now.library)) (given_library result) }
{
    match change {
        Change::PutFlow { moment, flow } => without_reason(parts.put_flow(alloc, flow, *moment)),
        Change::SetFlow { moment, flow, part } => {
            without_reason(parts.set_flow(alloc, *flow, part, *moment))
        }
        Change::SetSource {
            moment,
            source,
            part,
        } => without_reason(parts.set_source(alloc, *source, part, *moment)),
        Change::DropFlow { moment, flow } => drop_flow(alloc, parts, *flow, *moment),
        Change::Allocate {
            moment,
            flow,
            objects,
        } => without_reason(parts.allocate(alloc, *flow, objects.items(), *moment)),
        Change::Store {
            moment,
            object,
            start_block,
            length,
            digest,
        } => {
            let extent = Extent {
                start: *start_block,
                length: *length,
            };
            store(alloc, parts, object, extent, *digest, *moment)
        }
        Change::AddSegments {
            moment,
            flow,
            segments,
        } => without_reason(parts.add(alloc, *flow, segments.items(), *moment)),
        Change::CutSegments {
            moment,
            flow,
            range,
        } => cut_segments(alloc, parts, *flow, range, *moment),
        Change::AskDelete {
            moment,
            flow,
            range,
            delete_flow,
        } => {
            let asked = Deletion {
                flow: *flow,
                range: *range,
                delete_flow: *delete_flow,
            };
            ask_delete(alloc, parts, &asked, *moment)
        }
        Change::DeleteStep { moment } => delete_step(alloc, parts, *moment),
        Change::SweepStep { moment } => sweep_step(alloc, parts, *moment),
        Change::PutHook { hook, .. } => Ok(parts.put_hook(alloc, hook)?),
        Change::DropHook { moment, url } => drop_hook(alloc, parts, url, *moment),
        Change::Delivered { moment, event } => deliver(alloc, parts, *event, *moment),
    }
}

/// A flow goes with its segments, of which there are at most 32.
fn drop_flow(
    alloc: Global,
    parts: &Parts,
    flow: u128,
    now: u64,
) -> Result<Option<Parts>, ApplyFault>
    requires ready { IsReady parts.now.library }
    ensures { Restores (is_allowed parts.now.library (changes.DropFlow now flow))
        (within_serials (after (changes.DropFlow now flow) parts.now.library)) (given_library result) }
{
    if parts.media().flow_len(flow) > STEP_SIZE {
        return Err(ApplyFault::Refused);
    }
    without_reason(parts.drop_flow(alloc, flow, now))
}

/// An object has its bytes at a place that is free.
fn store(
    alloc: Global,
    parts: &Parts,
    object: &Text,
    extent: Extent,
    digest: Option<Digest>,
    now: u64,
) -> Result<Option<Parts>, ApplyFault>
    requires ready { IsReady parts.now.library }
    requires start { IsTrue (nat_lt 0 extent.length || (extent.start == 0)) }
    ensures { Restores
        (is_allowed parts.now.library (changes.Store now object.now extent.start extent.length digest))
        (within_serials
        (after (changes.Store now object.now extent.start extent.length digest) parts.now.library)) (given_library result) }
{
    if !parts.media().takes(extent) {
        return Err(ApplyFault::Refused);
    }
    without_reason(parts.store(alloc, object, extent, digest, now))
}

/// The segments that a range covers go, of which there are 1 to 32.
fn cut_segments(
    alloc: Global,
    parts: &Parts,
    flow: u128,
    range: &TimeRange,
    now: u64,
) -> Result<Option<Parts>, ApplyFault>
    requires ready { IsReady parts.now.library }
    ensures { Restores (is_allowed parts.now.library (changes.CutSegments now flow range.now))
        (within_serials (after (changes.CutSegments now flow range.now) parts.now.library)) (given_library result) }
{
    match parts.cut(alloc, flow, range, now) {
        Ok(Cut::Gone(next)) => Ok(next),
        Ok(Cut::Nothing | Cut::Many) | Err(BookFault::Refused(_)) => Err(ApplyFault::Refused),
        Err(BookFault::Memory) => Err(ApplyFault::Memory),
    }
}

/// A delete request comes, where a range covers more than 32 segments.
fn ask_delete(
    alloc: Global,
    parts: &Parts,
    asked: &Deletion,
    now: u64,
) -> Result<Option<Parts>, ApplyFault>
    requires ready { IsReady parts.now.library }
    ensures { Restores (is_allowed parts.now.library (changes.AskDelete now asked.now.flow asked.now.range
        asked.now.delete_flow))
        (within_serials (after (changes.AskDelete now asked.now.flow asked.now.range
        asked.now.delete_flow) parts.now.library)) (given_library result) }
{
    if !parts.covers_many(alloc, asked.flow, &asked.range)? {
        return Err(ApplyFault::Refused);
    }
    without_reason(parts.ask_delete(alloc, asked, now))
}

/// The delete request that is due is worked off by one step.
fn delete_step(alloc: Global, parts: &Parts, now: u64) -> Result<Option<Parts>, ApplyFault>
    requires ready { IsReady parts.now.library }
    ensures { Restores (is_allowed parts.now.library (changes.DeleteStep now))
        (within_serials (after (changes.DeleteStep now) parts.now.library)) (given_library result) }
{
    if parts.registry().requests().first_due().is_none() {
        return Err(ApplyFault::Refused);
    }
    Ok(parts.delete_step(alloc, now)?)
}

/// Objects that are due go.
fn sweep_step(alloc: Global, parts: &Parts, now: u64) -> Result<Option<Parts>, ApplyFault>
    requires ready { IsReady parts.now.library }
    ensures { Restores (is_allowed parts.now.library (changes.SweepStep now))
        (within_serials (after (changes.SweepStep now) parts.now.library)) (given_library result) }
{
    if !parts.is_sweep_due(now) {
        return Err(ApplyFault::Refused);
    }
    Ok(parts.sweep(alloc, now)?)
}

/// The hook of an address goes, if there is one.
fn drop_hook(
    alloc: Global,
    parts: &Parts,
    url: &Text,
    now: u64,
) -> Result<Option<Parts>, ApplyFault>
    requires ready { IsReady parts.now.library }
    ensures { Restores (is_allowed parts.now.library (changes.DropHook now url.now))
        (within_serials (after (changes.DropHook now url.now) parts.now.library)) (given_library result) }
{
    if parts.registry().outbox().find_hook(alloc, url)?.is_none() {
        return Err(ApplyFault::Refused);
    }
    Ok(parts.drop_hook(alloc, url)?)
}

/// An event was delivered, if it is the first that waits for its hook.
fn deliver(alloc: Global, parts: &Parts, event: u64, now: u64) -> Result<Option<Parts>, ApplyFault>
    requires ready { IsReady parts.now.library }
    ensures { Restores (is_allowed parts.now.library (changes.Delivered now event))
        (within_serials (after (changes.Delivered now event) parts.now.library)) (given_library result) }
{
    if !parts.registry().outbox().waits_first(event) {
        return Err(ApplyFault::Refused);
    }
    Ok(parts.deliver(alloc, event)?)
}

/// What a change gives, where nothing refuses it.
fn without_reason(changed: Result<Option<Parts>, BookFault>) -> Result<Option<Parts>, ApplyFault>
    ensures { given_library result ≡ without_reason (given_library changed) }
{
    match changed {
        Ok(next) => Ok(next),
        Err(BookFault::Refused(_)) => Err(ApplyFault::Refused),
        Err(BookFault::Memory) => Err(ApplyFault::Memory),
    }
}
