//! Changes as a journal has them, applied one after another.
use crate::given::{flow_body, posts};
use crate::let_go;
use crate::library::{FLOWS_OF_A_SOURCE, OBJECT_BYTES, empty, object_of};
use crate::stop::{Stop, stop_of_apply};
use disk_trait::{Listed, Memory, TextList};
use media_rows::{ApplyFault, Change, Digest};
use std::alloc::Global;
use store_core::Core;

/// What stands for the digest of an object's bytes, of which the form in use keeps none.
const NO_DIGEST: Digest = Digest { high: 0, low: 0 };

/// The moment of each change.
const NOW: u64 = 1_000;

/// How many changes a flow takes: it is put, and then its objects are made, stored and named by a segment.
const CHANGES_OF_A_FLOW: u64 = 10;

/// A flow is put.
fn put_flow(alloc: Global, flow: u64) -> Change {
    let source = u128::from(flow / FLOWS_OF_A_SOURCE);
    Change::PutFlow {
        moment: NOW,
        flow: flow_body(alloc, u128::from(flow), source),
    }
}

/// An object is made for a flow.
fn allocate(alloc: Global, flow: u64, index: u64) -> Result<Change, Memory> {
    let mut objects = TextList::new(alloc);
    objects.push(object_of(alloc, index)?)?;
    Ok(Change::Allocate {
        moment: NOW,
        flow: u128::from(flow),
        objects,
    })
}

/// An object's bytes are kept.
fn store(alloc: Global, index: u64) -> Result<Change, Memory> {
    Ok(Change::Store {
        moment: NOW,
        object: object_of(alloc, index)?,
        start_block: index,
        length: u64::from(OBJECT_BYTES),
        digest: NO_DIGEST.kept(),
    })
}

/// A segment of an object is added to a flow.
fn add_segment(alloc: Global, flow: u64, place: u64, index: u64) -> Result<Change, Memory> {
    let object = object_of(alloc, index)?;
    Ok(Change::AddSegments {
        moment: NOW,
        flow: u128::from(flow),
        segments: posts(alloc, &object, place, 1)?,
    })
}

/// The change of this number: the first of each flow puts it, and the others go in threes.
fn change(alloc: Global, number: u64) -> Result<Change, Memory> {
    let flow = number / CHANGES_OF_A_FLOW;
    let step = number % CHANGES_OF_A_FLOW;
    if step == 0 {
        return Ok(put_flow(alloc, flow));
    }
    let place = (step - 1) / 3;
    let index = flow * 3 + place;
    match step % 3 {
        1 => allocate(alloc, flow, index),
        2 => store(alloc, index),
        _ => add_segment(alloc, flow, place, index),
    }
}

/// Adds so many changes, each of which applies to the library behind those before it.
pub(crate) fn add_changes(
    alloc: Global,
    changes: &mut Listed<Change>,
    records: u64,
) -> Result<(), Memory> {
    for number in 0..records {
        changes.push(change(alloc, number)?)?;
    }
    Ok(())
}

/// What was made of a library, where nothing refused it.
fn taken(next: Result<Core, ApplyFault>) -> Result<Core, Stop> {
    match next {
        Ok(next) => Ok(next),
        Err(fault) => Err(stop_of_apply(fault)),
    }
}

/// The library behind a change.
fn applied(alloc: Global, core: Core, change: &Change) -> Result<Core, Stop> {
    let next = core.apply(alloc, change);
    let_go::library(core);
    taken(next)
}

/// The library behind changes from an empty one.
pub(crate) fn opened(alloc: Global, changes: &[Change]) -> Result<Core, Stop> {
    let mut core = empty(alloc)?;
    for change in changes {
        core = applied(alloc, core, change)?;
    }
    Ok(core)
}
