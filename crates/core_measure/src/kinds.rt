//! Each kind of change, prepared and installed on a library of many flows.
use crate::given::{flow_body, hook, posts, range, text_of};
use crate::library::{
    BARE_OBJECT, FLOWS_OF_A_SOURCE, HOOK, OBJECT_BYTES, SEGMENTS_OF_A_FLOW, object_of,
};
use crate::places::Places;
use crate::stop::Stop;
use crate::{commands, let_go};
use disk_trait::Memory;
use media_rows::Part;
use std::alloc::Global;
use store_core::{Core, Prepared};
use time_range::TimeRange;

/// The moment of each command, at which the objects that are idle are due.
const NOW: u64 = 1_000_000;

/// One of so many that are prepared is installed.
const INSTALLED: u64 = 10;

/// A kind of change.
#[derive(Clone, Copy)]
pub(crate) enum ChangeKind {
    PutFlow,
    NewFlow,
    SetFlow,
    SetSource,
    DropFlow,
    AskDelete,
    Allocate,
    Keep,
    AddSegment,
    CutSegment,
    PutHook,
    DropHook,
    DeleteStep,
    SweepStep,
}

/// All kinds, in the order in which they are measured.
pub(crate) const KINDS: [ChangeKind; 14] = [
    ChangeKind::PutFlow,
    ChangeKind::NewFlow,
    ChangeKind::SetFlow,
    ChangeKind::SetSource,
    ChangeKind::DropFlow,
    ChangeKind::AskDelete,
    ChangeKind::Allocate,
    ChangeKind::Keep,
    ChangeKind::AddSegment,
    ChangeKind::CutSegment,
    ChangeKind::PutHook,
    ChangeKind::DropHook,
    ChangeKind::DeleteStep,
    ChangeKind::SweepStep,
];

impl ChangeKind {
    pub(crate) fn name(self) -> &'static str {
        match self {
            ChangeKind::PutFlow => "put-flow",
            ChangeKind::NewFlow => "new-flow",
            ChangeKind::SetFlow => "set-flow",
            ChangeKind::SetSource => "set-source",
            ChangeKind::DropFlow => "drop-flow",
            ChangeKind::AskDelete => "ask-delete",
            ChangeKind::Allocate => "allocate",
            ChangeKind::Keep => "keep",
            ChangeKind::AddSegment => "add-segment",
            ChangeKind::CutSegment => "cut-segment",
            ChangeKind::PutHook => "put-hook",
            ChangeKind::DropHook => "drop-hook",
            ChangeKind::DeleteStep => "delete-step",
            ChangeKind::SweepStep => "sweep-step",
        }
    }
}

/// A library to measure, how many flows with all their segments it has, and among how many first ones of them the flows
/// of commands are taken at random.
#[derive(Clone, Copy)]
pub(crate) struct Measured<'a> {
    pub(crate) alloc: Global,
    pub(crate) base: &'a Core,
    pub(crate) flows: u64,
    pub(crate) near: u64,
}

/// The source of a flow.
fn source_of(flow: u64) -> u128 {
    u128::from(flow / FLOWS_OF_A_SOURCE)
}

/// A flow of the same source as one at a place, put.
fn put_flow(alloc: Global, core: &Core, flow: u128, place: u64) -> Result<Prepared, Stop> {
    commands::put_flow(alloc, core, flow_body(alloc, flow, source_of(place)), NOW)
}

/// The label of a flow's source, set.
fn set_source(alloc: Global, core: &Core, place: u64) -> Result<Prepared, Stop> {
    let label = Part::Label(Some(text_of(alloc, "hall")?));
    commands::set_source(alloc, core, source_of(place), label, NOW)
}

/// The bytes of the object that has none yet.
fn keep(alloc: Global, core: &Core) -> Result<Prepared, Stop> {
    let bare = text_of(alloc, BARE_OBJECT)?;
    commands::keep(alloc, core, bare, OBJECT_BYTES, NOW)
}

/// A segment of a flow's own object, behind those that the flow has.
fn add_segment(alloc: Global, core: &Core, place: u64) -> Result<Prepared, Stop> {
    let object = object_of(alloc, place)?;
    let posts = posts(alloc, &object, SEGMENTS_OF_A_FLOW, 1)?;
    commands::add_segments(alloc, core, u128::from(place), posts, NOW)
}

/// A hook, put.
fn put_hook(alloc: Global, core: &Core) -> Result<Prepared, Stop> {
    commands::put_hook(alloc, core, hook(alloc, "http://b/")?, NOW)
}

/// The hook that there is, dropped.
fn drop_hook(alloc: Global, core: &Core) -> Result<Prepared, Stop> {
    commands::drop_hook(alloc, core, text_of(alloc, HOOK)?, NOW)
}

/// A change of a kind, of the flow at a place where it is of one.
fn prepared(
    site: &Measured<'_>,
    core: &Core,
    kind: ChangeKind,
    place: u64,
) -> Result<Prepared, Stop> {
    let alloc = site.alloc;
    let flow = u128::from(place);
    let last = u128::from(site.flows);
    match kind {
        ChangeKind::PutFlow => put_flow(alloc, core, flow, place),
        ChangeKind::NewFlow => put_flow(alloc, core, last + 1, place),
        ChangeKind::SetFlow => commands::set_flow(
            alloc,
            core,
            flow,
            Part::MaxBitRate(Some(place)),
            NOW,
        ),
        ChangeKind::SetSource => set_source(alloc, core, place),
        ChangeKind::DropFlow => commands::drop_flow(alloc, core, last, NOW),
        ChangeKind::AskDelete => commands::cut_segments(
            alloc,
            core,
            flow,
            TimeRange::eternity(),
            NOW,
        ),
        ChangeKind::Allocate => commands::allocate(alloc, core, flow, 1, NOW),
        ChangeKind::Keep => keep(alloc, core),
        ChangeKind::AddSegment => add_segment(alloc, core, place),
        ChangeKind::CutSegment => commands::cut_segments(alloc, core, flow, range(20, 1), NOW),
        ChangeKind::PutHook => put_hook(alloc, core),
        ChangeKind::DropHook => drop_hook(alloc, core),
        ChangeKind::DeleteStep | ChangeKind::SweepStep => commands::turn(alloc, core, NOW),
    }
}

/// The library on which a kind of change is made: for a delete step, one with a request.
pub(crate) fn base_of(site: &Measured<'_>, kind: ChangeKind) -> Result<Core, Stop> {
    if let ChangeKind::DeleteStep = kind {
        let made = commands::drop_flow(site.alloc, site.base, 0, NOW)?;
        return Ok(made.core);
    }
    Ok(site.base.share(site.alloc)?)
}

/// Becomes what was prepared, and goes.
fn become_prepared(core: Core, made: Prepared) {
    let mut core = core;
    core.install(made);
}

/// Installs what was prepared in a library of its own.
fn installed(core: Result<Core, Memory>, made: Prepared) -> Result<(), Stop> {
    match core {
        Ok(core) => {
            become_prepared(core, made);
            Ok(())
        }
        Err(Memory) => {
            let_go::prepared(made);
            Err(Stop::Memory)
        }
    }
}

/// Prepares a change of a kind, and installs it. The library itself stays.
pub(crate) fn changed(
    site: &Measured<'_>,
    base: &Core,
    kind: ChangeKind,
    place: u64,
) -> Result<(), Stop> {
    installed(base.share(site.alloc), prepared(site, base, kind, place)?)
}

/// Prepares a kind of change so often, each time on the same library, and installs one in ten.
pub(crate) fn repeated(
    site: &Measured<'_>,
    base: &Core,
    kind: ChangeKind,
    times: u64,
) -> Result<(), Stop> {
    let mut places = Places::new(site.near);
    for time in 0..times {
        let place = places.next();
        if time % INSTALLED == 0 {
            changed(site, base, kind, place)?;
        } else {
            let_go::prepared(prepared(site, base, kind, place)?);
        }
    }
    Ok(())
}
