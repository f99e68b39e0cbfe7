//! A library of many flows, made by commands.
ghost use Rattle.std.specs.Prelude.{IsTrue};

use crate::given::{flow_body, hook, posts};
use crate::stop::Stop;
use crate::{commands, let_go};
use disk_trait::{Memory, Text};
use std::alloc::Global;
use store_core::{Core, Prepared};

/// How many flows a source has.
pub(crate) const FLOWS_OF_A_SOURCE: u64 = 10;

/// How many segments a flow has, which all name the flow's own object.
pub(crate) const SEGMENTS_OF_A_FLOW: u64 = 50;

/// How many segments the last flow has, which goes at once.
const SEGMENTS_OF_THE_LAST_FLOW: u64 = 10;

/// How many objects there are to be swept.
const IDLE_OBJECTS: u64 = 100;

/// The moment at which the library is made.
const MADE: u64 = 0;

/// The number of media blocks: more than any measure takes.
const BLOCKS: u64 = 1 << 40;

/// The store's id.
const STORE: u128 = 7;

/// The bytes of an object: one block.
pub(crate) const OBJECT_BYTES: u32 = 4_096;

/// The id of an object that has no bytes yet.
pub(crate) const BARE_OBJECT: &str = "bare";

/// The address of a hook that takes each event.
pub(crate) const HOOK: &str = "http://a/";

/// The id of the object of a flow.
pub(crate) fn object_of(alloc: Global, flow: u64) -> Result<Text, Memory> {
    let id = format!(in alloc; "o{flow}")?;
    Text::from_bytes(alloc, id.as_bytes())
}

/// An empty library.
pub(crate) fn empty(alloc: Global) -> Result<Core, Memory> {
    Core::empty(alloc, STORE, BLOCKS)
}

/// Installs what was prepared.
fn install(core: &mut Core, made: Result<Prepared, Stop>) -> Result<(), Stop> {
    match made {
        Ok(made) => {
            core.install(made);
            Ok(())
        }
        Err(stop) => Err(stop),
    }
}

/// Puts a flow.
fn put_flow(alloc: Global, core: &mut Core, flow: u64) -> Result<(), Stop> {
    let source = u128::from(flow / FLOWS_OF_A_SOURCE);
    let body = flow_body(alloc, u128::from(flow), source);
    let made = commands::put_flow(alloc, core, body, MADE);
    install(core, made)
}

/// Makes an object of this id for a flow.
fn allocate(alloc: Global, core: &mut Core, flow: u64, object: &Text) -> Result<(), Stop> {
    let made = commands::allocate_named(alloc, core, u128::from(flow), object, MADE);
    install(core, made)
}

/// Keeps an object with its bytes.
fn keep(alloc: Global, core: &mut Core, object: Text) -> Result<(), Stop> {
    let made = commands::keep(alloc, core, object, OBJECT_BYTES, MADE);
    install(core, made)
}

/// Adds so many segments of an object to a flow.
fn add_segments(
    alloc: Global,
    core: &mut Core,
    flow: u64,
    object: &Text,
    segments: u64,
) -> Result<(), Stop> {
    let posts = posts(alloc, object, 0, segments)?;
    let made = commands::add_segments(alloc, core, u128::from(flow), posts, MADE);
    install(core, made)
}

/// Puts a flow with its object and its segments.
fn add_flow(alloc: Global, core: &mut Core, flow: u64, segments: u64) -> Result<(), Stop> {
    put_flow(alloc, core, flow)?;
    let object = object_of(alloc, flow)?;
    allocate(alloc, core, flow, &object)?;
    keep(alloc, core, object.copy(alloc)?)?;
    add_segments(alloc, core, flow, &object, segments)
}

/// Makes objects that are idle, of which one has a known id, and a hook.
fn add_others(alloc: Global, core: &mut Core, flow: u64) -> Result<(), Stop> {
    let made = commands::allocate(alloc, core, u128::from(flow), IDLE_OBJECTS, MADE);
    install(core, made)?;
    let bare = Text::from_bytes(alloc, BARE_OBJECT.as_bytes())?;
    allocate(alloc, core, flow, &bare)?;
    let made = commands::put_hook(alloc, core, hook(alloc, HOOK)?, MADE);
    install(core, made)
}

/// Makes so many flows, and one more with few segments; objects that are idle, and a hook.
fn fill(alloc: Global, core: &mut Core, flows: u64) -> Result<(), Stop> {
    for flow in 0..flows {
        add_flow(alloc, core, flow, SEGMENTS_OF_A_FLOW)?;
    }
    add_flow(alloc, core, flows, SEGMENTS_OF_THE_LAST_FLOW)?;
    add_others(alloc, core, flows)
}

/// A library of so many flows, and of one more with few segments; with objects that are idle, and with a hook.
pub(crate) fn library(alloc: Global, flows: u64) -> Result<Core, Stop> {
    let mut core = empty(alloc)?;
    match fill(alloc, &mut core, flows) {
        Ok(()) => Ok(core),
        Err(stop) => {
            let_go::library(core);
            Err(stop)
        }
    }
}
