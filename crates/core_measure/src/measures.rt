//! How long changes take, by the processor time of the process.
use crate::kinds::{ChangeKind, KINDS, Measured, base_of, changed, repeated};
use crate::let_go;
use crate::library::library;
use crate::records::{add_changes, opened};
use crate::stop::Stop;
use disk_trait::Listed;
use media_rows::Change;
use std::time::CpuClock;
use store_core::{Core, Counts};

/// Of so many rounds the best counts.
const ROUNDS: u64 = 5;

/// Prints a name and its number.
fn say(rt: &HostRuntime, name: &str, number: u128) -> Result<(), Stop> {
    match println!(rt; "{name} {number}") {
        Ok(()) => Ok(()),
        Err(_) => Err(Stop::Outside),
    }
}

/// Prints how much is kept.
fn say_counts(rt: &HostRuntime, counts: Counts) -> Result<(), Stop> {
    let Counts {
        flows,
        segments,
        objects,
        ..
    } = counts;
    match println!(rt; "flows {flows} segments {segments} objects {objects}") {
        Ok(()) => Ok(()),
        Err(_) => Err(Stop::Outside),
    }
}

/// The processor time so far, in nanoseconds.
fn nanoseconds(rt: &HostRuntime) -> Result<u128, Stop> {
    match rt.process_cpu_time() {
        Ok(time) => Ok(time.as_nanos()),
        Err(_) => Err(Stop::Outside),
    }
}

/// The nanoseconds of one, of so many that took this time, and 0 of none.
fn of_one(taken: u128, times: u64) -> u128 {
    match taken.checked_div(u128::from(times)) {
        Some(one) => one,
        None => 0,
    }
}

/// The nanoseconds of one change of a kind in a round.
fn round(
    rt: &HostRuntime,
    site: &Measured<'_>,
    base: &Core,
    kind: ChangeKind,
    times: u64,
) -> Result<u128, Stop> {
    let start = nanoseconds(rt)?;
    repeated(site, base, kind, times)?;
    let taken = nanoseconds(rt)?.saturating_sub(start);
    Ok(of_one(taken, times))
}

/// The nanoseconds of one change of a kind in the best round. One is made before.
fn best(
    rt: &HostRuntime,
    site: &Measured<'_>,
    base: &Core,
    kind: ChangeKind,
    times: u64,
) -> Result<u128, Stop> {
    changed(site, base, kind, 0)?;
    let mut least = u128::MAX;
    for _round in 0..ROUNDS {
        least = least.min(round(rt, site, base, kind, times)?);
    }
    Ok(least)
}

/// Prints the nanoseconds that a kind of change takes.
fn measure_kind(
    rt: &HostRuntime,
    site: &Measured<'_>,
    kind: ChangeKind,
    times: u64,
) -> Result<(), Stop> {
    let base = base_of(site, kind)?;
    let least = best(rt, site, &base, kind, times);
    let_go::library(base);
    say(rt, kind.name(), least?)
}

/// Prints the nanoseconds that each kind of change takes.
fn measure_kinds(rt: &HostRuntime, site: &Measured<'_>, times: u64) -> Result<(), Stop> {
    say_counts(rt, site.base.counts())?;
    for kind in &KINDS {
        measure_kind(rt, site, *kind, times)?;
    }
    Ok(())
}

/// Prints how much is kept in a library of so many flows, and the nanoseconds that each kind of change takes on it, at
/// random among the first flows.
pub(crate) fn measure_changes(
    rt: &HostRuntime,
    flows: u64,
    near: u64,
    times: u64,
) -> Result<(), Stop> {
    let alloc = rt.alloc();
    let core = library(alloc, flows)?;
    let site = Measured {
        alloc,
        base: &core,
        flows,
        near: near.min(flows),
    };
    let done = measure_kinds(rt, &site, times);
    let_go::library(core);
    done
}

/// How long changes took to be applied, and how much was kept then.
#[derive(Clone, Copy)]
struct Reading {
    nanoseconds: u128,
    counts: Counts,
}

/// Applies changes in a row to an empty library.
fn applied(rt: &HostRuntime, changes: &[Change]) -> Result<Reading, Stop> {
    let start = nanoseconds(rt)?;
    let core = opened(rt.alloc(), changes)?;
    let end = nanoseconds(rt);
    let counts = core.counts();
    let_go::library(core);
    Ok(Reading {
        nanoseconds: end?.saturating_sub(start),
        counts,
    })
}

/// Prints the nanoseconds of the best round, and how much is kept behind it.
fn measure_applied(rt: &HostRuntime, changes: &[Change]) -> Result<(), Stop> {
    let mut best = applied(rt, changes)?;
    for _round in 1..ROUNDS {
        let again = applied(rt, changes)?;
        if again.nanoseconds < best.nanoseconds {
            best = again;
        }
    }
    say(rt, "apply", best.nanoseconds)?;
    say_counts(rt, best.counts)
}

/// Prints the nanoseconds that so many records take that are applied in a row, and how much is kept then.
pub(crate) fn measure_records(rt: &HostRuntime, records: u64) -> Result<(), Stop> {
    let alloc = rt.alloc();
    let mut changes = Listed::new(alloc);
    let done = match add_changes(alloc, &mut changes, records) {
        Ok(()) => measure_applied(rt, changes.items()),
        Err(_) => Err(Stop::Memory),
    };
    let_go::changes(changes);
    done
}
