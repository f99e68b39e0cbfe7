//! Takes the time of the calls of the library machine. `core_measure change FLOWS NEAR TIMES` measures each kind of change
//! on a library of so many flows, at random among the first NEAR ones. `core_measure apply RECORDS` measures the applying
//! of so many changes in a row. Both say how much is kept. Times are in nanoseconds of the process.
#![tactic(auto)]

mod commands;
mod given;
mod kinds;
mod let_go;
mod library;
mod measures;
mod places;
mod records;
mod stop;

use crate::measures::{measure_changes, measure_records};
use crate::stop::Stop;
use std::process::ExitCode;
use std::rt::Env;
use std::{env, io};

/// The status where the words are no measure.
const NO_MEASURE: u8 = 2;

/// The status where a call refused what it has to take.
const REFUSED: u8 = 3;

/// The status where there is no memory.
const NO_MEMORY: u8 = 4;

/// The status where the clock or the output failed.
const NO_OUTSIDE: u8 = 5;

fn main(rt: HostRuntime) -> io::Result<ExitCode> {
    let mut words = Vec::new(rt.alloc());
    for word in env::args(&rt)?.skip(1) {
        words.push(word)?;
    }
    let status = match measured(&rt, words.as_slice()) {
        Ok(status) => status,
        Err(Stop::Refused(number)) => {
            println!(rt; "refused {number}")?;
            REFUSED
        }
        Err(Stop::Memory) => NO_MEMORY,
        Err(Stop::Outside) => NO_OUTSIDE,
    };
    Ok(ExitCode::from(status))
}

/// The number that a word spells, if it is one of 64 bits.
fn number(words: &[String], place: usize) -> Option<u64> {
    match words.get(place)?.parse::<u64>() {
        Ok(number) => Some(number),
        Err(_) => None,
    }
}

/// Measures what the words say, and gives the status.
fn measured(rt: &HostRuntime, words: &[String]) -> Result<u8, Stop> {
    let Some(what) = words.first() else {
        return Ok(NO_MEASURE);
    };
    match (
        what.as_str(),
        number(words, 1),
        number(words, 2),
        number(words, 3),
    ) {
        ("change", Some(flows), Some(near), Some(times)) => measure_changes(
            rt, flows, near, times,
        )?,
        ("apply", Some(records), None, None) => measure_records(rt, records)?,
        _ => return Ok(NO_MEASURE),
    }
    Ok(0)
}
