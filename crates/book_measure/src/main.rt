//! Measures the books: `book_measure WHAT SIZE TIMES` makes a book of SIZE rows and then does WHAT so often, at
//! random places. It prints one number, to which each answer adds; the time is taken from outside, less that of
//! the same words with 0 times. WHAT is `page` (of 100 segments at most), `add` (a segment added, and removed),
//! `put`, `look` or `open` (a book of flows made from its rows); or, on a book of objects, `allocate`,
//! `mark-stored`, `first-idle`, `find`, `refer`, or `unrefer` (behind a `refer`).
#![tactic(auto)]

mod flows;
mod objects;
mod places;
mod segments;

use crate::flows::{looks, opened, puts};
use crate::objects::{BookCall, ReferenceCall, calls, references};
use crate::segments::{adds, pages};
use disk_trait::Memory;
use std::alloc::Global;
use std::marker::Brand;
use std::process::ExitCode;
use std::rt::Env;
use std::sync::ledger::Blank;
use std::{env, io};

/// The status where the words are no measure.
const NO_MEASURE: u8 = 2;

/// The status where there is no memory.
const NO_MEMORY: u8 = 4;

fn main(rt: HostRuntime) -> io::Result<ExitCode> {
    let mut words = Vec::new(rt.alloc());
    for word in env::args(&rt)?.skip(1) {
        words.push(word)?;
    }
    let [what, size, times] = words.as_slice() else {
        return Ok(ExitCode::from(NO_MEASURE));
    };
    let (Ok(size), Ok(times)) = (size.parse::<u64>(), times.parse::<u64>()) else {
        return Ok(ExitCode::from(NO_MEASURE));
    };
    match measured(rt.alloc(), what.as_str(), size, times) {
        Ok(sum) => {
            println!(rt; "{sum}")?;
            Ok(ExitCode::from(0))
        }
        Err(Memory) => Ok(ExitCode::from(NO_MEMORY)),
    }
}

/// What the answers add up to. Other words do nothing.
fn measured(alloc: Global, what: &str, size: u64, times: u64) -> Result<u64, Memory> {
    match what {
        "page" => pages::<Brand>(alloc, size, times, Blank::new(1)),
        "add" => adds::<Brand>(alloc, size, times, Blank::new(1)),
        "put" => puts(alloc, size, times),
        "look" => looks(alloc, size, times),
        "open" => opened(alloc, size, times),
        "allocate" => calls(alloc, BookCall::Allocate, size, times),
        "mark-stored" => calls(alloc, BookCall::MarkStored, size, times),
        "first-idle" => calls(alloc, BookCall::FirstIdle, size, times),
        "find" => calls(alloc, BookCall::Find, size, times),
        "refer" => references(alloc, ReferenceCall::Refer, size, times),
        "unrefer" => references(alloc, ReferenceCall::Unrefer, size, times),
        _ => Ok(0),
    }
}
