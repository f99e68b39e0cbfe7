//! Runs worked examples. Standard input names case files, one a line, and each says what is done to a store
//! and what is to come of it. Each is run over a site in memory. A line is printed for each, `ok` or
//! `differs` with what differs, and last how many of each there were.
#![tactic(auto)]

mod running;
mod steps;
mod sweep;

use crate::steps::{CaseFile, run_case};
use case_files::Problem;
use disk_trait::Text;
use std::process::ExitCode;
use std::rt::Files;
use std::{fs, io};

/// How many cases passed, and how many didn't.
#[derive(Clone, Copy)]
struct Count {
    ok: u64,
    differ: u64,
}

fn main(rt: HostRuntime) -> io::Result<ExitCode> {
    let count = run_all(&rt)?;
    let Count { ok, differ } = count;
    println!(rt; "{ok} ok, {differ} differ")?;
    Ok(ExitCode::from(u8::from(differ > 0)))
}

/// Runs the cases whose names stand on standard input.
fn run_all<R: Files + Input + Print + AllocGlobal>(rt: &R) -> io::Result<Count> {
    let mut count = Count { ok: 0, differ: 0 };
    let mut passed = Vec::new(rt.alloc());
    for line in rt.lines(rt.alloc()) {
        let name = line?;
        match run_named(rt, name.as_str(), passed.as_slice()) {
            Ok(image) => {
                println!(rt; "ok {name}")?;
                count.ok = count.ok.saturating_add(1);
                passed.push(CaseFile {
                    name: Text::from_vec(name.into_bytes()),
                    image,
                })?;
            }
            Err(problem) => {
                println!(rt; "differs {name}{problem}")?;
                count.differ = count.differ.saturating_add(1);
            }
        }
    }
    Ok(count)
}

/// Runs the case of a file, and answers the file that it leaves.
fn run_named<R: Files + AllocGlobal>(
    rt: &R,
    name: &str,
    passed: &[CaseFile],
) -> Result<Text, Problem> {
    let text = fs::read_to_string(rt, name)?;
    run_case(rt.alloc(), text.as_str(), passed)
}
