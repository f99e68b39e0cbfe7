//! Runs a library of a small store by requests, one a line of standard input, and prints what each is answered.
#![tactic(auto)]

mod asked;
mod kept;
mod lines;
mod told;

use crate::kept::Followed;
use crate::lines::run_line;
use std::io;
use tams_http::Routes;

/// The store's id.
const STORE: u128 = 0x00000000_0000_4000_8000_000000000001;

fn main(rt: HostRuntime) -> io::Result<()> {
    let alloc = rt.alloc();
    match (Routes::new(alloc, STORE), Followed::new(alloc)) {
        (Ok(routes), Ok(mut kept)) => run_all(&rt, &routes, &mut kept),
        _ => println!(rt; "no memory"),
    }
}

/// Runs the lines of standard input.
fn run_all<R: Input + Print + AllocGlobal>(
    rt: &R,
    routes: &Routes,
    kept: &mut Followed,
) -> io::Result<()> {
    for line in rt.lines(rt.alloc()) {
        let line = line?;
        run_line(rt, routes, kept, line.as_str())?;
    }
    Ok(())
}
