//! Reads requests, one a line of standard input, and prints what each asks of a store.
#![tactic(auto)]

mod asks;

use crate::asks::{ask_name, detail_of, method_of};
use std::io;
use tams_http::{AskFault, Routes};

/// The store's id.
const STORE: u128 = 0x00000000_0000_4000_8000_000000000001;

fn main(rt: HostRuntime) -> io::Result<()> {
    match Routes::new(rt.alloc(), STORE) {
        Ok(routes) => print_all(&rt, &routes),
        Err(_) => no_memory(&rt),
    }
}

/// Prints what each line of standard input asks for.
fn print_all<R: Input + Print + AllocGlobal>(rt: &R, routes: &Routes) -> io::Result<()> {
    for line in rt.lines(rt.alloc()) {
        let line = line?;
        match line.as_str().split_once(' ') {
            Some((method, rest)) => print_ask(rt, routes, method, rest)?,
            None => println!(rt; "{line}")?,
        }
    }
    Ok(())
}

/// Prints what a request asks for: the name of what it is, or the number of its refusal with the detail.
fn print_ask<R: Print + AllocGlobal>(
    rt: &R,
    routes: &Routes,
    method: &str,
    rest: &str,
) -> io::Result<()> {
    let (target, body) = rest.split_once(' ').unwrap_or((rest, ""));
    let asked = routes.command_of(
        rt.alloc(),
        method_of(method),
        target.as_bytes(),
        body.as_bytes(),
    );
    match asked {
        Ok(ask) => println!(rt; "{method} {target} {}", ask_name(&ask)),
        Err(AskFault::Refused(refusal)) => println!(rt;
            "{method} {target} {} {}",
            refusal.number(),
            detail_of(&refusal)
        ),
        Err(AskFault::Memory) => no_memory(rt),
    }
}

fn no_memory<R: Print>(rt: &R) -> io::Result<()> {
    println!(rt; "no memory")
}
