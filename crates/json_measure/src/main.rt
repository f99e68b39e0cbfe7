//! Measures JSON: `json_measure WHAT SIZE TIMES` makes a page of SIZE segments and its text, and then does WHAT so
//! often. It prints one number, to which each answer adds; the time is taken from outside, less that of the same
//! words with 0 times. WHAT is `print` (the page is printed; its bytes count) or `read` (its text is read as a post;
//! the segments count). A post of no segment, or of more than 1,000, is refused and adds nothing.
#![tactic(auto)]

ghost use Rattle.std.specs.Prelude.{IsTrue};
ghost use Rattle.json_replies.specs.Texts.{has_reply_texts};

mod pages;

use crate::pages::{base_text, page};
use disk_trait::{Memory, Text};
use json_bodies::{BodyFault, read_segments};
use json_replies::print_reply;
use media_rows::Reply;
use std::alloc::Global;
use std::process::ExitCode;
use std::rt::Env;
use std::{env, io};

/// The status where the words are no measure.
const NO_MEASURE: u8 = 2;

/// The status where there is no memory.
const NO_MEMORY: u8 = 4;

/// The store's id, which no segment shows.
const STORE: u128 = 1;

fn main(rt: HostRuntime) -> io::Result<ExitCode> {
    let mut words = Vec::new(rt.alloc());
    for word in env::args(&rt)?.skip(1) {
        words.push(word)?;
    }
    let [what, size, times] = words.as_slice() else {
        return Ok(ExitCode::from(NO_MEASURE));
    };
    let (Ok(size), Ok(times)) = (size.parse::<u64>(), times.parse::<u64>()) else {
        return Ok(ExitCode::from(NO_MEASURE));
    };
    match measured(rt.alloc(), what.as_str(), size, times) {
        Ok(sum) => {
            println!(rt; "{sum}")?;
            Ok(ExitCode::from(0))
        }
        Err(Memory) => Ok(ExitCode::from(NO_MEMORY)),
    }
}

/// What the answers add up to. Other words do nothing.
fn measured(alloc: Global, what: &str, size: u64, times: u64) -> Result<u64, Memory> {
    match what {
        "print" => printed(alloc, size, times),
        "read" => posted(alloc, size, times),
        _ => Ok(0),
    }
}

/// How many bytes a page of so many segments has, each time that it is printed.
fn printed(alloc: Global, size: u64, times: u64) -> Result<u64, Memory> {
    let page = page(alloc, size)?;
    print_times(alloc, &page, times)
}

/// How many segments the text of such a page posts, each time that it is read.
fn posted(alloc: Global, size: u64, times: u64) -> Result<u64, Memory> {
    let text = page_text(alloc, size)?;
    read_times(alloc, text.bytes(), times)
}

/// The text of a page of so many segments.
fn page_text(alloc: Global, size: u64) -> Result<Text, Memory> {
    let page = page(alloc, size)?;
    print_page(alloc, &page)
}

/// The text of a page.
fn print_page(alloc: Global, page: &Reply) -> Result<Text, Memory>
    requires { IsTrue (has_reply_texts page.now) }
{
    let base = base_text(alloc)?;
    print_reply(alloc, page, STORE, &base)
}

/// How many bytes a page has, each time that it is printed.
fn print_times(alloc: Global, page: &Reply, times: u64) -> Result<u64, Memory>
    requires { IsTrue (has_reply_texts page.now) }
{
    let mut sum = 0_u64;
    for _time in 0..times {
        let text = print_page(alloc, page)?;
        sum = sum.wrapping_add(text.bytes().len() as u64);
    }
    Ok(sum)
}

/// How many segments a body posts, each time that it is read.
fn read_times(alloc: Global, body: &[u8], times: u64) -> Result<u64, Memory> {
    let mut sum = 0_u64;
    for _time in 0..times {
        sum = sum.wrapping_add(read_once(alloc, body)?);
    }
    Ok(sum)
}

/// How many segments a body posts, and none where it is refused.
fn read_once(alloc: Global, body: &[u8]) -> Result<u64, Memory> {
    match read_segments(alloc, body) {
        Ok(posts) => Ok(posts.items().len() as u64),
        Err(BodyFault::Refused(_refusal)) => Ok(0),
        Err(BodyFault::Memory) => Err(Memory),
    }
}
