//! Feeds the bytes of a file to a feed of the wire, as a connection's, in pieces of so many bytes and so many
//! times, and prints how many times a request stood whole in them. Its time is taken from outside.
#![tactic(auto)]

ghost use Rattle.std.specs.Prelude.{◌≡◌, IsFalse};
ghost use Rattle.http_wire.specs.declared.stage.FeedStage.TheVariants.{Open};

use http_wire::{Feed, FeedStep};
use std::rt::{Env, Files};
use std::{env, fs, io};

/// How the bytes are fed.
#[derive(Clone, Copy)]
struct Plan {
    piece: usize,
    times: u64,
}

fn main(rt: HostRuntime) -> io::Result<()> {
    let whole = measure(&rt)?;
    println!(rt; "{whole} whole")?;
    Ok(())
}

/// Does what the words ask for: FILE PIECE TIMES.
fn measure<R: Files + Env + AllocGlobal>(rt: &R) -> io::Result<u64> {
    let mut words = env::args(rt)?.skip(1);
    let Some(path) = words.next() else {
        return Ok(0);
    };
    let plan = Plan {
        piece: number_in(words.next()) as usize,
        times: number_in(words.next()),
    };
    let bytes = fs::read(rt, path.as_str())?;
    let Ok(mut feed) = Feed::new(rt.alloc()) else {
        return Ok(0);
    };
    Ok(feed_times(&mut feed, bytes.as_slice(), plan))
}

/// The number of a word, and 0 where it is none.
fn number_in(word: Option<String>) -> u64 {
    match word {
        Some(word) => word.as_str().parse::<u64>().unwrap_or(0),
        None => 0,
    }
}

/// Feeds the bytes so many times, each as a connection of its own.
fn feed_times(feed: &mut Feed, bytes: &[u8], plan: Plan) -> u64 {
    let mut whole = 0u64;
    for _ in 0..plan.times {
        feed.restart();
        if is_whole(feed, bytes, plan.piece) {
            whole = whole.saturating_add(1);
        }
    }
    whole
}

/// Whether a request stands whole in these bytes, which are fed in pieces.
fn is_whole(feed: &mut Feed, bytes: &[u8], piece: usize) -> bool
    requires stage { feed.old.stage ≡ Open }
    requires goes_on { IsFalse feed.old.ended }
{
    for part in bytes.chunks(piece.max(1)) {
        if feed.push(part) < part.len() {
            return false;
        }
        match feed.next_request() {
            FeedStep::More => {}
            FeedStep::Head(_) | FeedStep::Whole(_) => return true,
            FeedStep::Refused(_) => return false,
        }
    }
    false
}
