//! Lines: a moment, and what is asked for then. Other lines say nothing and are printed as they are.
ghost use Rattle.std.specs.Prelude.{IsTrue};
ghost use Rattle.media_rows.specs.Moments.{is_moment};

use crate::asked::{CaseRequest, reply_to, response_to};
use crate::kept::{Followed, restore, turn};
use crate::told::{ShownReply, body_of};
use good_values::is_moment;
use http_wire::MethodKind;
use std::io;
use tams_http::Routes;

/// The method of a word (RFC 9110, section 9.3).
fn method_of(word: &str) -> MethodKind {
    match word {
        "GET" => MethodKind::Get,
        "HEAD" => MethodKind::Head,
        "POST" => MethodKind::Post,
        "PUT" => MethodKind::Put,
        "DELETE" => MethodKind::Delete,
        _ => MethodKind::Other,
    }
}

/// The moment with which a line begins, and the rest of it.
fn split_moment(line: &str) -> Option<(u64, &str)> {
    let (word, rest) = line.split_once(' ')?;
    match word.parse::<u64>() {
        Ok(moment) => Some((moment, rest)),
        Err(_) => None,
    }
}

/// Runs a line and prints what it gives.
pub(crate) fn run_line<R: Print + AllocGlobal>(
    rt: &R,
    routes: &Routes,
    kept: &mut Followed,
    line: &str,
) -> io::Result<()> {
    let Some((now, rest)) = split_moment(line) else {
        return println!(rt; "{line}");
    };
    if !is_moment(now) {
        return println!(rt; "no moment");
    }
    print!(rt; "{line} -> ")?;
    match rest {
        "turn" => run_turn(rt, kept, now),
        "rows" => run_rows(rt, kept),
        _ => match rest.strip_prefix("body ") {
            Some(line) => run_for_body(rt, routes, kept, line, now),
            None => run_request(rt, routes, kept, rest, now),
        },
    }
}

/// Runs a turn.
fn run_turn<R: Print + AllocGlobal>(rt: &R, kept: &mut Followed, now: u64) -> io::Result<()>
    requires { IsTrue (is_moment now) }
{
    match turn(rt.alloc(), kept, now) {
        Ok(None) => println!(rt; "nothing"),
        Ok(Some(reply)) => println!(rt; "{}", ShownReply(&reply)),
        Err(_) => println!(rt; "no memory"),
    }
}

/// Makes the library from its own rows, and prints how much it has then.
fn run_rows<R: Print + AllocGlobal>(rt: &R, kept: &mut Followed) -> io::Result<()> {
    match restore(rt.alloc(), kept) {
        Ok(true) => {}
        Ok(false) => return println!(rt; "refused"),
        Err(_) => return println!(rt; "no memory"),
    }
    let counts = kept.core.counts();
    println!(rt;
        "{} flows, {} segments, {} objects of {} bytes, {} requests, {} hooks, {} events",
        counts.flows,
        counts.segments,
        counts.objects,
        counts.bytes,
        counts.requests,
        counts.hooks,
        counts.events
    )
}

/// A request: a method, a target and a body.
fn request_of(line: &str) -> CaseRequest<'_> {
    let (method, rest) = line.split_once(' ').unwrap_or((line, ""));
    let (target, body) = rest.split_once(' ').unwrap_or((rest, ""));
    CaseRequest {
        method: method_of(method),
        target,
        body,
    }
}

/// Runs a request, and prints its reply in a few words.
fn run_request<R: Print + AllocGlobal>(
    rt: &R,
    routes: &Routes,
    kept: &mut Followed,
    line: &str,
    now: u64,
) -> io::Result<()>
    requires { IsTrue (is_moment now) }
{
    match reply_to(rt.alloc(), routes, kept, &request_of(line), now) {
        Ok(reply) => println!(rt; "{}", ShownReply(&reply)),
        Err(_) => println!(rt; "no memory"),
    }
}

/// Runs a request, and prints the body of the response.
fn run_for_body<R: Print + AllocGlobal>(
    rt: &R,
    routes: &Routes,
    kept: &mut Followed,
    line: &str,
    now: u64,
) -> io::Result<()>
    requires { IsTrue (is_moment now) }
{
    match response_to(rt.alloc(), routes, kept, &request_of(line), now) {
        Ok(response) => println!(rt; "{}", body_of(response.bytes())),
        Err(_) => println!(rt; "no memory"),
    }
}
