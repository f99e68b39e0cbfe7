//! An exchange with a hook's peer.
ghost use Rattle.std.specs.Prelude.{◌≡◌, ◌<◌, ◌≤◌, ◌+◌, IfOk, IfSome, IsNone, Ok, OnErr, drop, false, is_ok, length, take, true};
ghost use Rattle.disk_trait.specs.Calls.{Rose, Unchanged};
ghost use Rattle.site_edge.specs.Links.{LinkCall, SiteHeard};
ghost use Rattle.hook_delivery.specs.Exchanging.{HasExchanged, SaysAnswer, answer_of};
ghost use Rattle.hook_delivery.specs.Within.Conversing.{HasAsked, HearsAnswer};

use crate::judging::{MAX_ANSWER, Verdict, judge};
use crate::request::Outgoing;
use disk_trait::Memory;
use site_edge::{Caller, LinkFailed, Site};
use std::alloc::Global;

/// What came of an exchange.
#[derive(Clone, Copy, Debug, PartialEq, Eq)]
pub enum Answered {
    /// A status from 200 to 299.
    Accepted,
    /// Another status.
    Other(u16),
    /// No response: the peer's bytes ended before one, or are none.
    Silent,
    /// A call of the link failed.
    Failed,
}

/// Dials a port of this machine once, says the request, hears the answer and ends the connection. All memory is
/// taken before the port is dialled; where there is none nothing is done.
pub fn exchange<X: Caller>(alloc: Global, site: &mut X, out: &Outgoing) -> Result<Answered, Memory>
    ensures ok { IfOk result (λ answer. HasExchanged out.now.port out.now.bytes answer
        (X.device site.old) (X.device site.new)) }

    // An exchange fails only where the count of link faults rose.
    ensures failed { result ≡ Ok Answered.Failed
        → Rose (X.device site.old).link.faults (X.device site.new).link.faults }
    ensures err { OnErr result (site.new ≡ site.old) }
{
    let mut heard = vec![in alloc; 0u8; MAX_ANSWER]?;
    match site.dial(out.port) {
        Ok(()) => {
            let answer = ask(site, out.bytes.bytes(), heard.as_mut_slice());
            site.close_peer();
            Ok(answer)
        }
        Err(LinkFailed) => Ok(Answered::Failed),
    }
}

/// Says the request on the connection that is under way, and hears its answer.
fn ask<X: Site>(site: &mut X, request: &[u8], heard: &mut [u8]) -> Answered
    requires room { length heard.old ≡ MAX_ANSWER }
    requires under_way { (X.device site.old).link.under_way ≡ true }
    ensures asked { HasAsked request.now result (X.device site.old) (X.device site.new) }
    ensures under_way { (X.device site.new).link.under_way ≡ true }
{
    match site.say(request) {
        Ok(()) => hear_answer(site, heard),
        Err(LinkFailed) => Answered::Failed,
    }
}

/// Hears the answer on the connection that is under way.
fn hear_answer<X: Site>(site: &mut X, heard: &mut [u8]) -> Answered
    requires room { length heard.old ≡ MAX_ANSWER }
    requires under_way { (X.device site.old).link.under_way ≡ true }
    ensures { HearsAnswer result (X.device site.old) (X.device site.new) }
{
    let mut count = 0;
    loop {
        match hear_behind(site, heard, count) {
            Ok(0) => return last_answer(&heard[..count]),
            Ok(more) => count += more,
            Err(LinkFailed) => return Answered::Failed,
        }
        if let Some(answer) = answer_so_far(&heard[..count]) {
            return answer;
        }
    }
}

/// Hears some bytes of the peer behind so many, and says how many; 0 at the end of its bytes.
fn hear_behind<X: Site>(site: &mut X, heard: &mut [u8], count: usize) -> Result<usize, LinkFailed>
    requires some { count < length heard.old }
    requires under_way { (X.device site.old).link.under_way ≡ true }
    ensures len { length heard.new ≡ length heard.old }
    ensures front { take count heard.new ≡ take count heard.old }
    ensures within { IfOk result (λ more. count + more ≤ length heard.old) }
    ensures call { LinkCall Unchanged Unchanged (is_ok result)
        (X.device site.old) (X.device site.new) }
    ensures heard { SiteHeard result (drop count heard.new)
        (X.device site.old) (X.device site.new) }
{
    let (_, free) = heard.split_at_mut(count);
    site.hear(free)
}

/// What all bytes of the peer say.
fn last_answer(heard: &[u8]) -> Answered
    ensures { SaysAnswer result heard.now true }
{
    match judge(heard, true) {
        Verdict::Status(status) => answer_of(status),
        Verdict::Silent | Verdict::More => Answered::Silent,
    }
}

/// What the bytes so far say, and `None` where more are wanted, for which there is room.
fn answer_so_far(heard: &[u8]) -> Option<Answered>
    ensures some { IfSome result (λ answer. SaysAnswer answer heard.now false) }
    ensures none { IsNone result → length heard.now < MAX_ANSWER }
{
    match judge(heard, false) {
        Verdict::Status(status) => Some(answer_of(status)),
        Verdict::Silent => Some(Answered::Silent),
        Verdict::More => None,
    }
}

/// The answer of a status (RFC 9110, section 15.3).
fn answer_of(status: u16) -> Answered
    ensures { result ≡ answer_of status }
{
    if 200 <= status && status <= 299 {
        Answered::Accepted
    } else {
        Answered::Other(status)
    }
}
