//! Answers that end a connection whatever was asked: where there was no memory, where the disk failed, and where
//! the wire refuses what was heard.
ghost use Rattle.std.specs.Prelude.{◌≡◌, ◌≤◌, ◌<◌, ◌^◌, ℕ, List, true, false, Some};
ghost use Rattle.http_wire.specs.declared.framing.WireFault.{WireFault};
ghost use Rattle.media_store.specs.Stores.{StoreSeen};
ghost use Rattle.connection_loop.specs.Tallies.{plus_answer};
ghost use Rattle.connection_loop.specs.Turns.{SiteCalls};
ghost use Rattle.connection_loop.specs.declared.ending.ConnectionEnd.TheVariants.{Starved, Stopped};
ghost use Rattle.tams_machine.specs.Requests.{wire_response};
ghost use Rattle.tams_answers.specs.Wire.{AreResponses};
ghost use Rattle.tams_service.specs.Answering.{RefuseLeads, StarveLeads, StopLeads, TellsAllOf};
ghost use Rattle.tams_service.specs.Sites.{LinkCalls};

use connection_loop::{ConnectionEnd, RunTally};
use http_wire::WireFault;
use site_edge::{LinkFailed, Site};
use tams_answers::WireResponses;
use tams_http::{server_error, unavailable};

/// Says that there was no memory for a request.
pub(crate) fn starve<X: Site>(site: &mut X, tally: &mut RunTally) -> ConnectionEnd
    requires room { tally.old.answers < 2 ^ 60 }
    requires under_way { (X.device site.old).link.under_way ≡ true }
    ensures starved { result ≡ Starved }
    ensures calls { LinkCalls (X.device site.old) (X.device site.new) }
    ensures counted { tally.new ≡ plus_answer 0 false tally.old }
    ensures leads { TellsAllOf (X.device site.old) → StarveLeads (X.device site.old)
        (X.device site.new) tally.old tally.new }
{
    tally.count(0);
    let _ = site.say(server_error().as_bytes());
    ConnectionEnd::Starved
}

/// Says that the disk failed in a request, while the records of so many changes were being written.
pub(crate) fn stop<X: Site>(site: &mut X, tally: &mut RunTally, changes: u64) -> ConnectionEnd
    requires room { tally.old.answers < 2 ^ 60 }
    requires few { changes ≤ 1 }
    requires under_way { (X.device site.old).link.under_way ≡ true }
    ensures stopped { result ≡ Stopped }
    ensures calls { LinkCalls (X.device site.old) (X.device site.new) }
    ensures counted { tally.new ≡ plus_answer changes false tally.old }
    ensures leads { TellsAllOf (X.device site.old) → StopLeads (X.device site.old)
        (X.device site.new) tally.old tally.new changes }
{
    tally.count(changes);
    let _ = site.say(unavailable().as_bytes());
    ConnectionEnd::Stopped
}

/// Says the response to what the wire refuses, which ends the connection.
pub(crate) fn refuse_wire<X: Site>(
    site: &mut X,
    tally: &mut RunTally,
    responses: &WireResponses,
    fault: WireFault,
) -> ConnectionEnd
    requires room { tally.old.answers < 2 ^ 60 }
    requires under_way { (X.device site.old).link.under_way ≡ true }
    ensures calls { SiteCalls (Some result) (X.device site.old) (X.device site.new) }
    ensures counted { tally.new ≡ plus_answer 0 false tally.old }
    ensures leads { TellsAllOf (X.device site.old) → (base : List ℕ) (store : StoreSeen)
        → AreResponses base responses.now
        → RefuseLeads base (X.device site.old) (X.device site.new) store tally.old tally.new
        fault result }
{
    refuse(site, tally, responses.of(fault))
}

/// Says a response that ends the connection.
fn refuse<X: Site>(site: &mut X, tally: &mut RunTally, response: &[u8]) -> ConnectionEnd
    requires room { tally.old.answers < 2 ^ 60 }
    requires under_way { (X.device site.old).link.under_way ≡ true }
    ensures calls { SiteCalls (Some result) (X.device site.old) (X.device site.new) }
    ensures counted { tally.new ≡ plus_answer 0 false tally.old }
    ensures leads { TellsAllOf (X.device site.old) → (base : List ℕ) (store : StoreSeen)
        → (fault : WireFault) → response.now ≡ wire_response base fault
        → RefuseLeads base (X.device site.old) (X.device site.new) store tally.old tally.new
        fault result }
{
    tally.count(0);
    match site.say(response) {
        Ok(()) => ConnectionEnd::Complete,
        Err(LinkFailed) => ConnectionEnd::Unlinked,
    }
}
