//! Requests that came whole.
ghost use Rattle.std.specs.Prelude.{◌≡◌, ◌≤◌, ◌<◌, ◌+◌, ◌^◌, ℕ, List, Bool, true, None, IfSome, IsFalse, IsSome, IsTrue};
ghost use Rattle.media_rows.specs.Moments.{is_moment};
ghost use Rattle.media_store.specs.Changes.{CanCommit};
ghost use Rattle.media_store.specs.Pieces.{IsExtent};
ghost use Rattle.media_store.specs.Stores.{size_of};
ghost use Rattle.connection_loop.specs.Turns.{ClockCalls, SiteCalls};
ghost use Rattle.request_hearing.specs.Hearing.{GivesRequest};
ghost use Rattle.tams_service.specs.Answering.{GiveLeads, PlanKeepsId, TellsAllOf, WholeLeads, changes_in};
ghost use Rattle.tams_service.specs.Serving.{needs_in};

use crate::TamsService;
use crate::answering::{DueReply, TimedHead};
use crate::ending::{starve, stop};
use crate::probing::plan_whole;
use connection_loop::{ConnectionEnd, RunTally};
use http_wire::Head;
use media_store::StoreFault;
use reply_laws::media_puts_agree;
use site_edge::{Clock, Site};
use std::alloc::Global;
use store_plans::Planned;
use tams_answers::{Answer, Request, media_follows};

impl TamsService {
    /// Answers a request that came whole. The bytes of an object are read before anything is said of them.
    pub(crate) fn answer_whole<X: Site, C: Clock>(
        &mut self,
        alloc: Global,
        site: &mut X,
        clock: &mut C,
        tally: &mut RunTally,
        head: Head,
    ) -> Option<ConnectionEnd>
        requires unspent { IsFalse self.old.store.spent }
        requires given { (taken : ℕ) × (all : List ℕ) × (said : Bool)
            × GivesRequest taken all said self.old.fed head }
        requires room { tally.old.answers < 2 ^ 60 }
        requires device { needs_in self.old.store ≤ (X.device site.old).size }
        requires under_way { (X.device site.old).link.under_way ≡ true }
        ensures calls { SiteCalls result (X.device site.old) (X.device site.new) }
        ensures needs { needs_in self.new.store ≤ needs_in self.old.store }
        ensures clock { ClockCalls 1 (C.tells clock.old) (C.tells clock.new)
            (C.given clock.old) (C.given clock.new) }
        ensures fed { self.new.fed ≡ self.old.fed }
        ensures base { self.new.base ≡ self.old.base }
        ensures counted { tally.new.answers ≡ tally.old.answers + 1 }
        ensures ends { head.ends ≡ true → IsSome result }
        ensures leads { TellsAllOf (X.device site.old) → C.tells clock.new ≡ true
            → WholeLeads self.old self.new head (X.device site.old) (X.device site.new)
            (C.given clock.old) (C.given clock.new) tally.old tally.new result }
    {
        media_puts_agree();
        let now = clock.now();
        let request = Request {
            method: head.method,
            target: self.hearing.bytes(head.target),
            body: self.hearing.bytes(head.body),
            ends: head.ends,
        };
        match plan_whole(
            alloc,
            &self.routes,
            &self.base,
            &mut self.store,
            site,
            &request,
            now,
        ) {
            Err(StoreFault::Memory) => Some(starve(site, tally)),
            Err(StoreFault::Disk) => Some(stop(site, tally, 0)),
            Ok(answer) => {
                let request = TimedHead { head, moment: now };
                self.give_answer(alloc, site, tally, answer, request)
            }
        }
    }

    /// Writes the change of an answer that was planned, and says the answer.
    fn give_answer<X: Site>(
        &mut self,
        alloc: Global,
        site: &mut X,
        tally: &mut RunTally,
        answer: Answer,
        request: TimedHead,
    ) -> Option<ConnectionEnd>
        requires unspent { IsFalse self.old.store.spent }
        requires device { size_of self.old.store.kept ≤ (X.device site.old).size }
        requires under_way { (X.device site.old).link.under_way ≡ true }
        requires ready { CanCommit self.old.store.kept answer.planned }
        requires media { IfSome answer.media (λ extent. IsExtent self.old.store.kept.library extent
            × (answer.planned.frame ≡ None)) }
        requires id { PlanKeepsId self.old.store.kept answer.planned }
        requires moment { IsTrue (is_moment request.moment) }
        requires counts { tally.old.answers < 2 ^ 60 }
        ensures calls { SiteCalls result (X.device site.old) (X.device site.new) }
        ensures counted { tally.new.answers ≡ tally.old.answers + 1 }
        ensures ends { request.head.ends ≡ true → IsSome result }
        ensures needs { needs_in self.new.store ≤ needs_in self.old.store }
        ensures fed { self.new.fed ≡ self.old.fed }
        ensures base { self.new.base ≡ self.old.base }
        ensures leads { TellsAllOf (X.device site.old) → GiveLeads (X.device site.old)
            (X.device site.new) self.old.store self.new.store tally.old tally.new answer
            request.moment request.head.ends result }
    {
        media_follows();
        let Answer {
            planned,
            response,
            media,
        } = answer;
        let changes = changes_of(&planned);
        match self.store.commit(site, planned) {
            Err(_) => Some(stop(site, tally, changes)),
            Ok(_) => {
                let reply = DueReply {
                    response: response.bytes(),
                    media,
                    changes,
                    moment: request.moment,
                    ends: request.head.ends,
                };
                self.finish(alloc, site, tally, &reply)
            }
        }
    }
}

/// How many changes a plan writes.
fn changes_of(planned: &Planned) -> u64
    ensures { result ≡ changes_in planned.now.frame }
{
    match &planned.frame {
        Some(_) => 1,
        None => 0,
    }
}
