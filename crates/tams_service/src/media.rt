//! PUTs of objects' bytes.
ghost use Rattle.std.specs.Prelude.{◌≡◌, ◌≤◌, ◌<◌, ◌+◌, ◌^◌, ℕ, List, Bool, true, false, None, IfOk, IfSome, IsFalse, IsNone, IsSome, IsTrue, OnOk, is_ok};
ghost use Rattle.std.specs.Result.{is_err};
ghost use Rattle.disk_trait.specs.Calls.{DiskCalls};
ghost use Rattle.http_wire.specs.Agreeing.{MayTurn};
ghost use Rattle.http_wire.specs.declared.stage.FeedStage.TheVariants as stages;
ghost use Rattle.media_rows.specs.Digests.{digest_of};
ghost use Rattle.media_rows.specs.Moments.{is_moment};
ghost use Rattle.media_store.specs.Puts.{end_handed, kept_behind, reply_if};
ghost use Rattle.media_store.specs.Stores.{size_of};
ghost use Rattle.store_states.specs.Kept.{AgreesWith};
ghost use Rattle.connection_loop.specs.Turns.{ClockCalls, SiteCalls};
ghost use Rattle.request_hearing.specs.Hearing.{OpensMedia};
ghost use Rattle.tams_service.specs.Answering.{EndKeepsId, EndsPutIf, IsWholePut, MediaLeads, TakeLeads, TellsAllOf, response_if, written_if};
ghost use Rattle.tams_service.specs.Serving.{needs_in};
ghost use Rattle.tams_service.specs.Taking.{HashedIf, IsPutBegun};

use crate::TamsService;
use crate::answering::{DueReply, TimedHead};
use crate::body::{BodyTaken, take_body};
use crate::ending::{starve, stop};
use connection_loop::{ConnectionEnd, RunTally};
use disk_trait::Failed;
use http_wire::Head;
use media_rows::Reply;
use media_store::{Put, Store};
use site_edge::{Clock, Site};
use std::alloc::Global;
use tams_answers::{MediaHead, MediaPlan, Responses, plan_media};

impl TamsService {
    /// Answers a media PUT whose head came: its body is heard to its end, also where it is refused. It takes its
    /// moment, and all memory of its answer, before that.
    pub(crate) fn answer_media<X: Site, C: Clock>(
        &mut self,
        alloc: Global,
        site: &mut X,
        clock: &mut C,
        tally: &mut RunTally,
        head: Head,
    ) -> Option<ConnectionEnd>
        requires unspent { IsFalse self.old.store.spent }
        requires opened { (taken : ℕ) × (all : List ℕ) × (said : Bool)
            × OpensMedia taken all said self.old.fed head }
        requires room { tally.old.answers < 2 ^ 60 }
        requires device { needs_in self.old.store ≤ (X.device site.old).size }
        requires under_way { (X.device site.old).link.under_way ≡ true }
        ensures calls { SiteCalls result (X.device site.old) (X.device site.new) }
        ensures needs { needs_in self.new.store ≤ needs_in self.old.store }
        ensures clock { ClockCalls 1 (C.tells clock.old) (C.tells clock.new)
            (C.given clock.old) (C.given clock.new) }
        ensures requests { self.new.fed.requests ≡ self.old.fed.requests }
        ensures base { self.new.base ≡ self.old.base }
        ensures counted { IsNone result → tally.new.answers ≡ tally.old.answers + 1 }
        ensures counted_last { tally.new.answers ≤ tally.old.answers + 1 }
        ensures ready { IsNone result → MayTurn self.new.fed }
        ensures ends { head.ends ≡ true → IsSome result }
        ensures leads { TellsAllOf (X.device site.old) → C.tells clock.new ≡ true
            → MediaLeads self.old self.new head (X.device site.old) (X.device site.new)
            (C.given clock.old) (C.given clock.new) tally.old tally.new result }
    {
        let now = clock.now();
        let media = MediaHead {
            target: self.hearing.bytes(head.target),
            length: head.length,
            ends: head.ends,
        };
        match plan_media(alloc, &self.routes, &self.base, &self.store, &media, now) {
            Err(_) => Some(starve(site, tally)),
            Ok(plan) => {
                let request = TimedHead { head, moment: now };
                self.take_put(alloc, site, tally, plan, request)
            }
        }
    }

    /// Hears the body of a media PUT that was planned, ends its put, where there is one, and says its answer.
    fn take_put<X: Site>(
        &mut self,
        alloc: Global,
        site: &mut X,
        tally: &mut RunTally,
        plan: MediaPlan,
        request: TimedHead,
    ) -> Option<ConnectionEnd>
        requires unspent { IsFalse self.old.store.spent }
        requires device { size_of self.old.store.kept ≤ (X.device site.old).size }
        requires under_way { (X.device site.old).link.under_way ≡ true }
        requires stage { self.old.fed.stage ≡ stages.Media request.head.length }
        requires ended { self.old.fed.ended ≡ request.head.ends }
        requires put { IfSome plan.put (IsPutBegun self.old.store.kept request.head.length) }
        requires id { IfSome plan.put (EndKeepsId self.old.store.kept) }
        requires moment { IsTrue (is_moment request.moment) }
        requires counts { tally.old.answers < 2 ^ 60 }
        ensures calls { SiteCalls result (X.device site.old) (X.device site.new) }
        ensures needs { needs_in self.new.store ≤ needs_in self.old.store }
        ensures requests { self.new.fed.requests ≡ self.old.fed.requests }
        ensures base { self.new.base ≡ self.old.base }
        ensures counted { IsNone result → tally.new.answers ≡ tally.old.answers + 1 }
        ensures counted_last { tally.new.answers ≤ tally.old.answers + 1 }
        ensures ready { IsNone result → MayTurn self.new.fed }
        ensures ends { request.head.ends ≡ true → IsSome result }
        ensures leads { TellsAllOf (X.device site.old) → TakeLeads self.old.store self.new.store
            self.old.fed self.new.fed request.head plan.put plan.responses (X.device site.old)
            (X.device site.new) request.moment tally.old tally.new result }
    {
        let MediaPlan { put, responses } = plan;
        let changes = changes_of(&put);
        let room = self.room.as_mut_slice();
        let size = request.head.length;
        match take_body(&mut self.store, &mut self.hearing, site, put, size, room) {
            BodyTaken::Whole => match end_put(&mut self.store, site) {
                Err(_) => Some(stop(site, tally, changes)),
                Ok(reply) => {
                    let reply = reply_with(response_of(&responses, &reply), changes, request);
                    self.finish(alloc, site, tally, &reply)
                }
            },
            BodyTaken::Ended => {
                self.store.put_drop();
                Some(ConnectionEnd::Cut)
            }
            BodyTaken::Unheard => {
                self.store.put_drop();
                Some(ConnectionEnd::Unlinked)
            }
            BodyTaken::Failed => {
                self.store.put_drop();
                Some(stop(site, tally, 0))
            }
        }
    }
}

/// Ends the put that is under way, whose bytes are all there, where there is one; its reply.
fn end_put<X: Site>(store: &mut Store, site: &mut X) -> Result<Option<Reply>, Failed>
    requires unspent { IsFalse store.old.spent }
    requires device { size_of store.old.kept ≤ (X.device site.old).size }
    requires filled { IfSome store.old.put (IsWholePut store.old.kept) }
    ensures makes { (X.device site.old).honest ≡ true → (X.device site.old).shows ≡ true
        → (held : List (List ℕ)) → (came : List ℕ)
        → AgreesWith (X.device site.old) store.old.kept held → HashedIf store.old.put came
        → EndsPutIf (is_ok result) store.old.put (digest_of came) store.old.kept held
        (X.device site.old) (X.device site.new) }
    ensures none { store.old.put ≡ None → (site.new ≡ site.old) × IsTrue (is_ok result) }
    ensures reply { IfOk result (λ reply. reply ≡ reply_if store.old.put) }
    ensures kept { (came : List ℕ) → HashedIf store.old.put came → OnOk result
        (store.new.kept ≡ kept_behind store.old.kept store.old.put (digest_of came)) }
    ensures idle { store.new.put ≡ None }
    ensures spent { store.new.spent ≡ is_err result }
    ensures handed { (X.device site.old).tells ≡ true → OnOk result ((X.device site.new).handed
        ≡ (X.device site.old).handed + end_handed store.old.put) }
    ensures calls { DiskCalls (is_ok result) (X.device site.old) (X.device site.new) }
{
    if !store.has_put() {
        return Ok(None);
    }
    match store.put_end(site) {
        Ok(reply) => Ok(Some(reply)),
        Err(fault) => Err(fault),
    }
}

/// How many changes the end of a put writes, where there is one.
fn changes_of(put: &Option<Put>) -> u64
    ensures { result ≡ written_if put.now }
{
    match put {
        Some(put) if put.writes() => 1,
        _ => 0,
    }
}

/// The bytes of the response to a put, by its reply; where there was no put, to its refusal.
fn response_of<'a>(responses: &'a Responses, reply: &Option<Reply>) -> &'a [u8]
    ensures { result.now ≡ response_if responses.now reply.now }
{
    match reply {
        None => responses.reply.bytes(),
        Some(reply) => responses.of(reply),
    }
}

/// A reply to a request, behind which no bytes of an object follow.
fn reply_with(response: &[u8], changes: u64, request: TimedHead) -> DueReply<'_>
    ensures response { result.response.now ≡ response.now }
    ensures rest { (result.media ≡ None) × (result.changes ≡ changes) × (result.moment ≡ request.moment)
        × (result.ends ≡ request.head.ends) }
{
    DueReply {
        response,
        media: None,
        changes,
        moment: request.moment,
        ends: request.head.ends,
    }
}
