//! What is planned for what a request asks for, before its response.
ghost use Rattle.std.specs.Prelude.{◌≡◌, ◌≢◌, ℕ, Bool, List, IfOk, IsFalse, IsTrue, Option, Ok, Err};
ghost use Rattle.json_replies.specs.Texts.{has_refusal_texts};
ghost use Rattle.media_rows.specs.Moments.{is_moment};
ghost use Rattle.reply_laws.specs.Asks.{IsGoodFor};
ghost use Rattle.tams_http.specs.Asked.{ask_of};
ghost use Rattle.tams_http.specs.Good.{is_ask_good, is_command_good};
ghost use Rattle.tams_http.specs.declared.ask.Ask.TheVariants.{GetMedia, PutMedia, Run};
ghost use Rattle.tams_machine.specs.Laws.{is_sent};
ghost use Rattle.tams_machine.specs.Requests.{is_head_only};
ghost use Rattle.media_store.specs.declared.probes.Probe.{Probe};
ghost use Rattle.tams_answers.specs.Within.{PlansAsked, following_at, reply_at};

use crate::answers::Request;
use crate::asked::Asked;
use disk_trait::{Memory, Text};
use http_wire::MethodKind;
use media_rows::{Command, Extent, Refusal, Reply};
use media_store::{Probe, Store};
use reply_laws::{answers_have_texts, ask_refusals_have_texts, asks_are_good};
use std::alloc::Global;
use store_plans::Planned;
use tams_http::{Ask, Routes};
use tams_machine::requests_send_bytes;

/// What is planned, and where the bytes of an object lie that follow the response.
#[derive(Drop)]
pub(crate) struct PlannedAnswer {
    pub(crate) planned: Planned,
    pub(crate) media: Option<Extent>,
}

/// Plans what a request asks for at a moment, or its refusal. Where it asks for the bytes of a stored object, a
/// probe has told what they are.
pub(crate) fn plan_asked(
    alloc: Global,
    routes: &Routes,
    store: &Store,
    request: &Request<'_>,
    asked: Asked,
    probe: Option<Probe>,
    now: u64,
) -> Result<PlannedAnswer, Memory>
    requires unspent { IsFalse store.now.spent }
    requires moment { IsTrue (is_moment now) }
    requires asked { asked.ask
        ≡ ask_of routes.now request.now.method request.now.target.now request.now.body.now }
    requires good { IfOk asked.ask (λ ask. IsTrue (is_ask_good ask)) }
    requires no_put { (object : List ℕ) → asked.ask ≢ Ok (PutMedia object) }
    ensures { IfOk result (λ made. PlansAsked store.now.kept now (is_head_only request.now.method)
        asked.ask probe made.planned made.media) }
{
    asks_are_good();
    ask_refusals_have_texts();
    requests_send_bytes();
    match asked.ask {
        Ok(Ask::Run(command)) => plan_command(alloc, store, &command, now),
        Ok(Ask::GetMedia(object)) => plan_get(
            alloc,
            store,
            &object,
            probe,
            is_head_only(request.method),
        ),
        // A PUT of an object's bytes is planned by `plan_media`.
        Ok(Ask::PutMedia(_)) => unreachable!(),
        Err(why) => plan_refusal(alloc, store, why),
    }
}

/// Plans a command, which brings no bytes of an object.
fn plan_command(
    alloc: Global,
    store: &Store,
    command: &Command,
    now: u64,
) -> Result<PlannedAnswer, Memory>
    requires unspent { IsFalse store.now.spent }
    requires moment { IsTrue (is_moment now) }
    requires good { IsGoodFor store.now.kept.library command.now }
    requires words { IsTrue (is_command_good command.now) }
    requires sent { IsTrue (is_sent (Run command.now)) }
    ensures { IfOk result (λ made. (head_only : Bool)
        → (probe : Option Probe) → PlansAsked store.now.kept now head_only (Ok (Run command.now)) probe made.planned made.media) }
{
    answers_have_texts();
    store.keeps_good();
    let planned = store.plan(alloc, command, now)?;
    Ok(PlannedAnswer {
        planned,
        media: None,
    })
}

/// Plans what is shown of the bytes of an object: their length, where they are stored and whole.
fn plan_get(
    alloc: Global,
    store: &Store,
    object: &Text,
    probe: Option<Probe>,
    head_only: bool,
) -> Result<PlannedAnswer, Memory>
    ensures { IfOk result (λ made. (moment : ℕ) → PlansAsked store.now.kept moment head_only
        (Ok (GetMedia object.now)) probe made.planned made.media) }
{
    let extent = store.extent_of(object);
    let planned = store.keep(alloc, reply_at(extent, probe))?;
    let media = following_at(head_only, &planned.reply, extent);
    Ok(PlannedAnswer { planned, media })
}

/// Plans a refusal.
fn plan_refusal(alloc: Global, store: &Store, why: Refusal) -> Result<PlannedAnswer, Memory>
    requires texts { IsTrue (has_refusal_texts why) }
    ensures { IfOk result (λ made. (moment : ℕ) → (head_only : Bool)
        → (probe : Option Probe) → PlansAsked store.now.kept moment head_only (Err why) probe made.planned made.media) }
{
    let planned = store.keep(alloc, Reply::Refused(why))?;
    Ok(PlannedAnswer {
        planned,
        media: None,
    })
}

/// The reply where bytes of an object lie at this extent, if they lie somewhere, and a probe told this of them.
fn reply_at(extent: Option<Extent>, probe: Option<Probe>) -> Reply
    ensures { result ≡ reply_at extent probe }
{
    let Some(extent) = extent else {
        return Reply::Refused(Refusal::UnknownObject);
    };
    match probe {
        Some(Probe { kept, found }) if kept != found => {
            Reply::Refused(Refusal::ObjectDamaged { kept, found })
        }
        _ => Reply::Media(extent.length),
    }
}

/// Where the bytes lie that follow a response with this reply.
fn following_at(head_only: bool, reply: &Reply, extent: Option<Extent>) -> Option<Extent>
    ensures { result ≡ following_at head_only reply.now extent }
{
    match reply {
        Reply::Media(_) if !head_only => extent,
        _ => None,
    }
}

/// Whether a response to this method stands without its body.
pub(crate) fn is_head_only(method: MethodKind) -> bool
    ensures { result ≡ is_head_only method }
{
    matches!(method, MethodKind::Head)
}
