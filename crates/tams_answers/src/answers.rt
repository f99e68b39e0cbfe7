//! Requests that came whole.
ghost use Rattle.std.specs.Prelude.{◌≡◌, ◌≢◌, ℕ, List, None, IfOk, IfSome, IsFalse, IsTrue, Ok};
ghost use Rattle.std.specs.Str.{is_utf8};
ghost use Rattle.media_rows.specs.Moments.{is_moment};
ghost use Rattle.store_states.specs.Kept.{kept_state};
ghost use Rattle.media_store.specs.Changes.{CanCommit};
ghost use Rattle.media_store.specs.Pieces.{IsExtent};
ghost use Rattle.media_store.specs.Stores.{archive_of};
ghost use Rattle.store_plans.specs.Plans.{MakesStep};
ghost use Rattle.tams_http.specs.Asked.{ask_of};
ghost use Rattle.tams_http.specs.Good.{is_ask_good};
ghost use Rattle.tams_http.specs.declared.ask.Ask.TheVariants.{PutMedia};
ghost use Rattle.tams_machine.specs.Answers.{journal_of_state, outcome_of};
ghost use Rattle.tams_machine.specs.Requests.{TamsRequest};
ghost use Rattle.tams_answers.specs.Answers.{AnswersRequest, IsSent, ProbeTells, parts_of};

use crate::asked::Asked;
use crate::plans::{PlannedAnswer, is_head_only, plan_asked};
use disk_trait::{Memory, Text};
use http_wire::MethodKind;
use media_rows::Extent;
use media_store::{Probe, Store};
use std::alloc::Global;
use store_plans::Planned;
use tams_http::{AnswerContext, Routes};

/// A request that came whole.
#[derive(Drop)]
pub struct Request<'a> {
    pub method: MethodKind,
    /// The target, as it was sent.
    pub target: &'a [u8],
    pub body: &'a [u8],
    /// Whether the connection ends behind the answer.
    pub ends: bool,
}

/// What is planned of an answer: what is written for it, the bytes of its response, and where those of an
/// object lie that follow it.
#[derive(Drop)]
pub struct Answer {
    pub planned: Planned,
    pub response: Text,
    pub media: Option<Extent>,
}

/// Plans the answer to a request at a moment, in seconds since 1970-01-01T00:00:00Z, over a store whose addresses
/// begin with `base`, from what it asks for. Where it asks for the bytes of a stored object, a probe has told what
/// they are. It takes all memory of the answer, and changes nothing. A PUT of an object's bytes goes by
/// `plan_media`.
pub fn plan_answer(
    alloc: Global,
    routes: &Routes,
    base: &Text,
    store: &Store,
    request: &Request<'_>,
    asked: Asked,
    probe: Option<Probe>,
    now: u64,
) -> Result<Answer, Memory>
    requires unspent { IsFalse store.now.spent }
    requires routes { routes.now ≡ store.now.kept.library.id }
    requires base { IsTrue (is_utf8 base.now) }
    requires moment { IsTrue (is_moment now) }
    requires asked { asked.ask
        ≡ ask_of routes.now request.now.method request.now.target.now request.now.body.now }
    requires good { IfOk asked.ask (λ ask. IsTrue (is_ask_good ask)) }
    requires no_put { (object : List ℕ) → asked.ask ≢ Ok (PutMedia object) }
    ensures answers { IfOk result (λ answer. (held : List (List ℕ)) (r : TamsRequest)
        → ProbeTells (archive_of store.now.kept held) asked.ask probe
        → IsSent (parts_of request.now) r
        → AnswersRequest base.now (kept_state store.now.kept held) r now answer) }
    ensures step { IfOk result (λ answer. (held : List (List ℕ)) (r : TamsRequest)
        → IsSent (parts_of request.now) r
        → MakesStep (journal_of_state (kept_state store.now.kept held))
        (outcome_of (kept_state store.now.kept held) r now).change answer.planned) }
    ensures ready { IfOk result (λ answer. CanCommit store.now.kept answer.planned) }
    ensures media { IfOk result (λ answer. IfSome answer.media
        (λ extent. IsExtent store.now.kept.library extent × (answer.planned.frame ≡ None))) }
{
    let PlannedAnswer { planned, media } = plan_asked(
        alloc, routes, store, request, asked, probe, now,
    )?;
    let context = AnswerContext {
        target: request.target,
        base,
        ends: request.ends,
        head_only: is_head_only(request.method),
    };
    let response = routes.response_of(alloc, &planned.reply, &context)?;
    Ok(Answer {
        planned,
        response,
        media,
    })
}
