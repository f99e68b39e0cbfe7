//! PUTs of objects' bytes, by their heads.
ghost use Rattle.std.specs.Prelude.{◌≡◌, IfOk, IsFalse, IsTrue};
ghost use Rattle.std.specs.Str.{is_utf8};
ghost use Rattle.json_replies.specs.Texts.{has_refusal_texts, has_reply_texts};
ghost use Rattle.media_rows.specs.Moments.{is_moment};
ghost use Rattle.media_store.specs.Puts.{IsPlannedPut};
ghost use Rattle.tams_http.specs.Answered.{response_to};
ghost use Rattle.tams_machine.specs.Requests.{TamsRequest};
ghost use Rattle.tams_answers.specs.Media.{IsMediaSent, MediaAnswers, response_by};
ghost use Rattle.tams_answers.specs.Within.{HasResponses, IsPlannedWith, IsRefusedPlan, object_asked, put_context};

use disk_trait::{Memory, Text};
use http_wire::MethodKind;
use media_rows::{Refusal, Reply};
use media_store::{Put, Store};
use reply_laws::{
    answers_have_texts, ask_refusals_have_texts, media_answers_have_texts, media_puts_agree,
};
use std::alloc::Global;
use tams_http::{AnswerContext, Ask, AskFault, Routes};

/// The head of a media PUT, as it is answered.
#[derive(Drop)]
pub struct MediaHead<'a> {
    /// The target, as it was sent.
    pub target: &'a [u8],
    /// The length of the body in bytes.
    pub length: u64,
    /// Whether the connection ends behind the answer.
    pub ends: bool,
}

/// The responses that a put may have.
#[derive(Drop)]
pub struct Responses {
    pub reply: Text,
    /// The one where other bytes are kept.
    pub other: Text,
}

impl Responses {
    /// The bytes of the response to a reply.
    pub fn of(&self, reply: &Reply) -> &[u8]
        ensures { result.now ≡ response_by self.now reply.now }
    {
        match reply {
            Reply::Refused(Refusal::OtherBytes) => self.other.bytes(),
            _ => self.reply.bytes(),
        }
    }
}

/// What is planned of a media PUT: the put, and its responses. There is none where the request is refused
/// whatever is kept; its response is then that to the refusal.
#[derive(Drop)]
pub struct MediaPlan {
    pub put: Option<Put>,
    pub responses: Responses,
}

/// Plans a media PUT at a moment, in seconds since 1970-01-01T00:00:00Z, over a store whose addresses begin with
/// `base`. It takes all memory of the answer, and changes nothing.
pub fn plan_media(
    alloc: Global,
    routes: &Routes,
    base: &Text,
    store: &Store,
    head: &MediaHead<'_>,
    now: u64,
) -> Result<MediaPlan, Memory>
    requires unspent { IsFalse store.now.spent }
    requires routes { routes.now ≡ store.now.kept.library.id }
    requires base { IsTrue (is_utf8 base.now) }
    requires moment { IsTrue (is_moment now) }
    ensures { IfOk result (λ plan. (r : TamsRequest) → IsMediaSent (record {
      target = head.now.target.now;
      size = head.now.length;
      ends = head.now.ends;
    }) r → MediaAnswers base.now r now store.now.kept plan.put plan.responses) }
{
    ask_refusals_have_texts();
    media_puts_agree();
    match object_asked(routes.command_of(alloc, MethodKind::Put, head.target, b"")) {
        Ok(object) => plan_put(alloc, routes, base, store, &object, head, now),
        Err(AskFault::Refused(why)) => refuse(alloc, routes, base, why, head),
        Err(AskFault::Memory) => Err(Memory),
    }
}

/// The object that a PUT of its bytes was asked for. No media PUT asks for anything else: that would be another
/// method.
fn object_asked(asked: Result<Ask, AskFault>) -> Result<Text, AskFault>
    ensures { result ≡ object_asked asked }
{
    match asked {
        Ok(Ask::PutMedia(object)) => Ok(object),
        Ok(Ask::Run(_) | Ask::GetMedia(_)) => Err(AskFault::Refused(Refusal::NoMethod)),
        Err(fault) => Err(fault),
    }
}

/// The plan of a put of an object's bytes.
fn plan_put(
    alloc: Global,
    routes: &Routes,
    base: &Text,
    store: &Store,
    object: &Text,
    head: &MediaHead<'_>,
    now: u64,
) -> Result<MediaPlan, Memory>
    requires unspent { IsFalse store.now.spent }
    requires base { IsTrue (is_utf8 base.now) }
    requires moment { IsTrue (is_moment now) }
    ensures { IfOk result (λ plan. IsPlannedWith
        (put_context routes.now base.now head.now.target.now head.now.ends)
        store.now.kept object.now head.now.length now plan.put plan.responses) }
{
    let put = store.plan_put(alloc, object, head.length, now)?;
    let responses = responses_to(alloc, routes, base, &put, head)?;
    Ok(MediaPlan {
        put: Some(put),
        responses,
    })
}

/// The responses to what a put may be answered.
fn responses_to(
    alloc: Global,
    routes: &Routes,
    base: &Text,
    put: &Put,
    head: &MediaHead<'_>,
) -> Result<Responses, Memory>
    requires base { IsTrue (is_utf8 base.now) }
    requires planned { IsPlannedPut put.now }
    ensures { IfOk result
        (HasResponses (put_context routes.now base.now head.now.target.now head.now.ends) put.now) }
{
    answers_have_texts();
    media_answers_have_texts();
    let reply = response_of(alloc, routes, base, put.reply_if_same(), head)?;
    let other = Reply::Refused(Refusal::OtherBytes);
    let other = response_of(alloc, routes, base, other, head)?;
    Ok(Responses { reply, other })
}

/// The plan of a media PUT that is refused.
fn refuse(
    alloc: Global,
    routes: &Routes,
    base: &Text,
    why: Refusal,
    head: &MediaHead<'_>,
) -> Result<MediaPlan, Memory>
    requires base { IsTrue (is_utf8 base.now) }
    requires texts { IsTrue (has_refusal_texts why) }
    ensures { IfOk result (λ plan. IsRefusedPlan
        (put_context routes.now base.now head.now.target.now head.now.ends) why
        plan.put plan.responses) }
{
    let reply = response_of(alloc, routes, base, Reply::Refused(why), head)?;
    let other = Text::from_bytes(alloc, b"")?;
    Ok(MediaPlan {
        put: None,
        responses: Responses { reply, other },
    })
}

/// The response to a reply of a media PUT.
fn response_of(
    alloc: Global,
    routes: &Routes,
    base: &Text,
    reply: Reply,
    head: &MediaHead<'_>,
) -> Result<Text, Memory>
    requires base { IsTrue (is_utf8 base.now) }
    requires texts { IsTrue (has_reply_texts reply) }
    ensures { IfOk result (λ text. text ≡ response_to
        (put_context routes.now base.now head.now.target.now head.now.ends) reply) }
{
    let context = AnswerContext {
        target: head.target,
        base,
        ends: head.ends,
        head_only: false,
    };
    routes.response_of(alloc, &reply, &context)
}
