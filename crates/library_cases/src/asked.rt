//! Requests, and what the library answers to them.
ghost use Rattle.std.specs.Prelude.{◌≡◌, IfOk, IsTrue, Some, option_map};
ghost use Rattle.std.specs.Str.{is_utf8};
ghost use Rattle.json_replies.specs.Texts.{has_reply_texts};
ghost use Rattle.media_rows.specs.declared.object.ObjectState.TheVariants.{Allocated};
ghost use Rattle.media_rows.specs.Moments.{is_moment};
ghost use Rattle.media_rows.specs.Ids.{is_object_id};
ghost use Rattle.media_rows.specs.Objects.{object_of};
ghost use Rattle.media_rows.specs.Sound.{is_good_command};
ghost use Rattle.reply_laws.specs.Asks.{IsGoodAsk, asks_few};
ghost use Rattle.tams_http.specs.Good.{is_ask_good, is_command_good};

use crate::kept::{Followed, run};
use disk_trait::{Memory, Text};
use http_wire::MethodKind;
use media_rows::{Command, Digest, ObjectState, Refusal, Reply};
use reply_laws::{answers_have_texts, ask_refusals_have_texts, asks_are_good};
use std::alloc::Global;
use tams_http::{AnswerContext, Ask, AskFault, Routes};

/// What stands for the digest of an object's bytes, which don't come here.
const NO_DIGEST: Digest = Digest { high: 0, low: 0 };

/// What the addresses of the store begin with.
const BASE: &str = "http://s";

/// How many bytes a block has.
const BLOCK: u64 = 4096;

/// A method, a target and a body.
#[derive(Drop)]
pub(crate) struct CaseRequest<'a> {
    pub(crate) method: MethodKind,
    pub(crate) target: &'a str,
    pub(crate) body: &'a str,
}

/// The response to a request.
pub(crate) fn response_to(
    alloc: Global,
    routes: &Routes,
    kept: &mut Followed,
    request: &CaseRequest<'_>,
    now: u64,
) -> Result<Text, Memory>
    requires moment { IsTrue (is_moment now) }
{
    let reply = reply_to(alloc, routes, kept, request, now)?;
    let base = text_of(alloc, BASE)?;
    let context = AnswerContext {
        target: request.target.as_bytes(),
        base: &base,
        ends: false,
        head_only: false,
    };
    routes.response_of(alloc, &reply, &context)
}

/// What is answered to a request. The body of a media object is the number of its bytes, which nobody has.
pub(crate) fn reply_to(
    alloc: Global,
    routes: &Routes,
    kept: &mut Followed,
    request: &CaseRequest<'_>,
    now: u64,
) -> Result<Reply, Memory>
    requires moment { IsTrue (is_moment now) }
    ensures texts { IfOk result (λ reply. IsTrue (has_reply_texts reply)) }
{
    asks_are_good();
    ask_refusals_have_texts();
    let (target, body) = (request.target.as_bytes(), request.body.as_bytes());
    match routes.command_of(alloc, request.method, target, body) {
        Ok(ask) => answer_ask(alloc, kept, ask, request.body, now),
        Err(AskFault::Refused(why)) => Ok(Reply::Refused(why)),
        Err(AskFault::Memory) => Err(Memory),
    }
}

/// What is answered to what a request with this body asks for.
fn answer_ask(
    alloc: Global,
    kept: &mut Followed,
    ask: Ask,
    body: &str,
    now: u64,
) -> Result<Reply, Memory>
    requires good { IsGoodAsk kept.old.core.library ask }
    requires words { IsTrue (is_ask_good ask) }
    requires moment { IsTrue (is_moment now) }
    ensures texts { IfOk result (λ reply. IsTrue (has_reply_texts reply)) }
{
    match ask {
        Ask::Run(command) => answer(alloc, kept, &command, now),
        Ask::PutMedia(object) => put(alloc, kept, object, number(body), now),
        Ask::GetMedia(object) => Ok(media(kept, &object)),
    }
}

/// What is answered to a command.
fn answer(alloc: Global, kept: &mut Followed, command: &Command, now: u64) -> Result<Reply, Memory>
    requires good { IsTrue (is_good_command kept.old.core.library command.now) }
    requires few { IsTrue (asks_few command.now) }
    requires words { IsTrue (is_command_good command.now) }
    requires moment { IsTrue (is_moment now) }
    ensures texts { IfOk result (λ reply. IsTrue (has_reply_texts reply)) }
{
    answers_have_texts();
    kept.core.keeps_good();
    run(alloc, kept, command, now)
}

/// Characters as a text.
#[tactic(auto, using(crate::proofs::Texts::is_utf8_text))]
fn text_of(alloc: Global, characters: &str) -> Result<Text, Memory>
    ensures { IfOk result (λ text. IsTrue (is_utf8 text)) }
{
    Text::from_bytes(alloc, characters.as_bytes())
}

/// A number, and 0 where the word is none.
fn number(word: &str) -> u64 {
    match word.parse::<u64>() {
        Ok(number) => number,
        Err(_) => 0,
    }
}

/// What is answered to so many bytes of an object.
fn put(
    alloc: Global,
    kept: &mut Followed,
    object: Text,
    length: u64,
    now: u64,
) -> Result<Reply, Memory>
    requires moment { IsTrue (is_moment now) }
    requires id { IsTrue (is_object_id object) }
    ensures texts { IfOk result (λ reply. IsTrue (has_reply_texts reply)) }
{
    match kept.core.object(&object) {
        None => Ok(Reply::Refused(Refusal::UnknownObject)),
        Some(row) => match row.state {
            ObjectState::Stored { .. } => Ok(Reply::Refused(Refusal::OtherBytes)),
            ObjectState::Allocated => put_first(alloc, kept, object, length, now),
        },
    }
}

/// What is answered to the first bytes of an object.
fn put_first(
    alloc: Global,
    kept: &mut Followed,
    object: Text,
    length: u64,
    now: u64,
) -> Result<Reply, Memory>
    requires moment { IsTrue (is_moment now) }
    requires allocated { option_map (λ row. row.state)
        (object_of object kept.old.core.library.objects) ≡ Some Allocated }
    requires id { IsTrue (is_object_id object) }
    ensures texts { IfOk result (λ reply. IsTrue (has_reply_texts reply)) }
{
    let Some(start_block) = kept.core.place(length.div_ceil(BLOCK)) else {
        return Ok(Reply::Refused(Refusal::MediaFull));
    };
    let command = Command::Keep {
        object,
        start_block,
        length,
        digest: NO_DIGEST,
    };
    answer(alloc, kept, &command, now)
}

/// What is answered to a question for the bytes of an object.
fn media(kept: &Followed, object: &Text) -> Reply
    ensures texts { IsTrue (has_reply_texts result) }
{
    match kept.core.object(object) {
        None => Reply::Refused(Refusal::UnknownObject),
        Some(row) => match row.state {
            ObjectState::Stored { length, .. } => Reply::Media(length),
            ObjectState::Allocated => Reply::Refused(Refusal::UnknownObject),
        },
    }
}
