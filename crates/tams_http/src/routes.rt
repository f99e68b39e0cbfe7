//! The two calls: what a request asks for, and the response to it.
ghost use Rattle.std.specs.Prelude.{◌≡◌, IfOk, IsTrue};
ghost use Rattle.json_bodies.specs.Answers.{Answers};
ghost use Rattle.json_replies.specs.Texts.{has_reply_texts};
ghost use Rattle.std.specs.Str.{is_utf8};
ghost use Rattle.tams_http.specs.Answered.{response_to};
ghost use Rattle.tams_http.specs.Asked.{ask_of};
ghost use Rattle.tams_http.specs.Good.{is_ask_good};

use crate::ask::{Ask, AskFault};
use crate::asked::asked_by;
use crate::fields::reply_status;
use crate::response::{AnswerContext, StoreContext, response_fields};
use disk_trait::{Memory, Text};
use http_routes::{RouteTable, path_of};
use http_wire::{MethodKind, write_response};
use media_rows::{Refusal, Reply};
use std::alloc::Global;
use std::marker::Model;
use tams_json::print_reply;

/// The routes of a store. Contracts see the store's id.
#[derive(Drop)]
pub struct Routes {
    store: u128,
    table: RouteTable,
}

impl Model for Routes {
    ghost use Rattle.std.specs.Prelude.{ℕ};

    ghost Value = { ℕ };

    ghost view = { λ r. r.store };
}

impl Routes {
    /// The routes of the store with this id.
    pub fn new(alloc: Global, store: u128) -> Result<Routes, Memory>
        ensures { IfOk result (λ routes. routes ≡ store) }
    {
        let table = RouteTable::new(alloc)?;
        Ok(Routes { store, table })
    }

    /// What a request asks for, by its method, its target and its body, or its first refusal: the route,
    /// its method, the ids in the path, the body, and then the query.
    #[tactic(auto, unfolding(crate::specs::Asked::ask_of))]
    pub fn command_of(
        &self,
        alloc: Global,
        method: MethodKind,
        target: &[u8],
        body: &[u8],
    ) -> Result<Ask, AskFault>
        ensures answer { Answers (ask_of self.now method target.now body.now) result }
        ensures good { IfOk result (λ ask. IsTrue (is_ask_good ask)) }
    {
        let Some(route) = self.table.find(path_of(target)) else {
            return Err(AskFault::Refused(Refusal::NoRoute));
        };
        if !route.methods().has(method) {
            return Err(AskFault::Refused(Refusal::NoMethod));
        }
        asked_by(alloc, self.store, method, route, target, body)
    }

    /// The bytes of the response to a reply (RFC 9112, section 2.1): for `Media` the head alone, and the
    /// object's bytes follow. A HEAD has no body.
    #[tactic(auto, unfolding(crate::specs::Answered::response_to))]
    pub fn response_of(
        &self,
        alloc: Global,
        reply: &Reply,
        context: &AnswerContext<'_>,
    ) -> Result<Text, Memory>
        requires texts { IsTrue (has_reply_texts reply.now) }
        requires base { IsTrue (is_utf8 context.now.base.now) }
        ensures { IfOk result (λ text. text ≡ response_to (record {
          store = self.now;
          base = context.now.base.now;
          target = context.now.target.now;
          ends = context.now.ends;
          head_only = context.now.head_only;
        }) reply.now) }
    {
        let body = print_reply(alloc, reply, self.store, context.base)?;
        let store = StoreContext {
            id: self.store,
            table: &self.table,
        };
        let fields = response_fields(alloc, &store, context, reply, body.bytes())?;
        write_response(
            alloc,
            reply_status(reply),
            &fields,
            body.bytes(),
            context.head_only,
        )
    }
}
