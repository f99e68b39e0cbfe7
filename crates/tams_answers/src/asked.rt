//! What a request asks for, read before its answer is planned.
ghost use Rattle.std.specs.Prelude.{◌≡◌, IfOk, IsTrue, option_copied};
ghost use Rattle.tams_http.specs.Asked.{ask_of};
ghost use Rattle.tams_http.specs.Good.{is_ask_good};
ghost use Rattle.tams_answers.specs.Answers.{media_asked};

use crate::answers::Request;
use disk_trait::{Memory, Text};
use media_rows::Refusal;
use std::alloc::Global;
use tams_http::{Ask, AskFault, Routes};

/// What a request asks for, or why it is refused.
#[derive(Drop)]
pub struct Asked {
    pub ask: Result<Ask, Refusal>,
}

impl Asked {
    /// Reads what a request asks for.
    pub fn of(alloc: Global, routes: &Routes, request: &Request<'_>) -> Result<Asked, Memory>
        ensures asked { IfOk result (λ asked. asked.ask
            ≡ ask_of routes.now request.now.method request.now.target.now request.now.body.now) }
        ensures good { IfOk result (λ asked. IfOk asked.ask (λ ask. IsTrue (is_ask_good ask))) }
    {
        match routes.command_of(alloc, request.method, request.target, request.body) {
            Ok(ask) => Ok(Asked { ask: Ok(ask) }),
            Err(AskFault::Refused(why)) => Ok(Asked { ask: Err(why) }),
            Err(AskFault::Memory) => Err(Memory),
        }
    }

    /// The object whose bytes are asked for, if it is a GET or a HEAD of them.
    pub fn media(&self) -> Option<&Text>
        ensures { option_copied result ≡ media_asked self.now.ask }
    {
        match &self.ask {
            Ok(Ask::GetMedia(object)) => Some(object),
            _ => None,
        }
    }
}
