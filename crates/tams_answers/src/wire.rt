//! The responses to what the wire refuses. They are made once, so that saying one takes no memory.
ghost use Rattle.std.specs.Prelude.{◌≡◌, ℕ, List, IfOk, IsTrue};
ghost use Rattle.std.specs.Str.{is_utf8};
ghost use Rattle.json_replies.specs.Texts.{has_refusal_texts};
ghost use Rattle.media_rows.specs.declared.reply.Reply.TheVariants.{Refused};
ghost use Rattle.http_wire.specs.Steps.{wire_refusal};
ghost use Rattle.tams_http.specs.Answered.{response_to};
ghost use Rattle.tams_machine.specs.Requests.{wire_response};
ghost use Rattle.tams_answers.specs.Wire.{AreResponses};
ghost use Rattle.tams_answers.specs.Within.{ending_context};

use disk_trait::{Memory, Text};
use http_wire::WireFault;
use media_rows::Reply;
use std::alloc::Global;
use tams_http::{AnswerContext, Routes};

/// The five responses.
#[derive(Drop)]
pub struct WireResponses {
    bad_head: Text,
    bad_framing: Text,
    length_required: Text,
    too_large: Text,
    coding: Text,
}

impl WireResponses {
    /// The responses of a store whose addresses begin with `base`. All of their memory is taken here.
    pub fn new(alloc: Global, base: &Text) -> Result<WireResponses, Memory>
        requires base { IsTrue (is_utf8 base.now) }
        ensures { IfOk result (λ responses. AreResponses base.now responses) }
    {
        let routes = Routes::new(alloc, 0)?;
        WireResponses::by(alloc, &routes, base)
    }

    /// The same by the routes of the store that no request names, whose id is 0.
    fn by(alloc: Global, routes: &Routes, base: &Text) -> Result<WireResponses, Memory>
        requires store { routes.now ≡ 0 }
        requires base { IsTrue (is_utf8 base.now) }
        ensures { IfOk result (λ responses. AreResponses base.now responses) }
    {
        Ok(WireResponses {
            bad_head: response_of(alloc, routes, base, WireFault::BadHead)?,
            bad_framing: response_of(alloc, routes, base, WireFault::BadFraming)?,
            length_required: response_of(alloc, routes, base, WireFault::LengthRequired)?,
            too_large: response_of(alloc, routes, base, WireFault::TooLarge)?,
            coding: response_of(alloc, routes, base, WireFault::Coding)?,
        })
    }

    /// The bytes of the response to a fault of the wire.
    pub fn of(&self, fault: WireFault) -> &[u8]
        ensures { (base : List ℕ) → AreResponses base self.now → result.now ≡ wire_response base fault }
    {
        match fault {
            WireFault::BadHead => self.bad_head.bytes(),
            WireFault::BadFraming => self.bad_framing.bytes(),
            WireFault::LengthRequired => self.length_required.bytes(),
            WireFault::TooLarge => self.too_large.bytes(),
            WireFault::Coding => self.coding.bytes(),
        }
    }
}

/// The response to a refusal of the wire, which ends the connection.
fn response_of(
    alloc: Global,
    routes: &Routes,
    base: &Text,
    fault: WireFault,
) -> Result<Text, Memory>
    requires base { IsTrue (is_utf8 base.now) }
    requires texts { IsTrue (has_refusal_texts (wire_refusal fault)) }
    ensures { IfOk result (λ text. text
        ≡ response_to (ending_context routes.now base.now) (Refused (wire_refusal fault))) }
{
    let reply = Reply::Refused(fault.refusal());
    let context = AnswerContext {
        target: b"",
        base,
        ends: true,
        head_only: false,
    };
    routes.response_of(alloc, &reply, &context)
}
