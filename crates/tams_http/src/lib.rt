//! HTTP of the store: the command that a request's method, target and body ask for, and the bytes of the
//! response to it. What a command answers is left to the library, and the wire to `http_wire`.
#![tactic(auto)]

mod ask;
mod asked;
mod constants;
mod fields;
mod laws;
mod lists;
mod named;
mod parts;
mod response;
mod routes;

pub use crate::ask::{Ask, AskFault};
pub use crate::constants::{server_error, unavailable};
pub use crate::laws::refusals_are_of_requests;
pub use crate::response::AnswerContext;
pub use crate::routes::Routes;
