//! Events on their way to webhooks: the request of an event, what a peer's bytes say of its answer, and the
//! exchange of the one for the other. Which events go, and what becomes of them, is left to the callers.
#![tactic(auto)]

mod address;
mod event_text;
mod exchanging;
mod judging;
mod laws;
mod request;
mod request_head;

pub use crate::exchanging::{Answered, exchange};
pub use crate::judging::{Verdict, judge};
pub use crate::laws::{events_read_back, one_answer, one_verdict};
pub use crate::request::{Outgoing, request_of};
