//! From a connection's bytes to one request that is to be answered, or to the connection's end, with the
//! interim response said where one is due. What a request is answered is left to the callers.
#![tactic(auto)]

mod heard;
mod interim;
mod laws;
mod listener;

pub use crate::heard::{Body, Heard};
pub use crate::laws::{heard_are_steps, media_is_opened};
pub use crate::listener::Hearing;
