//! What a request is answered over a store, planned with its response before anything is written or said.
#![tactic(auto)]

mod answers;
mod asked;
mod laws;
mod media;
mod plans;
mod wire;

pub use crate::answers::{Answer, Request, plan_answer};
pub use crate::asked::Asked;
pub use crate::laws::media_follows;
pub use crate::media::{MediaHead, MediaPlan, Responses, plan_media};
pub use crate::wire::WireResponses;
