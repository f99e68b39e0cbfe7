//! Bodies of requests as values: each reader gives what a body spells, or its first refusal.
#![tactic(auto)]

mod body;
mod essence;
mod fault;
mod flow;
mod hook;
mod kinds;
mod laws;
mod members;
mod part;
mod rules;
mod segments;
mod storage;
mod tags;
mod times;

pub use crate::fault::BodyFault;
pub use crate::flow::{read_flow, read_format};
pub use crate::hook::read_hook;
pub use crate::laws::refusals_are_of_bodies;
pub use crate::part::read_part;
pub use crate::segments::read_segments;
pub use crate::storage::read_storage;
