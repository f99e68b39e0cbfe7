//! What a command, a turn, a put of an object's bytes or a change without a command makes of a store, planned before anything
//! is written: the library afterwards, the record of the change, the rows of a checkpoint that must come first, and the reply.
//! All that takes memory is done here; the disk is the caller's.
#![tactic(auto)]

mod changes;
mod commands;
mod outcome;
mod puts;
mod room;
mod turns;

pub use crate::changes::{ChangePlan, plan_change};
pub use crate::commands::plan;
pub use crate::outcome::Planned;
pub use crate::puts::{PutPlan, StorePlan, plan_put};
pub use crate::turns::{TurnPlan, plan_turn};
