//! The outbox as a value that each change makes anew: webhooks, and the events that wait for them. What
//! makes events, and how they are delivered, is left to the callers.
#![tactic(auto)]

mod changes;
mod drops;
mod lists;
mod looks;
mod outbox;
mod posts;
mod restores;

pub use crate::outbox::{Outbox, Posted};
