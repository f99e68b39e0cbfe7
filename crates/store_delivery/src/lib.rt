//! The delivery of a store's waiting events to their webhooks, in order: each event that was accepted goes before the next
//! one is sent. How a request is told and an answer heard, and how the store is opened, is left to others.
#![tactic(auto)]

mod delivering;
mod due;
mod sending;

pub use crate::delivering::{Deliveries, deliver_events};
