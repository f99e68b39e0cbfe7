//! The machine of the media store: what each request of a connection is answered in a state of the store, and
//! the state after it. It is definitions and their laws; nothing of it runs.
#![tactic(auto)]

mod laws;

pub use crate::laws::{
    answers_keep, machine_as_worked, requests_are_one, requests_send_bytes, turns_keep,
};
