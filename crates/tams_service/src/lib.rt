//! The service of the media store: it answers the requests of a connection over the store of one file. It hears
//! each, plans its answer, writes its change, says the answer, and makes the turn behind it.
#![tactic(auto)]

mod answering;
mod body;
mod ending;
mod media;
mod opening;
mod probing;
mod saying;
mod service;
mod whole;

pub use crate::service::TamsService;
