//! The loops of a server: connections one after another, each of which is heard and answered until it
//! ends. They run over any `Service`, which answers the requests, any site and any clock, and their
//! clauses say by one history what was heard, told and left.
#![tactic(auto)]

mod connection;
mod ending;
mod run;
mod service;
mod tally;

pub use crate::connection::{Next, serve_next};
pub use crate::ending::ConnectionEnd;
pub use crate::run::{MOST_CONNECTIONS, RunEnd, serve};
pub use crate::service::{MOST_ANSWERS, Service};
pub use crate::tally::RunTally;
