//! The store of one file: its library with the bytes of its objects, opened, asked and changed. What a command,
//! a turn, a put or a delivery makes is planned first, with all memory that it takes, and then written.
#![tactic(auto)]

mod commits;
mod deliveries;
mod fault;
mod opening;
mod pieces;
mod probes;
mod puts;
mod store;
mod turns;

pub use crate::fault::StoreFault;
pub use crate::probes::Probe;
pub use crate::puts::{PIECE, Put};
pub use crate::store::Store;
pub use crate::turns::TurnMade;
