//! A generated workload: the requests of one connection that fill a store with objects and segments,
//! list them, delete half of the segments and go on asking; and the number of bytes that a store's
//! objects have. Running the requests is left to the caller.
#![tactic(auto)]

mod laws;
mod requests;
mod stored;
mod workload;

pub use crate::laws::{half_query_is_spelled, stored_bytes_are_the_objects};
pub use crate::stored::stored_bytes;
pub use crate::workload::{MOST_COUNT, MOST_NUMBER, workload_bytes};
