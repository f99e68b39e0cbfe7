//! Histories worked out by hand, of the small machine of `run_history`: connections that a session serves, of
//! each kind of step and each end of the link, and connections that none does, whatever its steps. Nothing here
//! runs, and nothing stands on it.
#![tactic(auto)]

mod laws;

pub use crate::laws::{each_is_served, nothing_serves};
