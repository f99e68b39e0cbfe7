//! The history of a run, over any machine and any number of connections: what it told and changed, what
//! a crash may leave of it, and the laws by which a loop keeps its promise. Nothing here runs.
#![tactic(auto)]

mod laws;

pub use crate::laws::{begun_is_greatest, ending, failing, other_steps, serving, six_steps};
