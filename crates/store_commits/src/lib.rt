//! One whole change of a store, written to its disk: a checkpoint first where the journal's room is too
//! small, and then the record. Which library is kept, and what is a change of it, is left to the callers.
#![tactic(auto)]

mod changes;

pub use crate::changes::write_change;
