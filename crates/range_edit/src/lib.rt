//! Edits by ranges: a list that names ranges of flows, each with the instant at which it is to begin, as a text of
//! CSV (RFC 4180), and the pieces that are cut for a flow by it. Who sends the list, and what becomes of the pieces, is
//! left to the callers.
#![tactic(auto)]

mod assembling;
mod fault;
mod flows;
mod laws;
mod list;
mod pieces;
mod placing;
mod reading;

pub use crate::assembling::assemble;
pub use crate::fault::EditFault;
pub use crate::laws::{one_answer, one_cut};
pub use crate::list::{EditList, EditRow};
pub use crate::reading::read_list;
