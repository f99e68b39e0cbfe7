//! The rows of a snapshot in bytes: which rows a text spells one after another in their order, or where it is
//! damaged. What library they make is left to the callers.
#![tactic(auto)]

mod fault;
mod laws;
mod places;
mod reading;

pub use crate::fault::RowsFault;
pub use crate::laws::texts_have_one_meaning;
pub use crate::reading::read_rows;
