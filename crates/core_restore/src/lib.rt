//! A library from the rows of a snapshot, as when a file is opened: whether they are those of a good library, and
//! its parts.
#![tactic(auto)]

mod laws;
mod order;
mod parts;
mod serials;
mod ties;
mod values;

pub use crate::laws::rows_of_libraries_pass;
pub use crate::parts::parts_of_rows;
