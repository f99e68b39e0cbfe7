//! Rows by their ids, on versions of the shared tree, and an index that tells which of them name an id.
//! An id is a number of 128 bits, and its key is the id less 2^127. What the rows are is left to the callers.
#![tactic(auto)]

mod index;
mod rows;

pub use crate::index::IdIndex;
pub use crate::rows::{all_rows, id_key, row_at, rows_behind, with_row, without_row};
