//! Rows of sources and flows, one at a time: which pass a filter, which part isn't set, and what a
//! change makes of one. Each call is its part of the library's definitions in `media_rows`. Where rows
//! stand, and which flows collect one another, is left to the callers.
#![tactic(auto)]

mod filters;
mod formats;
mod parts;
mod rows;
mod tags;

pub use crate::filters::{passes_flow, passes_source};
pub use crate::formats::{fits_kept, fits_source, keeps_flow};
pub use crate::parts::{flow_part_unset, sets_mark, source_part_unset};
pub use crate::rows::{
    member_ids, new_source, put_row, set_row, set_source_row, touched, without_entries,
};
