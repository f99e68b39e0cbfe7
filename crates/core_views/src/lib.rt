//! What queries show of sources and flows, of delete requests and of hooks, each computed from
//! the book that keeps them. What needs segments or objects is left to the callers.
#![tactic(auto)]

mod books;
mod pages;
mod parts;

pub use crate::books::{
    flow_part_view, hooks_view, request_view, requests_view, source_part_view, source_view,
    sources_view,
};
pub use crate::pages::{Keyed, first_rows, id_before, key_behind, rows_past};
