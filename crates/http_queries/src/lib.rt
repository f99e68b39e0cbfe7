//! Queries of requests: the pairs of a query, the first one at fault, and what the pairs ask for. Paths and
//! bodies are left to the callers.
#![tactic(auto)]

mod faults;
mod filters;
mod next;
mod numbers;
mod pairs;
mod rules;
mod tags;

pub use crate::faults::query_fault;
pub use crate::filters::{
    read_cut_range, read_flow_filter, read_list_page, read_range, read_segment_filter,
    read_segment_page, read_source_filter,
};
pub use crate::next::{id_of_key, next_query};
pub use crate::pairs::{Pair, PairList, read_pairs};
pub use crate::rules::QueryKind;
