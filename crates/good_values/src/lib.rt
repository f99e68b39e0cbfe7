//! Whether what a change brings, or what a row holds, is good by itself: its texts, its moments,
//! the ends of its ranges, and the place of its bytes. What a library asks beyond that is left to
//! the callers.
#![tactic(auto)]

mod changes;
mod ranges;
mod rows;
mod texts;

pub use crate::changes::has_good_values;
pub use crate::ranges::{has_both_ends, is_eternity};
pub use crate::rows::{
    are_events_good, are_flows_good, are_hooks_good, are_objects_good, are_requests_good,
    are_sources_good,
};
pub use crate::texts::is_moment;
