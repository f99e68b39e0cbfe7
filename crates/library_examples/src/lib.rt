//! Worked values of the library's definitions: what they give on small libraries, each group the
//! contract of a function with an empty body. Expected values are computed by hand. Nothing here
//! runs.
#![tactic(auto)]

mod events;
mod good;
mod names;
mod refusals;
mod replies;
mod rows;
mod stamps;
mod turns;
mod views;

pub use crate::events::{events_are_told, first_are_delivered, hooks_fail, two_hooks_hear};
pub use crate::good::{
    bad_collections, bad_extents, bad_names, bad_outboxes, bad_references, bad_requests,
    bad_segments, bad_sources, bad_texts, changes_are_allowed, changes_are_sound,
    changes_are_tested, commands_are_good, examples_are_good,
};
pub use crate::names::{names_are_spelled, numbers_run, pages_have_limits, refusals_are_named};
pub use crate::refusals::{
    bytes_are_kept_once, collections_are_tested, collections_come_last, deleting_stands,
    flows_are_kept, ids_are_taken, lists_are_refused, multi_fits, other_parts_are_of_flows,
    posts_are_tested, read_only_stands, refusals_stand_in_order, set_parts_are_cleared, sources_go,
    unset_parts_are_named,
};
pub use crate::replies::{
    bytes_stand_beside, cuts_cover, ids_are_made, lists_are_answered, many_are_asked_for,
    media_are_kept, places_are_found, replies_are_given,
};
pub use crate::rows::{done_ones_stay, libraries_are_made, rows_are_kept, snapshots_have_all};
pub use crate::stamps::{
    flow_stamps, idle_moments, parts_are_set, request_stamps, rows_are_made, source_stamps,
};
pub use crate::turns::{
    deletes_in_steps, requests_in_order, steps_go_by_first_point, sweeps_in_order, sweeps_when_due,
    turns_in_order,
};
pub use crate::views::{
    flow_parts_are_shown, flows_are_listed, ids_in_pages, pages_are_cut, segments_are_shown,
    source_parts_are_shown, sources_are_listed, things_are_shown, unknown_is_refused,
};
