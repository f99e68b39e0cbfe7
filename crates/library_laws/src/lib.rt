//! Laws of the library's definitions, each the contract of a function with an empty body. Nothing here
//! runs.
#![tactic(auto)]

mod changes;
mod laws;
mod lists;
mod media;
mod rows;

pub use crate::changes::{
    applied_is_sound, applies_is_tested, nothing_posted, replies_tell, serials_end, store_stays,
    stored_stay,
};
pub use crate::laws::{
    answers_apply, answers_are_allowed, books_are_restored, changes_apply, changes_keep_good,
    circles_are_found, first_bytes_stay, good_is_tested, pages_follow, pages_have_all,
    places_are_least, range_answer_is_in_order, range_answer_is_on_points, turns_apply,
    turns_are_bounded,
};
pub use crate::lists::lists_are_told;
pub use crate::media::{
    bytes_fit, bytes_stay, digests_stay, puts_apply, questions_apply, whole_are_given,
};
pub use crate::rows::{
    equal_rows_are_one_library, keys_give_ids, refusals_are_tabled, rows_give_the_library,
    rows_rise, sources_have_their_parts,
};
