//! The top call: it reads the words of a command line, and does what they ask for on the site that it is handed.
#![tactic(auto)]

mod laws;
mod top;

pub use crate::laws::{
    a_whole_run_is_told, bad_words_are_told, done_is_told, faults_are_told, histories_are_told,
    little_is_touched, playlists_are_told, refusals_are_told, starving_is_told, statuses_are_known,
};
pub use crate::top::run;
pub use store_commands::site_over;
pub use tams_outcomes::Status;
pub use tams_words::{Invocation, Wanted, command_line, devices};
