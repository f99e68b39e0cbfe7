//! What a run of the program ends with: its outcome, the status of each outcome, and the line that it puts into
//! the notes.
#![tactic(auto)]

mod laws;
mod outcome;
mod status;

pub use crate::laws::statuses_tell_outcomes;
pub use crate::outcome::{DamagedObject, PlaylistRefusal, RunOutcome, StoreCounts, WorkloadRun};
pub use crate::status::Status;
