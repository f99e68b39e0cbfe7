//! That the premises of a run can be met: an image, a site and a clock that meet them, and runs over such.
#![tactic(auto)]

mod laws;
mod running;

pub use crate::laws::premises_are_met;
pub use crate::running::{SmallRun, run_over_small_store};
