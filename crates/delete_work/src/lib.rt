//! Delete requests as a value that each change makes anew, the steps that work them off on the segments of a
//! flow and on the objects, and the sweep of objects that nothing names. When a turn comes, and what becomes
//! of a flow that goes, is left to the callers.
#![tactic(auto)]

mod book;
mod releases;
mod requested;
mod restores;
mod rows;
mod step;
mod sweep;

pub use crate::book::DeleteBook;
pub use crate::step::{DueStep, StepRows, Stepped, step_rows};
pub use crate::sweep::{Swept, sweep_step};
