//! Case files: what each of them says, as a value. `docs/CASES.md` has their form.
#![tactic(auto)]

mod case;
mod lines;
mod problem;
mod word;

pub use crate::case::{
    Case, CaseStep, Ends, Given, PeerAnswer, Range, Run, State, Sweep, read_case,
};
pub use crate::problem::{Fault, Problem};
pub use crate::word::Failing;
