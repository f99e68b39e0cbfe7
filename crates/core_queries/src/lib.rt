//! What is answered to the questions that a library is asked.
#![tactic(auto)]

mod flows;
mod media;
mod questions;

pub use crate::questions::query;
