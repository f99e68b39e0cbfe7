//! What the program tells beside what its runs tell: help, the version, which word is wrong, and why a file or a
//! port can't be had; and where its lines go.
#![tactic(auto)]

mod help;
mod outlets;

pub use crate::help::{blame, explain, is_shown};
pub use crate::outlets::{Outlets, Streams};
