//! The library machine: a good library, what it prepares for each command and for each turn, and the changes that it applies
//! when a file is opened.
#![tactic(auto)]

mod apply;
mod commands;
mod library;
mod made;
mod prepare;
mod queries;
mod rows;
mod turns;

pub use crate::library::{Core, Counts};
pub use crate::prepare::Prepared;
