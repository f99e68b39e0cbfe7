//! The book of media objects and of the references to them: a value that each change makes anew, which
//! shares with the old one what doesn't change.
#![tactic(auto)]

mod apart;
mod book;
mod changes;
mod flows;
mod kept;
mod keys;
mod names;
mod restores;
mod trees;

pub use crate::book::ObjectBook;
pub use crate::names::NameTable;
