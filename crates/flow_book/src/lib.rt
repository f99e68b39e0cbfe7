//! The book of sources and flows: a value that each change makes anew, which shares with the old one what
//! doesn't change.
//! Each call is its part of the library's definitions in `media_rows`. Which flows are being deleted,
//! which segments there are and what events a change makes is left to the callers.
#![tactic(auto)]

mod book;
mod circles;
mod collections;
mod drops;
mod lists;
mod looks;
mod peeling;
mod puts;
mod restores;
mod sets;

pub use crate::book::FlowBook;
