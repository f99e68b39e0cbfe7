//! Tests of the books, of what no case of a program runs. A test build proves all functions of its crate, so
//! tests stand in a crate of their own.
#![tactic(auto)]

#[cfg(test)]
mod outboxes;
#[cfg(test)]
mod requests;
