//! Tests of requests read from a connection's bytes and heard over a site. A test build proves all functions of its
//! crate, so tests stand in a crate of their own.
#![tactic(auto)]

#[cfg(test)]
mod feeds;
#[cfg(test)]
mod hearings;
