//! Tests of playlists that are read (RFC 8216). A test build proves all functions of its crate, so they stand apart.
#![tactic(auto)]

#[cfg(test)]
mod readings;
