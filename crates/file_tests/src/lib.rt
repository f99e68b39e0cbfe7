//! Tests of the edge and of the journal, of what no case of a program shows: files, streams and sockets of this machine, and
//! the pieces in which a long half is read. A test build proves all functions of its crate, so tests stand in a crate of their
//! own.
#![tactic(auto)]

#[cfg(test)]
mod devices;
#[cfg(test)]
mod dial_sites;
#[cfg(test)]
mod file_sites;
#[cfg(test)]
mod host_clocks;
#[cfg(test)]
mod host_sinks;
#[cfg(test)]
mod net_sites;
#[cfg(test)]
mod openings;
#[cfg(test)]
mod store_files;
