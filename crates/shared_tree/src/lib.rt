//! A balanced tree whose versions share what they have in common: a sorted list of pairs as a value.
//! A change makes a new version and leaves the old one as it is.
#![tactic(auto)]

mod changes;
mod looks;
mod steps;
mod tree;
mod version;
mod walks;

pub use crate::steps::Steps;
pub use crate::version::Version;
