//! What owns much is let go here, apart from what was done with it.
use disk_trait::Listed;
use media_rows::{Change, Command};
use store_core::{Core, Prepared};

/// Lets a library go.
pub(crate) fn library(core: Core) {}

/// Lets go what was prepared.
pub(crate) fn prepared(made: Prepared) {}

/// Lets a command go.
pub(crate) fn command(command: Command) {}

/// Lets changes go.
pub(crate) fn changes(changes: Listed<Change>) {}
