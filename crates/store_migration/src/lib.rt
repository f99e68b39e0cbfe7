//! Migration of a store: its library, with the digests of its objects' bytes, goes from a half of form 1 to one of
//! the form in use.
#![tactic(auto)]

mod digests;
mod fault;
mod migration;

pub use crate::fault::MigrateFault;
pub use crate::migration::{Migrated, migrate_store};
