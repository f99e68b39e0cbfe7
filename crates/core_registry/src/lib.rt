//! What a library keeps beside its media, as a value: the catalog, the delete requests, the hooks
//! with the events that wait for them, and the next serial. Each change posts its events and takes
//! its serials here. Segments, objects and what a client is answered are left to the callers.
#![tactic(auto)]

mod events;
mod flows;
mod hooks;
mod laws;
mod registry;
mod requests;
mod restores;
mod segments;

pub use crate::events::{hull_if_any, hull_of_posts};
pub use crate::laws::{going_flows_forget, going_is_told};
pub use crate::registry::Registry;
pub use crate::restores::RegistryRows;
