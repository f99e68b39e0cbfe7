//! Opening a store: its library and its journal from its file, or the place at which the file is damaged.
#![tactic(auto)]

mod fault;
mod laws;
mod opening;
mod records;
mod rows;

pub use crate::laws::{damaged_images_stand_for_none, kept_images_stand};
pub use crate::opening::{OpenedStore, ReadStore, open_store, read_store};
