//! The ground of the store: byte texts and lists, and the device that holds the file. A `Disk` says
//! what its calls read and leave, and what a crash at any moment may leave. Nothing here knows of
//! journals or media.
#![tactic(auto)]

mod bytes;
mod disk;
mod duplicate;
mod fault;
mod forms;
mod history;
mod listed;
mod memory_disk;
pub mod numbers;
mod sure_disk;
mod text;

pub use crate::bytes::{copy_out, overwrite, same_bytes};
pub use crate::disk::Disk;
pub use crate::duplicate::Duplicate;
pub use crate::fault::{Failed, Memory};
pub use crate::forms::FORM_IN_USE;
pub use crate::listed::{Listed, NumberList, TextList};
pub use crate::memory_disk::MemoryDisk;
pub use crate::sure_disk::SureDisk;
pub use crate::text::Text;
