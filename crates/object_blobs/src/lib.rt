//! The bytes of objects at their extents, which are media blocks of the store's file, their digests, and which of
//! these blocks are free. It knows nothing of what the bytes mean, nor of the objects themselves.
#![tactic(auto)]

mod changes;
mod digests;
mod extent;
mod looks;
mod space;

pub use crate::digests::extent_digest;
pub use crate::extent::{BLOCK, read_piece, write_piece};
pub use crate::space::{Hole, Space};
pub use media_rows::Extent;
