//! The rows of a snapshot: parted by their kinds, as the books want them, and written as text.
#![tactic(auto)]

mod kinds;
mod laws;
mod texts;

pub use crate::kinds::{Kinds, part_rows};
pub use crate::laws::kinds_make_the_library;
pub use crate::texts::{AnyRow, append_next_serial, append_rows};
