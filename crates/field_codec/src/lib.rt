//! Fields in bytes: numbers, ids, timestamps, marks, texts and ranges, each with one spelling. The
//! definitions put larger spellings together from them; the crates above give rows and changes theirs.
#![tactic(auto)]

mod cursor;
mod fault;
mod fields;
mod writing;

pub use crate::cursor::Cursor;
pub use crate::fault::{BadField, CodecFault, ReadFault};
pub use crate::fields::Fields;
pub use crate::writing::{
    cut_back, write_bool, write_end, write_range, write_text, write_ts, write_u8, write_u32,
    write_u64, write_u128,
};
