//! Changes and rows in bytes: each value has one spelling, and bytes that are none have one place of
//! their fault. `field.rt` says how a value is read and written; the other files do so for each type.
#![tactic(auto)]

mod changes;
mod digests;
mod field;
mod flows;
mod laws;
mod lists;
mod objects;
mod parts;
mod rows;
mod sized;
mod values;
mod whole;
mod writable;
mod writable_changes;

pub use crate::changes::moment_of;
pub use crate::digests::{DIGEST_BYTES, digest_bytes, digests_are_last, digests_have_halves};
pub use crate::laws::{
    change_faults_have_one_place, changes_begin_with_their_kinds, changes_have_one_spelling,
    fits_as_worked, row_faults_have_one_place, rows_are_no_prefixes, rows_begin_with_their_kinds,
};
pub use crate::whole::{
    decode_change, decode_row, encode_change, encode_row, encode_row_if_spelled, has_spelling,
};
pub use field_codec::{CodecFault, Fields};
