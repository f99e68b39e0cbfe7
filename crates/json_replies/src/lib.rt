//! The body of each answer of the library, as compact JSON (RFC 8259) with keys in byte order. What
//! is answered, with which status and fields, is left to the callers.
#![tactic(auto)]

mod addresses;
mod flows;
mod json_text;
mod laws;
mod lists;
mod parts;
mod print;
mod refusals;
mod requests;
mod segments;
mod shows;
mod sources;
mod values;
mod views;

pub use crate::addresses::media_address;
pub use crate::laws::{essence_stands, keys_rise};
pub use crate::print::print_reply;
pub use crate::requests::request_id;
