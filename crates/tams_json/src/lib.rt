//! JSON of the store: bodies of requests as values, and bodies of replies as text. The two halves are
//! crates of their own; this one gives their calls one name.
#![tactic(auto)]

pub use json_bodies::{
    BodyFault, read_flow, read_hook, read_part, read_segments, read_storage, refusals_are_of_bodies,
};
pub use json_replies::{essence_stands, keys_rise, print_reply, request_id};
