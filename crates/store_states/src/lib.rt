//! What an image of the store's file stands for, what a store keeps of it in memory, and what a crash within
//! a change may leave. Definitions and laws: nothing here runs.
#![tactic(auto)]

mod laws;

pub use crate::laws::{
    an_image_stands_for_one_state, images_have_the_bytes, states_are_good, states_as_worked,
    writes_elsewhere_leave_bytes,
};
