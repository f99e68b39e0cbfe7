//! A library as its media and all else, and what each change makes of both at once. That a library is
//! good, and what a client is answered, is left to the callers.
#![tactic(auto)]

mod cuts;
mod flows;
mod hooks;
mod ids;
mod laws;
mod lists;
mod media;
mod parts;
mod steps;
mod sweeps;

pub use crate::cuts::Cut;
pub use crate::laws::good_is_ready;
pub use crate::lists::ListPosted;
pub use crate::parts::Parts;
