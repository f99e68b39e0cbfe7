//! Timestamps and timeranges, as sets of points of the time line, and their text both ways.
#![tactic(auto)]

mod ends;
mod fault;
mod printing;
mod ranges;
mod reading;
mod scanning;
mod spelling;
mod stamp;

pub use ends::End;
pub use fault::{Memory, RangeFault};
pub use printing::{print_range, print_ts};
pub use ranges::TimeRange;
pub use reading::{read_range, read_ts, values_are_spelled};
pub use stamp::Ts;
