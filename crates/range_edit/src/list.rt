//! Lists of edits.
use disk_trait::Listed;
use time_range::{TimeRange, Ts};

/// A range of a flow, and the instant at which its first instant is to stand.
#[derive(Clone, Copy, Debug, PartialEq, Eq)]
pub struct EditRow {
    pub flow: u128,
    pub range: TimeRange,
    pub at: Ts,
}

pub type EditList = Listed<EditRow>;
