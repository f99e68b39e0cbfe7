//! Requests to delete more segments than go at once.
ghost use Rattle.std.specs.Prelude.{◌≡◌};
ghost use Rattle.media_rows.specs.Formats.{status_number};
ghost use Rattle.media_rows.specs.Requests.{asked_row};

use disk_trait::{Duplicate, Listed, Memory};
use std::alloc::Global;
use time_range::TimeRange;

/// How far a delete request has come.
#[derive(Clone, Copy, Debug, PartialEq, Eq)]
pub enum DeleteStatus {
    Created,
    Started,
    Done,
}

impl DeleteStatus {
    /// The number of the status in the file: 1 to 3.
    pub fn number(self) -> u8
        ensures { result ≡ status_number self }
    {
        match self {
            DeleteStatus::Created => 1,
            DeleteStatus::Started => 2,
            DeleteStatus::Done => 3,
        }
    }
}

/// What a delete request asks for: that the segments of a flow go that the range covers, and with the last of
/// them the flow where `delete_flow` says so.
#[derive(Clone, Copy, Debug, PartialEq, Eq)]
pub struct Deletion {
    pub flow: u128,
    pub range: TimeRange,
    pub delete_flow: bool,
}

impl Deletion {
    /// The request of this serial for it, made at this moment.
    pub fn row(&self, serial: u64, moment: u64) -> DeleteRow
        ensures { result ≡ asked_row self.now serial moment }
    {
        DeleteRow {
            serial,
            flow: self.flow,
            range: self.range,
            delete_flow: self.delete_flow,
            status: DeleteStatus::Created,
            created: moment,
            updated: moment,
        }
    }
}

/// A delete request: the segments of a flow that the range covers, and then the flow where
/// `delete_flow` says so.
#[derive(Clone, Copy, Debug, PartialEq, Eq)]
pub struct DeleteRow {
    pub serial: u64,
    pub flow: u128,
    pub range: TimeRange,
    pub delete_flow: bool,
    pub status: DeleteStatus,
    pub created: u64,
    pub updated: u64,
}

pub type DeleteList = Listed<DeleteRow>;

impl Duplicate for DeleteRow {
    fn duplicate(&self, _alloc: Global) -> Result<Self, Memory> {
        Ok(*self)
    }
}
