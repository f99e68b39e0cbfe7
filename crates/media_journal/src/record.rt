//! A record as it is found in a half.
use disk_trait::{Listed, Text};

/// An open record: the offset of its gate from the device's start, in bytes, and its payload.
#[derive(Drop)]
pub struct Record {
    pub offset: u64,
    pub payload: Text,
}

pub type RecordList = Listed<Record>;
