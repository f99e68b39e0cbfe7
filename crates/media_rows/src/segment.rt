//! Segments: which object holds a flow's media over a timerange.
ghost use Rattle.std.specs.Prelude.{◌≡◌, ◌∷◌, ◌++◌, [], IfOk, OnErr, OnOk};
ghost use Rattle.media_rows.specs.Posts.{failed_of};

use crate::refusal::Refusal;
use crate::reply::FailedSegment;
use disk_trait::{Duplicate, Listed, Memory, Text};
use std::alloc::Global;
use time_range::{TimeRange, Ts};

/// A segment as a client posts it. The time on the flow's line is the media time plus `ts_offset`.
#[derive(Drop)]
pub struct Segment {
    pub object: Text,
    pub range: TimeRange,
    pub ts_offset: Ts,
    pub last_duration: Option<Ts>,
    pub sample_offset: u64,
    pub sample_count: Option<u64>,
    pub key_frames: Option<u64>,
}

impl Segment {
    /// The segment as one of a list that isn't kept, for this refusal.
    pub fn failed(&self, alloc: Global, refusal: Refusal) -> Result<FailedSegment, Memory>
        ensures { IfOk result (λ failed. failed ≡ failed_of refusal self.now) }
    {
        Ok(FailedSegment {
            refusal,
            object: self.object.duplicate(alloc)?,
            range: self.range,
        })
    }
}

/// The segments of one post, in its order. It is single where its body was one object and no list.
#[derive(Drop)]
pub struct PostList {
    pub single: bool,
    pub segments: Listed<Segment>,
}

impl PostList {
    /// A post without segments.
    pub fn new(alloc: Global, single: bool) -> PostList
        ensures single { result.single ≡ single }
        ensures segments { result.segments ≡ [] }
    {
        PostList {
            single,
            segments: Listed::new(alloc),
        }
    }

    /// Adds a segment at the end, or drops it where there is no memory.
    pub fn push(&mut self, segment: Segment) -> Result<(), Memory>
        ensures single { self.new.single ≡ self.old.single }
        ensures ok { OnOk result (self.new.segments ≡ self.old.segments ++ segment ∷ []) }
        ensures err { OnErr result (self.new.segments ≡ self.old.segments) }
    {
        self.segments.push(segment)
    }

    /// The segments in order.
    pub fn items(&self) -> &[Segment]
        ensures { result.now ≡ self.now.segments }
    {
        self.segments.items()
    }
}

/// A kept segment, with its flow and its serial.
#[derive(Drop)]
pub struct SegmentRow {
    pub flow: u128,
    pub serial: u64,
    pub segment: Segment,
}

pub type SegmentList = Listed<SegmentRow>;

impl Duplicate for Segment {
    fn duplicate(&self, alloc: Global) -> Result<Self, Memory> {
        Ok(Segment {
            object: self.object.duplicate(alloc)?,
            range: self.range,
            ts_offset: self.ts_offset,
            last_duration: self.last_duration,
            sample_offset: self.sample_offset,
            sample_count: self.sample_count,
            key_frames: self.key_frames,
        })
    }
}

impl Duplicate for SegmentRow {
    fn duplicate(&self, alloc: Global) -> Result<Self, Memory> {
        Ok(SegmentRow {
            flow: self.flow,
            serial: self.serial,
            segment: self.segment.duplicate(alloc)?,
        })
    }
}
