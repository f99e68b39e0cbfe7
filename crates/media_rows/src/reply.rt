//! Replies: what the library answers.
ghost use Rattle.std.specs.Prelude.{◌≡◌, [], None, Some, IfOk, IfErr};
ghost use Rattle.media_rows.specs.Answer.{list_refusal};

use crate::flow::{FlowList, FlowRow, TagList};
use crate::hook::HookRow;
use crate::object::ObjectRow;
use crate::part::Part;
use crate::refusal::Refusal;
use crate::request::{DeleteList, DeleteRow};
use crate::segment::{Segment, SegmentList};
use crate::source::{IdList, SourceList, SourceRow};
use disk_trait::{Listed, Text, TextList};
use std::alloc::Global;
use time_range::TimeRange;

/// A flow as it is shown: with the hull of its segments.
#[derive(Drop)]
pub struct FlowShown {
    pub row: FlowRow,
    pub hull: TimeRange,
}

pub type FlowShownList = Listed<FlowShown>;

/// A hook as it is shown: with the number of its waiting events.
#[derive(Drop)]
pub struct HookShown {
    pub row: HookRow,
    pub waiting: u64,
}

pub type HookShownList = Listed<HookShown>;

/// What a query shows. An `Option<i128>` is the key behind which the next page begins, and
/// is there exactly where there is a next page.
#[derive(Drop)]
pub enum View {
    Root,
    Service,
    Source(SourceRow),
    Sources(SourceList, Option<i128>),
    Flow(FlowShown),
    Flows(FlowShownList, Option<i128>),
    Segments(SegmentList, Option<i128>),
    Object { row: ObjectRow, flows: IdList },
    Request(DeleteRow),
    Requests(DeleteList),
    Hooks(HookShownList),
    OnePart(Part),
    AllTags(TagList),
}

/// A segment of a post that isn't kept: why, the object that it names, and its range.
#[derive(Drop)]
pub struct FailedSegment {
    pub refusal: Refusal,
    pub object: Text,
    pub range: TimeRange,
}

pub type FailedList = Listed<FailedSegment>;

/// The segments of a list that are kept, and those that aren't, each in the list's order.
#[derive(Drop)]
pub struct SortedPosts {
    pub kept: Listed<Segment>,
    pub failed: FailedList,
}

impl SortedPosts {
    /// No segments.
    pub fn new(alloc: Global) -> SortedPosts
        ensures kept { result.kept ≡ [] }
        ensures failed { result.failed ≡ [] }
    {
        SortedPosts {
            kept: Listed::new(alloc),
            failed: Listed::new(alloc),
        }
    }

    /// The same, unless something failed and nothing is kept, which is refused as its first one is. It takes
    /// no memory.
    pub fn unless_refused(self, alloc: Global) -> Result<SortedPosts, Refusal>
        ensures ok { IfOk result (λ told. (told ≡ self) × (list_refusal self ≡ None)) }
        ensures refused { IfErr result (λ why. list_refusal self ≡ Some why) }
    {
        if !self.kept.items().is_empty() {
            return Ok(self);
        }
        match self.failed.into_first() {
            Some(first) => Err(first.refusal),
            None => Ok(SortedPosts::new(alloc)),
        }
    }
}

/// The answer to a command.
#[derive(Drop)]
pub enum Reply {
    Created,
    CreatedObjects(TextList),
    Accepted(DeleteRow),
    Done,
    Shown(View),
    /// A media object of this length, whose bytes follow.
    Media(u64),
    Refused(Refusal),
    /// Some segments of a post were kept, and not these, which stand in its order.
    Partly(FailedList),
}
