//! Commands: what is asked of the library.
use crate::flow::{FlowBody, FormatKind};
use crate::hook::Hook;
use crate::object::Digest;
use crate::part::{Part, PartName};
use crate::segment::PostList;
use disk_trait::{Listed, Text, TextList};
use time_range::TimeRange;

/// The objects that an allocation asks for: so many, or these.
#[derive(Drop)]
pub enum Want {
    Count(u64),
    Named(TextList),
}

/// The part of a list that is asked for: the first `limit` items, at least 1, past the key `after`,
/// in reverse by falling keys. A segment's key is its first point, in half nanoseconds; a flow's or a
/// source's is its id less 2^127.
#[derive(Clone, Copy, Debug, PartialEq, Eq)]
pub struct Page {
    pub after: Option<i128>,
    pub limit: u64,
    pub reverse: bool,
}

/// A test on the tag of a name: that one of its values is this text, or whether it is there.
#[derive(Drop)]
pub enum TagTest {
    Equals(Text, Text),
    Exists(Text, bool),
}

pub type TagTests = Listed<TagTest>;

/// What a listed flow must pass.
#[derive(Drop)]
pub struct FlowFilter {
    pub source: Option<u128>,
    pub format: Option<FormatKind>,
    pub codec: Option<Text>,
    pub label: Option<Text>,
    pub tags: TagTests,
}

/// What a listed source must pass.
#[derive(Drop)]
pub struct SourceFilter {
    pub format: Option<FormatKind>,
    pub label: Option<Text>,
    pub tags: TagTests,
}

/// What a listed segment must pass: it overlaps the range, and names the object where one is named.
#[derive(Drop)]
pub struct SegmentFilter {
    pub range: TimeRange,
    pub object: Option<Text>,
}

/// A question, which changes nothing of the library.
#[derive(Drop)]
pub enum Query {
    Root,
    Service,
    Hooks,
    Sources(SourceFilter, Page),
    Source(u128),
    SourcePart(u128, PartName),
    /// Where a range is named, only flows of which a segment overlaps it are listed.
    Flows(FlowFilter, Option<TimeRange>, Page),
    Flow(u128),
    FlowPart(u128, PartName),
    Segments(u128, SegmentFilter, Page),
    Object(Text),
    Requests,
    Request(u64),
}

/// A command: to change the library, or to answer a question.
#[derive(Drop)]
pub enum Command {
    PutFlow(FlowBody),
    SetFlow(u128, Part),
    SetSource(u128, Part),
    DropFlow(u128),
    Allocate(u128, Want),
    /// The storing of an object's bytes, `length` of them from this media block on, with their digest.
    Keep {
        object: Text,
        start_block: u64,
        length: u64,
        digest: Digest,
    },
    AddSegments(u128, PostList),
    CutSegments(u128, TimeRange),
    PutHook(Hook),
    DropHook(Text),
    Ask(Query),
}
