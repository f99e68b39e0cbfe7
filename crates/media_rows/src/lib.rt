//! The rows, commands, changes, replies and refusals of the library, and the definitions that say
//! what each command answers and what each change makes. The crates above compute them.
#![tactic(auto)]

mod change;
mod command;
mod digests;
mod essence;
mod event;
mod flow;
mod hook;
mod ids;
mod moments;
mod object;
mod order;
mod part;
mod ranges;
mod refusal;
mod reply;
mod request;
mod row;
mod segment;
mod source;
mod texts;

pub use crate::change::Change;
pub use crate::command::{
    Command, FlowFilter, Page, Query, SegmentFilter, SourceFilter, TagTest, TagTests, Want,
};
pub use crate::digests::{digest_of, print_digest};
pub use crate::essence::{holds_float, is_essence};
pub use crate::event::{EventKind, EventList, EventRow, EventRowList, Happened, HappenedList};
pub use crate::flow::{FlowBody, FlowList, FlowRow, FormatKind, Member, MemberList, Tag, TagList};
pub use crate::hook::{Hook, HookList, HookRow};
pub use crate::ids::{is_object_id, print_id, read_id};
pub use crate::moments::moment_text;
pub use crate::object::{Digest, Extent, ObjectList, ObjectRow, ObjectState};
pub use crate::order::{text_before, texts_have_an_order};
pub use crate::part::{Part, PartName};
pub use crate::ranges::{range_covers, range_hull, range_overlaps};
pub use crate::refusal::{ApplyFault, BookFault, Refusal};
pub use crate::reply::{
    FailedList, FailedSegment, FlowShown, FlowShownList, HookShown, HookShownList, Reply,
    SortedPosts, View,
};
pub use crate::request::{DeleteList, DeleteRow, DeleteStatus, Deletion};
pub use crate::row::{Row, RowList};
pub use crate::segment::{PostList, Segment, SegmentList, SegmentRow};
pub use crate::source::{IdList, SourceList, SourceRow};
pub use crate::texts::is_utf8;
