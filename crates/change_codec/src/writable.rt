//! Which rows can be written: each text has fewer than 2 ^ 32 bytes, each list has fewer items than that, and
//! tags are as the file has them.
ghost use Rattle.std.specs.Prelude.{◌≡◌, true, false};
ghost use Rattle.std.specs.List.{AllByRecursion};
ghost use Rattle.disk_trait.specs.Forms.{form_in_use};
ghost use Rattle.change_codec.specs.Rows.{digest_in};
ghost use Rattle.change_codec.specs.Values.{tags_spelling};

use crate::field::Field;
use crate::values::are_rising;
use disk_trait::{FORM_IN_USE, Listed, Text};
use media_rows::{
    DeleteRow, DeleteStatus, Digest, EventKind, EventRow, FlowBody, FlowRow, FormatKind, Hook,
    HookRow, Member, ObjectRow, ObjectState, PostList, Segment, SegmentRow, SourceRow, Tag,
    TagList,
};
use time_range::{TimeRange, Ts};

/// A value of which it can be told whether it can be written.
pub(crate) trait Writable: Field {
    /// Whether it can.
    fn can_write(&self) -> bool
        ensures yes { result ≡ true → Self.spelling.asks self.now }
        ensures no { result ≡ false → Self.spelling.asks self.now → ⊥ };
}

impl Writable for u64 {
    fn can_write(&self) -> bool {
        true
    }
}

impl Writable for u128 {
    fn can_write(&self) -> bool {
        true
    }
}

impl Writable for bool {
    fn can_write(&self) -> bool {
        true
    }
}

impl Writable for Ts {
    fn can_write(&self) -> bool {
        true
    }
}

impl Writable for TimeRange {
    fn can_write(&self) -> bool {
        true
    }
}

impl Writable for Text {
    #[tactic(auto, unfolding(field_codec::specs::Leaves::text_spelling))]
    fn can_write(&self) -> bool {
        self.bytes().len() <= u32::MAX as usize
    }
}

impl<T: Writable> Writable for Option<T> {
    fn can_write(&self) -> bool {
        match self {
            None => true,
            Some(value) => value.can_write(),
        }
    }
}

impl<T: Writable> Writable for Listed<T> {
    fn can_write(&self) -> bool {
        let items = self.items();
        items.len() <= u32::MAX as usize && can_write_items(items)
    }
}

/// Whether each item can be written.
fn can_write_items<T: Writable>(list: &[T]) -> bool
    ensures yes { result ≡ true → AllByRecursion T.spelling.asks list.now }
    ensures no { result ≡ false → AllByRecursion T.spelling.asks list.now → ⊥ }
{
    for item in list {
        if !item.can_write() {
            return false;
        }
    }
    true
}

/// Whether tags can be written: each of them can, and they stand by rising name.
#[tactic(auto, unfolding(crate::specs::Values::tags_spelling))]
fn can_write_tags(tags: &TagList) -> bool
    ensures yes { result ≡ true → tags_spelling.asks tags.now }
    ensures no { result ≡ false → tags_spelling.asks tags.now → ⊥ }
{
    tags.can_write() && are_rising(tags.items())
}

impl Writable for FormatKind {
    #[tactic(auto, unfolding(crate::specs::Values::kind_spelling))]
    fn can_write(&self) -> bool {
        true
    }
}

impl Writable for EventKind {
    #[tactic(auto, unfolding(crate::specs::Values::event_spelling))]
    fn can_write(&self) -> bool {
        true
    }
}

impl Writable for DeleteStatus {
    #[tactic(auto, unfolding(crate::specs::Rows::status_spelling))]
    fn can_write(&self) -> bool {
        true
    }
}

impl Writable for Tag {
    #[tactic(auto, unfolding(crate::specs::Values::tag_spelling))]
    fn can_write(&self) -> bool {
        self.name.can_write()
            && self.single.can_write()
            && self.values.can_write()
            && (!self.single || self.values.items().len() == 1)
    }
}

impl Writable for Member {
    #[tactic(auto, unfolding(crate::specs::Values::member_spelling))]
    fn can_write(&self) -> bool {
        self.flow.can_write() && self.role.can_write()
    }
}

impl Writable for Segment {
    #[tactic(auto, unfolding(crate::specs::Values::segment_spelling))]
    fn can_write(&self) -> bool {
        self.object.can_write()
            && self.range.can_write()
            && self.ts_offset.can_write()
            && self.last_duration.can_write()
            && self.sample_offset.can_write()
            && self.sample_count.can_write()
            && self.key_frames.can_write()
    }
}

impl Writable for Hook {
    #[tactic(auto, unfolding(crate::specs::Values::hook_spelling))]
    fn can_write(&self) -> bool {
        self.url.can_write()
            && self.events.can_write()
            && self.key_name.can_write()
            && self.key_value.can_write()
            && self.flow_ids.can_write()
            && self.source_ids.can_write()
    }
}

impl Writable for FlowBody {
    #[tactic(auto, unfolding(crate::specs::Values::flow_spelling, crate::specs::Values::flow_head_spelling, crate::specs::Values::flow_texts_spelling, crate::specs::Values::flow_rest_spelling))]
    fn can_write(&self) -> bool {
        self.id.can_write()
            && self.source.can_write()
            && self.format.can_write()
            && self.read_only.can_write()
            && self.codec.can_write()
            && self.container.can_write()
            && self.label.can_write()
            && self.description.can_write()
            && self.max_bit_rate.can_write()
            && self.avg_bit_rate.can_write()
            && can_write_tags(&self.tags)
            && self.members.can_write()
            && self.essence.can_write()
    }
}

impl Writable for SourceRow {
    #[tactic(auto, unfolding(crate::specs::Rows::source_row_spelling))]
    fn can_write(&self) -> bool {
        self.id.can_write()
            && self.format.can_write()
            && self.label.can_write()
            && self.description.can_write()
            && can_write_tags(&self.tags)
            && self.created.can_write()
            && self.updated.can_write()
    }
}

impl Writable for FlowRow {
    #[tactic(auto, unfolding(crate::specs::Rows::flow_row_spelling))]
    fn can_write(&self) -> bool {
        self.body.can_write()
            && self.created.can_write()
            && self.metadata_updated.can_write()
            && self.segments_updated.can_write()
    }
}

impl Writable for PostList {
    #[tactic(auto, unfolding(crate::specs::Values::posts_spelling))]
    fn can_write(&self) -> bool {
        !self.single && self.segments.can_write()
    }
}

impl Writable for Digest {
    #[tactic(auto, unfolding(crate::specs::Values::digest_spelling))]
    fn can_write(&self) -> bool {
        self.high.can_write() && self.low.can_write()
    }
}

impl Writable for ObjectState {
    #[tactic(auto, unfolding(crate::specs::Rows::state_spelling))]
    fn can_write(&self) -> bool {
        match self {
            ObjectState::Allocated => true,
            ObjectState::Stored {
                start_block,
                length,
                digest,
            } => start_block.can_write() && length.can_write() && can_write_digest(digest),
        }
    }
}

/// Whether a digest can be written, or left out, in the form in use.
fn can_write_digest(digest: &Option<Digest>) -> bool
    ensures yes { result ≡ true → (digest_in form_in_use).asks digest.now }
    ensures no { result ≡ false → (digest_in form_in_use).asks digest.now → ⊥ }
{
    match digest {
        Some(digest) => FORM_IN_USE == 2 && digest.can_write(),
        None => FORM_IN_USE != 2,
    }
}

impl Writable for ObjectRow {
    #[tactic(auto, unfolding(crate::specs::Rows::object_row_spelling))]
    fn can_write(&self) -> bool {
        self.serial.can_write()
            && self.id.can_write()
            && self.state.can_write()
            && self.idle_since.can_write()
    }
}

impl Writable for SegmentRow {
    #[tactic(auto, unfolding(crate::specs::Rows::segment_row_spelling))]
    fn can_write(&self) -> bool {
        self.flow.can_write() && self.serial.can_write() && self.segment.can_write()
    }
}

impl Writable for DeleteRow {
    #[tactic(auto, unfolding(crate::specs::Rows::delete_row_spelling))]
    fn can_write(&self) -> bool {
        self.serial.can_write()
            && self.flow.can_write()
            && self.range.can_write()
            && self.delete_flow.can_write()
            && self.status.can_write()
            && self.created.can_write()
            && self.updated.can_write()
    }
}

impl Writable for HookRow {
    #[tactic(auto, unfolding(crate::specs::Rows::hook_row_spelling))]
    fn can_write(&self) -> bool {
        self.serial.can_write() && self.hook.can_write() && self.failed.can_write()
    }
}

impl Writable for EventRow {
    #[tactic(auto, unfolding(crate::specs::Rows::event_row_spelling))]
    fn can_write(&self) -> bool {
        self.serial.can_write()
            && self.hook.can_write()
            && self.kind.can_write()
            && self.subject.can_write()
            && self.range.can_write()
            && self.moment.can_write()
    }
}
