//! The values that stand in changes and rows: formats, events, statuses, tags, members, segments, digests,
//! hooks.
ghost use Rattle.std.specs.Prelude.{◌≡◌, OnOk};
ghost use Rattle.field_codec.specs.Reading.{GivesField, WritesValue};
ghost use Rattle.change_codec.specs.Values.{kind_spelling, event_spelling, tag_spelling, is_rising, tags_spelling, member_spelling, segment_spelling, posts_spelling, digest_spelling, hook_spelling};

use crate::field::Field;
use disk_trait::{Memory, Text};
use field_codec::{BadField, Cursor, ReadFault, write_u8};
use media_rows::{
    Digest, EventKind, FormatKind, Hook, Member, PostList, Segment, Tag, TagList, text_before,
};
use std::alloc::Global;

impl Field for FormatKind {
    ghost spelling = { kind_spelling };

    #[tactic(auto, unfolding(crate::specs::Values::kind_spelling))]
    fn read_from(_alloc: Global, input: &mut Cursor) -> Result<FormatKind, ReadFault> {
        let left = input.left();
        match input.u8_field()? {
            1 => Ok(FormatKind::Video),
            2 => Ok(FormatKind::Audio),
            3 => Ok(FormatKind::DataEssence),
            4 => Ok(FormatKind::Multi),
            5 => Ok(FormatKind::Image),
            _ => Err(BadField { left })?,
        }
    }

    #[tactic(auto, unfolding(crate::specs::Values::kind_spelling))]
    fn write_to(&self, _alloc: Global, out: &mut Text) -> Result<(), Memory> {
        write_u8(out, self.number())?;
        Ok(())
    }
}

impl Field for EventKind {
    ghost spelling = { event_spelling };

    #[tactic(auto, unfolding(crate::specs::Values::event_spelling))]
    fn read_from(_alloc: Global, input: &mut Cursor) -> Result<EventKind, ReadFault> {
        let left = input.left();
        match input.u8_field()? {
            1 => Ok(EventKind::FlowCreated),
            2 => Ok(EventKind::FlowUpdated),
            3 => Ok(EventKind::FlowDeleted),
            4 => Ok(EventKind::SegmentsAdded),
            5 => Ok(EventKind::SegmentsDeleted),
            6 => Ok(EventKind::SourceCreated),
            7 => Ok(EventKind::SourceUpdated),
            8 => Ok(EventKind::SourceDeleted),
            _ => Err(BadField { left })?,
        }
    }

    #[tactic(auto, unfolding(crate::specs::Values::event_spelling))]
    fn write_to(&self, _alloc: Global, out: &mut Text) -> Result<(), Memory> {
        write_u8(out, self.number())?;
        Ok(())
    }
}

impl Field for Tag {
    ghost spelling = { tag_spelling };

    #[tactic(auto, unfolding(crate::specs::Values::tag_spelling))]
    fn read_from(alloc: Global, input: &mut Cursor) -> Result<Tag, ReadFault> {
        let left = input.left();
        let tag = Tag {
            name: Field::read_from(alloc, input)?,
            single: Field::read_from(alloc, input)?,
            values: Field::read_from(alloc, input)?,
        };
        if tag.single && tag.values.items().len() != 1 {
            return Err(BadField { left })?;
        }
        Ok(tag)
    }

    #[tactic(auto, unfolding(crate::specs::Values::tag_spelling))]
    fn write_to(&self, alloc: Global, out: &mut Text) -> Result<(), Memory> {
        self.name.write_to(alloc, out)?;
        self.single.write_to(alloc, out)?;
        self.values.write_to(alloc, out)?;
        Ok(())
    }
}

/// Reads tags, which stand by rising name.
#[tactic(auto, unfolding(crate::specs::Values::tags_spelling))]
pub(crate) fn read_tags(alloc: Global, input: &mut Cursor) -> Result<TagList, ReadFault>
    ensures { GivesField tags_spelling input.old input.new result }
{
    let left = input.left();
    let tags = TagList::read_from(alloc, input)?;
    if !are_rising(tags.items()) {
        return Err(BadField { left })?;
    }
    Ok(tags)
}

#[tactic(auto, unfolding(crate::specs::Values::tags_spelling))]
pub(crate) fn write_tags(alloc: Global, tags: &TagList, out: &mut Text) -> Result<(), Memory>
    requires { tags_spelling.asks tags.now }
    ensures { OnOk result (WritesValue tags_spelling out.old tags.now out.new) }
{
    tags.write_to(alloc, out)?;
    Ok(())
}

/// Whether each tag's name stands before the next one's.
pub(crate) fn are_rising(tags: &[Tag]) -> bool
    ensures { result ≡ is_rising tags.now }
{
    for at in 1..tags.len() {
        if !text_before(&tags[at - 1].name, &tags[at].name) {
            return false;
        }
    }
    true
}

impl Field for Member {
    ghost spelling = { member_spelling };

    #[tactic(auto, unfolding(crate::specs::Values::member_spelling))]
    fn read_from(alloc: Global, input: &mut Cursor) -> Result<Member, ReadFault> {
        Ok(Member {
            flow: Field::read_from(alloc, input)?,
            role: Field::read_from(alloc, input)?,
        })
    }

    #[tactic(auto, unfolding(crate::specs::Values::member_spelling))]
    fn write_to(&self, alloc: Global, out: &mut Text) -> Result<(), Memory> {
        self.flow.write_to(alloc, out)?;
        self.role.write_to(alloc, out)?;
        Ok(())
    }
}

impl Field for Segment {
    ghost spelling = { segment_spelling };

    #[tactic(auto, unfolding(crate::specs::Values::segment_spelling))]
    fn read_from(alloc: Global, input: &mut Cursor) -> Result<Segment, ReadFault> {
        Ok(Segment {
            object: Field::read_from(alloc, input)?,
            range: Field::read_from(alloc, input)?,
            ts_offset: Field::read_from(alloc, input)?,
            last_duration: Field::read_from(alloc, input)?,
            sample_offset: Field::read_from(alloc, input)?,
            sample_count: Field::read_from(alloc, input)?,
            key_frames: Field::read_from(alloc, input)?,
        })
    }

    #[tactic(auto, unfolding(crate::specs::Values::segment_spelling))]
    fn write_to(&self, alloc: Global, out: &mut Text) -> Result<(), Memory> {
        self.object.write_to(alloc, out)?;
        self.range.write_to(alloc, out)?;
        self.ts_offset.write_to(alloc, out)?;
        self.last_duration.write_to(alloc, out)?;
        self.sample_offset.write_to(alloc, out)?;
        self.sample_count.write_to(alloc, out)?;
        self.key_frames.write_to(alloc, out)?;
        Ok(())
    }
}

impl Field for PostList {
    ghost spelling = { posts_spelling };

    #[tactic(auto, unfolding(crate::specs::Values::posts_spelling))]
    fn read_from(alloc: Global, input: &mut Cursor) -> Result<PostList, ReadFault> {
        Ok(PostList {
            single: false,
            segments: Field::read_from(alloc, input)?,
        })
    }

    #[tactic(auto, unfolding(crate::specs::Values::posts_spelling))]
    fn write_to(&self, alloc: Global, out: &mut Text) -> Result<(), Memory> {
        self.segments.write_to(alloc, out)
    }
}

impl Field for Digest {
    ghost spelling = { digest_spelling };

    #[tactic(auto, unfolding(crate::specs::Values::digest_spelling))]
    fn read_from(alloc: Global, input: &mut Cursor) -> Result<Digest, ReadFault> {
        Ok(Digest {
            high: Field::read_from(alloc, input)?,
            low: Field::read_from(alloc, input)?,
        })
    }

    #[tactic(auto, unfolding(crate::specs::Values::digest_spelling))]
    fn write_to(&self, alloc: Global, out: &mut Text) -> Result<(), Memory> {
        self.high.write_to(alloc, out)?;
        self.low.write_to(alloc, out)?;
        Ok(())
    }
}

impl Field for Hook {
    ghost spelling = { hook_spelling };

    #[tactic(auto, unfolding(crate::specs::Values::hook_spelling))]
    fn read_from(alloc: Global, input: &mut Cursor) -> Result<Hook, ReadFault> {
        Ok(Hook {
            url: Field::read_from(alloc, input)?,
            events: Field::read_from(alloc, input)?,
            key_name: Field::read_from(alloc, input)?,
            key_value: Field::read_from(alloc, input)?,
            flow_ids: Field::read_from(alloc, input)?,
            source_ids: Field::read_from(alloc, input)?,
        })
    }

    #[tactic(auto, unfolding(crate::specs::Values::hook_spelling))]
    fn write_to(&self, alloc: Global, out: &mut Text) -> Result<(), Memory> {
        self.url.write_to(alloc, out)?;
        self.events.write_to(alloc, out)?;
        self.key_name.write_to(alloc, out)?;
        self.key_value.write_to(alloc, out)?;
        self.flow_ids.write_to(alloc, out)?;
        self.source_ids.write_to(alloc, out)?;
        Ok(())
    }
}
