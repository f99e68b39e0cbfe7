//! Which changes can be written: as of rows, and the tag of a part has the name beside it, and a part of a source
//! is a tag, a label or a description.
ghost use Rattle.std.specs.Prelude.{◌≡◌, true, false};
ghost use Rattle.field_codec.specs.Spelling.{optional, pair};
ghost use Rattle.change_codec.specs.Values.{named_tag, source_part_spelling, tag_part_spelling};

use crate::writable::Writable;
use disk_trait::Text;
use media_rows::{Change, Part, Tag};

impl Writable for Part {
    #[tactic(auto, unfolding(crate::specs::Values::flow_part_spelling))]
    fn can_write(&self) -> bool {
        match self {
            Part::Tag(name, tag) => can_write_tag_part(name, tag),
            Part::Label(text) | Part::Description(text) => text.can_write(),
            Part::ReadOnly(mark) => mark.can_write(),
            Part::Collection(members) => members.can_write(),
            Part::MaxBitRate(rate) | Part::AvgBitRate(rate) => rate.can_write(),
        }
    }
}

/// Whether a part of a source can be written.
#[tactic(auto, unfolding(crate::specs::Values::source_part_spelling))]
fn can_write_source_part(part: &Part) -> bool
    ensures yes { result ≡ true → source_part_spelling.asks part.now }
    ensures no { result ≡ false → source_part_spelling.asks part.now → ⊥ }
{
    match part {
        Part::Tag(name, tag) => can_write_tag_part(name, tag),
        Part::Label(text) | Part::Description(text) => text.can_write(),
        Part::ReadOnly(_) | Part::Collection(_) | Part::MaxBitRate(_) | Part::AvgBitRate(_) => {
            false
        }
    }
}

/// Whether a tag's name and the tag of that name can be written.
#[tactic(auto, unfolding(crate::specs::Values::tag_part_spelling))]
fn can_write_tag_part(name: &Text, tag: &Option<Tag>) -> bool
    ensures yes { result ≡ true → tag_part_spelling.asks (name.now, tag.now) }
    ensures no { result ≡ false → tag_part_spelling.asks (name.now, tag.now) → ⊥ }
{
    name.can_write() && can_write_named(name, tag)
}

/// Whether a tag, where there is one, has this name and can be written.
fn can_write_named(name: &Text, tag: &Option<Tag>) -> bool
    ensures yes { result ≡ true → (optional (named_tag name.now)).asks tag.now }
    ensures no { result ≡ false → (optional (named_tag name.now)).asks tag.now → ⊥ }
{
    match tag {
        None => true,
        Some(tag) => tag.can_write() && tag.name.same(name),
    }
}

impl Writable for Change {
    #[tactic(auto, unfolding(crate::specs::Changes::all_changes, crate::specs::Changes::later_spelling, crate::specs::Changes::last_spelling))]
    fn can_write(&self) -> bool {
        match self {
            Change::PutFlow { moment, flow } => moment.can_write() && flow.can_write(),
            Change::SetFlow { moment, flow, part } => {
                moment.can_write() && flow.can_write() && part.can_write()
            }
            Change::SetSource {
                moment,
                source,
                part,
            } => moment.can_write() && source.can_write() && can_write_source_part(part),
            Change::DropFlow { moment, flow } => moment.can_write() && flow.can_write(),
            Change::Allocate {
                moment,
                flow,
                objects,
            } => moment.can_write() && flow.can_write() && objects.can_write(),
            Change::Store {
                moment,
                object,
                start_block,
                length,
                digest,
            } => {
                moment.can_write()
                    && object.can_write()
                    && start_block.can_write()
                    && length.can_write()
                    && digest.can_write()
            }
            Change::AddSegments {
                moment,
                flow,
                segments,
            } => moment.can_write() && flow.can_write() && segments.can_write(),
            Change::CutSegments {
                moment,
                flow,
                range,
            } => moment.can_write() && flow.can_write() && range.can_write(),
            Change::AskDelete {
                moment,
                flow,
                range,
                delete_flow,
            } => {
                moment.can_write()
                    && flow.can_write()
                    && range.can_write()
                    && delete_flow.can_write()
            }
            Change::DeleteStep { moment } | Change::SweepStep { moment } => moment.can_write(),
            Change::PutHook { moment, hook } => moment.can_write() && hook.can_write(),
            Change::DropHook { moment, url } => moment.can_write() && url.can_write(),
            Change::Delivered { moment, event } => moment.can_write() && event.can_write(),
        }
    }
}
