//! Parts of sources and of flows as they are shown.
ghost use Rattle.std.specs.Prelude.{◌≡◌, IfOk, option_copied};
ghost use Rattle.media_rows.specs.declared.part.Part.TheVariants as parts;
ghost use Rattle.media_rows.specs.Catalog.{tag_of};
ghost use Rattle.media_rows.specs.Views.{collection_part, flow_part, part_or, rate_part, source_part, tag_part, text_part};
ghost use Rattle.core_views.specs.Shown.{IsShown};

use disk_trait::{Duplicate, Memory, Text};
use media_rows::{
    BookFault, FlowBody, Member, MemberList, Part, PartName, Refusal, SourceRow, Tag, View,
};
use std::alloc::Global;

/// A part of a flow, where it is set.
pub(crate) fn flow_part(alloc: Global, body: &FlowBody, name: &PartName) -> Result<View, BookFault>
    ensures { IsShown (flow_part body.now name.now) result }
{
    match name {
        PartName::Tag(name) => {
            part_or(alloc, tag_part(alloc, name, body.tags.items())?, b"tags")
        }
        PartName::Tags => Ok(View::AllTags(body.tags.duplicate(alloc)?)),
        PartName::Label => part_or(alloc, label_part(alloc, &body.label)?, b"label"),
        PartName::Description => {
            part_or(
                alloc,
                description_part(alloc, &body.description)?,
                b"description",
            )
        }
        PartName::ReadOnly => Ok(View::OnePart(Part::ReadOnly(body.read_only))),
        PartName::Collection => {
            let part = collection_part(alloc, &body.members)?;
            part_or(alloc, part, b"flow_collection")
        }
        PartName::MaxBitRate => {
            let part = body.max_bit_rate.map(|rate| Part::MaxBitRate(Some(rate)));
            part_or(alloc, part, b"max_bit_rate")
        }
        PartName::AvgBitRate => {
            let part = body.avg_bit_rate.map(|rate| Part::AvgBitRate(Some(rate)));
            part_or(alloc, part, b"avg_bit_rate")
        }
    }
}

/// A part of a source, where it is set: a tag, all tags, its label or its description.
pub(crate) fn source_part(
    alloc: Global,
    row: &SourceRow,
    name: &PartName,
) -> Result<View, BookFault>
    ensures { IsShown (source_part row.now name.now) result }
{
    match name {
        PartName::Tag(name) => part_or(alloc, tag_part(alloc, name, row.tags.items())?, b"tags"),
        PartName::Tags => Ok(View::AllTags(row.tags.duplicate(alloc)?)),
        PartName::Label => part_or(alloc, label_part(alloc, &row.label)?, b"label"),
        PartName::Description => {
            part_or(
                alloc,
                description_part(alloc, &row.description)?,
                b"description",
            )
        }
        PartName::ReadOnly => part_or(alloc, None, b"read_only"),
        PartName::Collection => part_or(alloc, None, b"flow_collection"),
        PartName::MaxBitRate => part_or(alloc, None, b"max_bit_rate"),
        PartName::AvgBitRate => part_or(alloc, None, b"avg_bit_rate"),
    }
}

/// What is there is shown, and otherwise the part of this name isn't set.
fn part_or(alloc: Global, part: Option<Part>, name: &[u8]) -> Result<View, BookFault>
    ensures { IsShown (part_or part name.now) result }
{
    match part {
        Some(part) => Ok(View::OnePart(part)),
        None => Err(BookFault::Refused(Refusal::NotSet(Text::from_bytes(alloc, name)?))),
    }
}

/// The tag of a name as a part, where it is set.
fn tag_part(alloc: Global, name: &Text, tags: &[Tag]) -> Result<Option<Part>, Memory>
    ensures { IfOk result (λ part. part ≡ tag_part name.now (tag_of name.now tags.now)) }
{
    match find_tag(tags, name) {
        None => Ok(None),
        Some(tag) => Ok(Some(Part::Tag(name.duplicate(alloc)?, Some(tag.duplicate(alloc)?)))),
    }
}

/// The tag of a name, where it is set.
fn find_tag<'a>(tags: &'a [Tag], name: &Text) -> Option<&'a Tag>
    ensures { option_copied result ≡ tag_of name.now tags.now }
{
    tags.iter().find(|tag| tag.name.bytes() == name.bytes())
}

/// The label as a part, where it is set.
fn label_part(alloc: Global, label: &Option<Text>) -> Result<Option<Part>, Memory>
    ensures { IfOk result (λ part. part ≡ text_part parts.Label label.now) }
{
    match label {
        None => Ok(None),
        Some(text) => Ok(Some(Part::Label(Some(text.duplicate(alloc)?)))),
    }
}

/// The description as a part, where it is set.
fn description_part(alloc: Global, description: &Option<Text>) -> Result<Option<Part>, Memory>
    ensures { IfOk result (λ part. part ≡ text_part parts.Description description.now) }
{
    match description {
        None => Ok(None),
        Some(text) => Ok(Some(Part::Description(Some(text.duplicate(alloc)?)))),
    }
}

/// The collected flows as a part, where there are any.
fn collection_part(alloc: Global, members: &MemberList) -> Result<Option<Part>, Memory>
    ensures { IfOk result (λ part. part ≡ collection_part members.now) }
{
    if members.items().is_empty() {
        return Ok(None);
    }
    Ok(Some(Part::Collection(members.duplicate(alloc)?)))
}
