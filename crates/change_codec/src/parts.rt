//! Parts of flows and of sources.
ghost use Rattle.std.specs.Prelude.{◌≡◌, OnOk};
ghost use Rattle.field_codec.specs.Spelling.{optional};
ghost use Rattle.field_codec.specs.Reading.{GivesField, WritesValue};
ghost use Rattle.change_codec.specs.Values.{named_tag, tag_part_spelling, flow_part_spelling, source_part_spelling};

use crate::field::Field;
use disk_trait::{Memory, Text};
use field_codec::{BadField, Cursor, ReadFault};
use media_rows::{Part, Tag};
use std::alloc::Global;

impl Field for Part {
    ghost spelling = { flow_part_spelling };

    #[tactic(auto, unfolding(crate::specs::Values::flow_part_spelling))]
    fn read_from(alloc: Global, input: &mut Cursor) -> Result<Part, ReadFault> {
        let left = input.left();
        match input.first() {
            Some(1) => {
                let (name, tag) = read_tag_part(alloc, input)?;
                Ok(Part::Tag(name, tag))
            }
            Some(2) => Ok(Part::Label(Field::read_from(alloc, input)?)),
            Some(3) => Ok(Part::Description(Field::read_from(alloc, input)?)),
            Some(4) => Ok(Part::ReadOnly(Field::read_from(alloc, input)?)),
            Some(5) => Ok(Part::Collection(Field::read_from(alloc, input)?)),
            Some(6) => Ok(Part::MaxBitRate(Field::read_from(alloc, input)?)),
            Some(7) => Ok(Part::AvgBitRate(Field::read_from(alloc, input)?)),
            _ => Err(BadField { left })?,
        }
    }

    #[tactic(auto, unfolding(crate::specs::Values::flow_part_spelling))]
    fn write_to(&self, alloc: Global, out: &mut Text) -> Result<(), Memory> {
        match self {
            Part::Tag(name, tag) => {
                out.push(1)?;
                write_tag_part(alloc, name, tag, out)?;
            }
            Part::Label(text) => {
                out.push(2)?;
                text.write_to(alloc, out)?;
            }
            Part::Description(text) => {
                out.push(3)?;
                text.write_to(alloc, out)?;
            }
            Part::ReadOnly(mark) => {
                out.push(4)?;
                mark.write_to(alloc, out)?;
            }
            Part::Collection(members) => {
                out.push(5)?;
                members.write_to(alloc, out)?;
            }
            Part::MaxBitRate(rate) => {
                out.push(6)?;
                rate.write_to(alloc, out)?;
            }
            Part::AvgBitRate(rate) => {
                out.push(7)?;
                rate.write_to(alloc, out)?;
            }
        }
        Ok(())
    }
}

/// Reads a part of a source: a tag, a label or a description.
#[tactic(auto, unfolding(crate::specs::Values::source_part_spelling))]
pub(crate) fn read_source_part(alloc: Global, input: &mut Cursor) -> Result<Part, ReadFault>
    ensures { GivesField source_part_spelling input.old input.new result }
{
    let left = input.left();
    match input.first() {
        Some(1) => {
            let (name, tag) = read_tag_part(alloc, input)?;
            Ok(Part::Tag(name, tag))
        }
        Some(2) => Ok(Part::Label(Field::read_from(alloc, input)?)),
        Some(3) => Ok(Part::Description(Field::read_from(alloc, input)?)),
        _ => Err(BadField { left })?,
    }
}

/// Writes a part of a source, which is spelled as a flow's.
pub(crate) fn write_source_part(alloc: Global, part: &Part, out: &mut Text) -> Result<(), Memory>
    requires { source_part_spelling.asks part.now }
    ensures { OnOk result (WritesValue source_part_spelling out.old part.now out.new) }
{
    part.write_to(alloc, out)?;
    Ok(())
}

/// Reads a tag's name, and the tag of that name where there is one.
#[tactic(auto, unfolding(crate::specs::Values::tag_part_spelling))]
fn read_tag_part(alloc: Global, input: &mut Cursor) -> Result<(Text, Option<Tag>), ReadFault>
    ensures { GivesField tag_part_spelling input.old input.new result }
{
    let name = input.text_field(alloc)?;
    let tag = read_named(alloc, &name, input)?;
    Ok((name, tag))
}

fn read_named(alloc: Global, name: &Text, input: &mut Cursor) -> Result<Option<Tag>, ReadFault>
    ensures { GivesField (optional (named_tag name.now)) input.old input.new result }
{
    let left = input.left();
    match input.first() {
        Some(0) => Ok(None),
        Some(1) => Ok(Some(read_tag_of(alloc, name, input)?)),
        _ => Err(BadField { left })?,
    }
}

fn read_tag_of(alloc: Global, name: &Text, input: &mut Cursor) -> Result<Tag, ReadFault>
    ensures { GivesField (named_tag name.now) input.old input.new result }
{
    let left = input.left();
    let tag = Tag::read_from(alloc, input)?;
    if !tag.name.same(name) {
        return Err(BadField { left })?;
    }
    Ok(tag)
}

#[tactic(auto, unfolding(crate::specs::Values::tag_part_spelling))]
fn write_tag_part(
    alloc: Global,
    name: &Text,
    tag: &Option<Tag>,
    out: &mut Text,
) -> Result<(), Memory>
    requires { tag_part_spelling.asks (name.now, tag.now) }
    ensures { OnOk result (WritesValue tag_part_spelling out.old (name.now, tag.now) out.new) }
{
    name.write_to(alloc, out)?;
    write_named(alloc, name, tag, out)?;
    Ok(())
}

/// Writes the tag of this name, where there is one.
fn write_named(alloc: Global, name: &Text, tag: &Option<Tag>, out: &mut Text) -> Result<(), Memory>
    requires { (optional (named_tag name.now)).asks tag.now }
    ensures { OnOk result (WritesValue (optional (named_tag name.now)) out.old tag.now out.new) }
{
    match tag {
        None => out.push(0)?,
        Some(tag) => {
            out.push(1)?;
            tag.write_to(alloc, out)?;
        }
    }
    Ok(())
}
