//! Parts that are set or cleared: which isn't set, and what each makes.
ghost use Rattle.std.specs.Prelude.{◌≡◌, Some};
ghost use Rattle.media_rows.specs.declared.refusal.Refusal.TheVariants as refusals;
ghost use Rattle.media_rows.specs.Catalog.{body_with, clears_nothing, collects_nothing, flow_part_unset, sets_mark, source_part_unset, source_with, tag_of};
ghost use Rattle.media_rows.specs.Refusals.{when};
ghost use Rattle.catalog_rows.specs.Answers.{Computes};

use crate::tags::{has_tag, tags_with};
use disk_trait::{Duplicate, Memory, Text};
use media_rows::{FlowBody, Member, Part, Refusal, SourceRow, Tag};
use std::alloc::Global;

/// The refusal of a part that a flow hasn't, and that is to be cleared.
pub fn flow_part_unset(
    alloc: Global,
    body: &FlowBody,
    part: &Part,
) -> Result<Option<Refusal>, Memory>
    ensures { Computes result (flow_part_unset body.now part.now) }
{
    match part {
        Part::Tag(name, new) => not_set_if(
            alloc,
            clears_no_tag(body.tags.items(), name, new),
            b"tags",
        ),
        Part::Label(new) => not_set_if(alloc, clears_nothing(&body.label, new), b"label"),
        Part::Description(new) => {
            not_set_if(
                alloc,
                clears_nothing(&body.description, new),
                b"description",
            )
        }
        Part::ReadOnly(_) => Ok(None),
        Part::Collection(new) => not_set_if(
            alloc,
            collects_nothing(body.members.items(), new.items()),
            b"flow_collection",
        ),
        Part::MaxBitRate(new) => {
            not_set_if(
                alloc,
                clears_nothing(&body.max_bit_rate, new),
                b"max_bit_rate",
            )
        }
        Part::AvgBitRate(new) => {
            not_set_if(
                alloc,
                clears_nothing(&body.avg_bit_rate, new),
                b"avg_bit_rate",
            )
        }
    }
}

/// The refusal of a part that a source hasn't, and that is to be cleared, or that no source may
/// have.
pub fn source_part_unset(
    alloc: Global,
    row: &SourceRow,
    part: &Part,
) -> Result<Option<Refusal>, Memory>
    ensures { Computes result (source_part_unset row.now part.now) }
{
    match part {
        Part::Tag(name, new) => not_set_if(
            alloc,
            clears_no_tag(row.tags.items(), name, new),
            b"tags",
        ),
        Part::Label(new) => not_set_if(alloc, clears_nothing(&row.label, new), b"label"),
        Part::Description(new) => {
            not_set_if(alloc, clears_nothing(&row.description, new), b"description")
        }
        Part::ReadOnly(_) => not_set(alloc, b"read_only"),
        Part::Collection(_) => not_set(alloc, b"flow_collection"),
        Part::MaxBitRate(_) => not_set(alloc, b"max_bit_rate"),
        Part::AvgBitRate(_) => not_set(alloc, b"avg_bit_rate"),
    }
}

/// The refusal that names a part, where the test holds.
fn not_set_if(alloc: Global, test: bool, name: &[u8]) -> Result<Option<Refusal>, Memory>
    ensures { Computes result (when test (refusals.NotSet name.now)) }
{
    if test {
        return not_set(alloc, name);
    }
    Ok(None)
}

/// The refusal that names a part.
fn not_set(alloc: Global, name: &[u8]) -> Result<Option<Refusal>, Memory>
    ensures { Computes result (Some (refusals.NotSet name.now)) }
{
    Ok(Some(Refusal::NotSet(Text::from_bytes(alloc, name)?)))
}

fn clears_nothing<X, Y>(old: &Option<X>, new: &Option<Y>) -> bool
    ensures { result ≡ clears_nothing old.now new.now }
{
    new.is_none() && old.is_none()
}

fn clears_no_tag(tags: &[Tag], name: &Text, new: &Option<Tag>) -> bool
    ensures { result ≡ clears_nothing (tag_of name.now tags.now) new.now }
{
    new.is_none() && !has_tag(tags, name)
}

fn collects_nothing(old: &[Member], new: &[Member]) -> bool
    ensures { result ≡ collects_nothing old.now new.now }
{
    new.len() == 0 && old.len() == 0
}

/// Whether a part is the read-only mark.
pub fn sets_mark(part: &Part) -> bool
    ensures { result ≡ sets_mark part.now }
{
    match part {
        Part::ReadOnly(_) => true,
        _ => false,
    }
}

/// What is said of a flow, with one part set or cleared.
pub(crate) fn body_with(alloc: Global, part: &Part, body: &FlowBody) -> Result<FlowBody, Memory>
    ensures { Computes result (body_with part.now body.now) }
{
    let mut next = body.duplicate(alloc)?;
    match part {
        Part::Tag(name, new) => next.tags = tags_with(alloc, name, new, body.tags.items())?,
        Part::Label(new) => next.label = new.duplicate(alloc)?,
        Part::Description(new) => next.description = new.duplicate(alloc)?,
        Part::ReadOnly(mark) => next.read_only = *mark,
        Part::Collection(members) => next.members = members.duplicate(alloc)?,
        Part::MaxBitRate(rate) => next.max_bit_rate = *rate,
        Part::AvgBitRate(rate) => next.avg_bit_rate = *rate,
    }
    Ok(next)
}

/// A source with one part set or cleared. The parts that it hasn't change nothing.
pub(crate) fn source_with(alloc: Global, part: &Part, row: &SourceRow) -> Result<SourceRow, Memory>
    ensures { Computes result (source_with part.now row.now) }
{
    let mut next = row.duplicate(alloc)?;
    match part {
        Part::Tag(name, new) => next.tags = tags_with(alloc, name, new, row.tags.items())?,
        Part::Label(new) => next.label = new.duplicate(alloc)?,
        Part::Description(new) => next.description = new.duplicate(alloc)?,
        _ => {}
    }
    Ok(next)
}
