//! Tags by their names: one of them, and what is left or comes where one is set or cleared.
ghost use Rattle.std.specs.Prelude.{◌≡◌, ◌++◌, OnOk, bytes_eq, filter, is_some, not, option_copied};
ghost use Rattle.media_rows.specs.Catalog.{tag_before, tag_of, tags_with};
ghost use Rattle.media_rows.specs.Lists.{placed};
ghost use Rattle.catalog_rows.specs.Answers.{Computes};

use disk_trait::{Duplicate, Memory, Text};
use media_rows::{Tag, TagList, text_before};
use std::alloc::Global;

/// The tag of a name, if it is set.
pub(crate) fn find_tag<'t>(tags: &'t [Tag], name: &Text) -> Option<&'t Tag>
    ensures { option_copied result ≡ tag_of name.now tags.now }
{
    tags.iter().find(|tag| same_text(&tag.name, name))
}

/// Whether the tag of a name is set.
pub(crate) fn has_tag(tags: &[Tag], name: &Text) -> bool
    ensures { result ≡ is_some (tag_of name.now tags.now) }
{
    match find_tag(tags, name) {
        Some(_) => true,
        None => false,
    }
}

/// Whether two texts are the same.
pub(crate) fn same_text(left: &Text, right: &Text) -> bool
    ensures { result ≡ bytes_eq left.now right.now }
{
    left.bytes() == right.bytes()
}

pub(crate) fn tags_with(
    alloc: Global,
    name: &Text,
    new: &Option<Tag>,
    tags: &[Tag],
) -> Result<TagList, Memory>
    ensures { Computes result (tags_with name.now new.now tags.now) }
{
    match new {
        None => tags_without(alloc, name, tags),
        Some(tag) => placed_tag(alloc, tags, tag),
    }
}

fn tags_without(alloc: Global, name: &Text, tags: &[Tag]) -> Result<TagList, Memory>
    ensures { Computes result (filter (λ tag. not (bytes_eq tag.name name.now)) tags.now) }
{
    let mut list = TagList::new(alloc);
    for tag in tags {
        if !same_text(&tag.name, name) {
            list.push(tag.duplicate(alloc)?)?;
        }
    }
    Ok(list)
}

/// The tags with one at its place, instead of the one of its name.
fn placed_tag(alloc: Global, tags: &[Tag], tag: &Tag) -> Result<TagList, Memory>
    ensures { Computes result (placed tag_before tag.now tags.now) }
{
    let mut list = tags_below(alloc, tags, tag)?;
    list.push(tag.duplicate(alloc)?)?;
    add_above(alloc, tags, tag, &mut list)?;
    Ok(list)
}

fn tags_below(alloc: Global, tags: &[Tag], tag: &Tag) -> Result<TagList, Memory>
    ensures { Computes result (filter (λ other. tag_before other tag.now) tags.now) }
{
    let mut list = TagList::new(alloc);
    for other in tags {
        if text_before(&other.name, &tag.name) {
            list.push(other.duplicate(alloc)?)?;
        }
    }
    Ok(list)
}

fn add_above(alloc: Global, tags: &[Tag], tag: &Tag, list: &mut TagList) -> Result<(), Memory>
    ensures { OnOk result
        (list.new ≡ list.old ++ filter (λ other. tag_before tag.now other) tags.now) }
{
    for other in tags {
        if text_before(&tag.name, &other.name) {
            list.push(other.duplicate(alloc)?)?;
        }
    }
    Ok(())
}
