//! Parts of a flow or a source that are set, shown and cleared one by one.
use crate::flow::{MemberList, Tag};
use disk_trait::{Duplicate, Memory, Text};
use std::alloc::Global;

/// A part with its value; an absent value clears the part, and so does an empty collection. A source
/// has tags, a label and a description alone. Bit rates are bits per second.
#[derive(Drop)]
pub enum Part {
    /// The tag of this name, which is the value's own name where there is one.
    Tag(Text, Option<Tag>),
    Label(Option<Text>),
    Description(Option<Text>),
    ReadOnly(bool),
    Collection(MemberList),
    MaxBitRate(Option<u64>),
    AvgBitRate(Option<u64>),
}

/// Which part is asked for: `Tag` with the tag's name, and `Tags` for all tags.
#[derive(Drop)]
pub enum PartName {
    Tag(Text),
    Tags,
    Label,
    Description,
    ReadOnly,
    Collection,
    MaxBitRate,
    AvgBitRate,
}

impl Duplicate for Part {
    fn duplicate(&self, alloc: Global) -> Result<Self, Memory> {
        match self {
            Part::Tag(name, tag) => Ok(Part::Tag(name.duplicate(alloc)?, tag.duplicate(alloc)?)),
            Part::Label(text) => Ok(Part::Label(text.duplicate(alloc)?)),
            Part::Description(text) => Ok(Part::Description(text.duplicate(alloc)?)),
            Part::ReadOnly(mark) => Ok(Part::ReadOnly(*mark)),
            Part::Collection(members) => Ok(Part::Collection(members.duplicate(alloc)?)),
            Part::MaxBitRate(rate) => Ok(Part::MaxBitRate(*rate)),
            Part::AvgBitRate(rate) => Ok(Part::AvgBitRate(*rate)),
        }
    }
}
