//! Flows: what a client says of one, and what the store keeps.
ghost use Rattle.std.specs.Prelude.{◌≡◌};
ghost use Rattle.media_rows.specs.Formats.{format_number};

use disk_trait::{Duplicate, Listed, Memory, Text, TextList};
use std::alloc::Global;

/// What a flow or a source holds.
#[derive(Clone, Copy, Debug, PartialEq, Eq)]
pub enum FormatKind {
    Video,
    Audio,
    DataEssence,
    Multi,
    Image,
}

impl FormatKind {
    /// The number of the format in the file: 1 to 5.
    pub fn number(self) -> u8
        ensures { result ≡ format_number self }
    {
        match self {
            FormatKind::Video => 1,
            FormatKind::Audio => 2,
            FormatKind::DataEssence => 3,
            FormatKind::Multi => 4,
            FormatKind::Image => 5,
        }
    }
}

/// A tag of a flow or a source. A single one has exactly one value, and was given as a text.
#[derive(Drop)]
pub struct Tag {
    pub name: Text,
    pub single: bool,
    pub values: TextList,
}

pub type TagList = Listed<Tag>;

/// A flow that is collected by another one.
#[derive(Drop)]
pub struct Member {
    pub flow: u128,
    pub role: Option<Text>,
}

pub type MemberList = Listed<Member>;

/// A flow as a client says it. Bit rates are bits per second; the essence text is compact JSON.
#[derive(Drop)]
pub struct FlowBody {
    pub id: u128,
    pub source: u128,
    pub format: FormatKind,
    pub read_only: bool,
    pub codec: Option<Text>,
    pub container: Option<Text>,
    pub label: Option<Text>,
    pub description: Option<Text>,
    pub max_bit_rate: Option<u64>,
    pub avg_bit_rate: Option<u64>,
    pub tags: TagList,
    pub members: MemberList,
    pub essence: Option<Text>,
}

/// A kept flow, with the moments at which it was made and changed.
#[derive(Drop)]
pub struct FlowRow {
    pub body: FlowBody,
    pub created: u64,
    pub metadata_updated: u64,
    pub segments_updated: Option<u64>,
}

pub type FlowList = Listed<FlowRow>;

impl Duplicate for Tag {
    fn duplicate(&self, alloc: Global) -> Result<Self, Memory> {
        Ok(Tag {
            name: self.name.duplicate(alloc)?,
            single: self.single,
            values: self.values.duplicate(alloc)?,
        })
    }
}

impl Duplicate for Member {
    fn duplicate(&self, alloc: Global) -> Result<Self, Memory> {
        Ok(Member {
            flow: self.flow,
            role: self.role.duplicate(alloc)?,
        })
    }
}

impl Duplicate for FlowBody {
    fn duplicate(&self, alloc: Global) -> Result<Self, Memory> {
        Ok(FlowBody {
            id: self.id,
            source: self.source,
            format: self.format,
            read_only: self.read_only,
            codec: self.codec.duplicate(alloc)?,
            container: self.container.duplicate(alloc)?,
            label: self.label.duplicate(alloc)?,
            description: self.description.duplicate(alloc)?,
            max_bit_rate: self.max_bit_rate,
            avg_bit_rate: self.avg_bit_rate,
            tags: self.tags.duplicate(alloc)?,
            members: self.members.duplicate(alloc)?,
            essence: self.essence.duplicate(alloc)?,
        })
    }
}

impl Duplicate for FlowRow {
    fn duplicate(&self, alloc: Global) -> Result<Self, Memory> {
        Ok(FlowRow {
            body: self.body.duplicate(alloc)?,
            created: self.created,
            metadata_updated: self.metadata_updated,
            segments_updated: self.segments_updated,
        })
    }
}
