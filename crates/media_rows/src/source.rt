//! Sources: what flows were made from.
use crate::flow::{FormatKind, TagList};
use disk_trait::{Duplicate, Listed, Memory, Text};
use std::alloc::Global;

/// Ids of sources or flows.
pub type IdList = Listed<u128>;

/// A kept source, with the moments at which it was made and changed.
#[derive(Drop)]
pub struct SourceRow {
    pub id: u128,
    pub format: FormatKind,
    pub label: Option<Text>,
    pub description: Option<Text>,
    pub tags: TagList,
    pub created: u64,
    pub updated: u64,
}

pub type SourceList = Listed<SourceRow>;

impl Duplicate for SourceRow {
    fn duplicate(&self, alloc: Global) -> Result<Self, Memory> {
        Ok(SourceRow {
            id: self.id,
            format: self.format,
            label: self.label.duplicate(alloc)?,
            description: self.description.duplicate(alloc)?,
            tags: self.tags.duplicate(alloc)?,
            created: self.created,
            updated: self.updated,
        })
    }
}
