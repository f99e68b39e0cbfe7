//! Webhooks: addresses to which events go.
use crate::event::EventList;
use crate::source::IdList;
use disk_trait::{Duplicate, Listed, Memory, Text};
use std::alloc::Global;

/// A webhook as a client registers it: its address, the events that it takes, the name and the value
/// of a header field for its peer, and the flows and sources to which it keeps, where they are named.
#[derive(Drop)]
pub struct Hook {
    pub url: Text,
    pub events: EventList,
    pub key_name: Option<Text>,
    pub key_value: Option<Text>,
    pub flow_ids: Option<IdList>,
    pub source_ids: Option<IdList>,
}

/// A kept webhook. One that has failed takes no more events.
#[derive(Drop)]
pub struct HookRow {
    pub serial: u64,
    pub hook: Hook,
    pub failed: bool,
}

pub type HookList = Listed<HookRow>;

impl Duplicate for Hook {
    fn duplicate(&self, alloc: Global) -> Result<Self, Memory> {
        Ok(Hook {
            url: self.url.duplicate(alloc)?,
            events: self.events.duplicate(alloc)?,
            key_name: self.key_name.duplicate(alloc)?,
            key_value: self.key_value.duplicate(alloc)?,
            flow_ids: self.flow_ids.duplicate(alloc)?,
            source_ids: self.source_ids.duplicate(alloc)?,
        })
    }
}

impl Duplicate for HookRow {
    fn duplicate(&self, alloc: Global) -> Result<Self, Memory> {
        Ok(HookRow {
            serial: self.serial,
            hook: self.hook.duplicate(alloc)?,
            failed: self.failed,
        })
    }
}
