//! Media objects: allocated first, and stored once.
ghost use Rattle.std.specs.Prelude.{◌≡◌};
ghost use Rattle.media_rows.specs.Objects.{kept_digest};

use disk_trait::{Duplicate, FORM_IN_USE, Listed, Memory, Text};
use std::alloc::Global;

/// The place of an object's bytes: its first media block, of 4,096 bytes, and its length in bytes.
#[derive(Clone, Copy, Debug, PartialEq, Eq)]
pub struct Extent {
    pub start: u64,
    pub length: u64,
}

/// The SHA-256 of an object's bytes (FIPS 180-4): the first 16 of its 32 bytes as a number, and the
/// last 16.
#[derive(Clone, Copy, Debug, PartialEq, Eq)]
pub struct Digest {
    pub high: u128,
    pub low: u128,
}

impl Digest {
    /// The digest that is kept of an object's bytes: none where the file is written in form 1.
    pub fn kept(self) -> Option<Digest>
        ensures { result ≡ kept_digest self }
    {
        if FORM_IN_USE == 2 { Some(self) } else { None }
    }
}

/// Whether an object has its bytes, and where: the first media block and the length in bytes. The
/// digest is missing exactly in what was read from a store of form 1.
#[derive(Clone, Copy, Debug, PartialEq, Eq)]
pub enum ObjectState {
    Allocated,
    Stored {
        start_block: u64,
        length: u64,
        digest: Option<Digest>,
    },
}

/// A kept object. It is idle since its allocation, its storing, or the loss of its last reference.
#[derive(Drop)]
pub struct ObjectRow {
    pub id: Text,
    pub serial: u64,
    pub state: ObjectState,
    pub idle_since: u64,
}

pub type ObjectList = Listed<ObjectRow>;

impl Duplicate for ObjectRow {
    fn duplicate(&self, alloc: Global) -> Result<Self, Memory> {
        Ok(ObjectRow {
            id: self.id.duplicate(alloc)?,
            serial: self.serial,
            state: self.state,
            idle_since: self.idle_since,
        })
    }
}
