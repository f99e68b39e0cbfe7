//! Copies that equal what they copy.
ghost use Rattle.std.specs.Prelude.{◌≡◌, IfOk};

use crate::{Listed, Memory, Text};
use std::alloc::Global;

/// A value of which an equal one can be made, where there is memory.
pub trait Duplicate: Drop {
    fn duplicate(&self, alloc: Global) -> Result<Self, Memory>
        ensures { IfOk result (λ copy. copy ≡ self.now) };
}

impl Duplicate for u64 {
    fn duplicate(&self, _alloc: Global) -> Result<Self, Memory> {
        Ok(*self)
    }
}

impl Duplicate for u128 {
    fn duplicate(&self, _alloc: Global) -> Result<Self, Memory> {
        Ok(*self)
    }
}

impl Duplicate for Text {
    fn duplicate(&self, alloc: Global) -> Result<Self, Memory> {
        self.copy(alloc)
    }
}

impl<T: Duplicate> Duplicate for Option<T> {
    fn duplicate(&self, alloc: Global) -> Result<Self, Memory> {
        match self {
            Some(value) => Ok(Some(value.duplicate(alloc)?)),
            None => Ok(None),
        }
    }
}

impl<T: Duplicate> Duplicate for Listed<T> {
    fn duplicate(&self, alloc: Global) -> Result<Self, Memory> {
        let mut copy = Listed::new(alloc);
        for item in self.items() {
            copy.push(item.duplicate(alloc)?)?;
        }
        Ok(copy)
    }
}
