//! The one list type of the store. Each list that a call takes or answers is an alias of it.
ghost use Rattle.std.specs.Prelude.{◌≡◌, ◌∷◌, ◌++◌, [], IfOk, OnErr, OnOk, slice_get};

use crate::{Memory, Text};
use std::alloc::Global;
use std::marker::Model;

/// Items in order. Contracts see the list of them.
#[derive(Drop)]
pub struct Listed<T> {
    items: Vec<T>,
}

impl<T> Model for Listed<T> {
    ghost use Rattle.std.specs.Prelude.{List};

    ghost Value = { List T };

    ghost view = { λ l. l.items.items };
}

pub type TextList = Listed<Text>;

pub type NumberList = Listed<u64>;

impl<T> Listed<T> {
    pub fn new(alloc: Global) -> Listed<T>
        ensures { result ≡ [] }
    {
        Listed {
            items: Vec::new(alloc),
        }
    }

    /// The list of these items. It takes no memory.
    pub fn from_vec(items: Vec<T>) -> Listed<T>
        ensures { result ≡ items.items }
    {
        Listed { items }
    }

    pub fn items(&self) -> &[T]
        ensures { result.now ≡ self.now }
    {
        self.items.as_slice()
    }
}

impl<T: Drop> Listed<T> {
    /// Adds an item at the end, or drops it where there is no memory.
    pub fn push(&mut self, item: T) -> Result<(), Memory>
        ensures ok { OnOk result (self.new ≡ self.old ++ item ∷ []) }
        ensures err { OnErr result (self.new ≡ self.old) }
    {
        self.items.push(item)?;
        Ok(())
    }

    /// The first item, if there is one; the others are dropped. It takes no memory.
    pub fn into_first(self) -> Option<T>
        ensures { result ≡ slice_get self 0 }
    {
        self.items.into_iter().next()
    }
}

impl Listed<u64> {
    pub fn from_slice(alloc: Global, numbers: &[u64]) -> Result<NumberList, Memory>
        ensures { IfOk result (λ list. list ≡ numbers.now) }
    {
        Ok(Listed {
            items: Vec::from_slice(alloc, numbers)?,
        })
    }

    pub fn numbers(&self) -> &[u64]
        ensures { result.now ≡ self.now }
    {
        self.items()
    }
}
