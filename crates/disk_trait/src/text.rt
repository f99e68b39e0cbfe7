//! A text of bytes.
ghost use Rattle.std.specs.Prelude.{◌≡◌, ◌↔◌, ◌∷◌, ◌++◌, [], IfOk, IsTrue, OnErr, OnOk};

use crate::{Memory, same_bytes};
use std::alloc::Global;
use std::marker::Model;

/// Bytes that are kept as one value. Contracts see the list of them.
#[derive(Drop)]
pub struct Text {
    bytes: Vec<u8>,
}

impl Model for Text {
    ghost use Rattle.std.specs.Prelude.{List, ℕ};

    ghost Value = { List ℕ };

    ghost view = { λ t. t.bytes.items };
}

impl Text {
    pub fn new(alloc: Global) -> Text
        ensures { result ≡ [] }
    {
        Text {
            bytes: Vec::new(alloc),
        }
    }

    pub fn from_bytes(alloc: Global, bytes: &[u8]) -> Result<Text, Memory>
        ensures { IfOk result (λ text. text ≡ bytes.now) }
    {
        Ok(Text {
            bytes: Vec::from_slice(alloc, bytes)?,
        })
    }

    /// The text of these bytes. It takes no memory.
    pub fn from_vec(bytes: Vec<u8>) -> Text
        ensures { result ≡ bytes.items }
    {
        Text { bytes }
    }

    /// The bytes themselves. It takes no memory.
    pub fn into_vec(self) -> Vec<u8>
        ensures { result.items ≡ self }
    {
        let Text { bytes } = self;
        bytes
    }

    pub fn bytes(&self) -> &[u8]
        ensures { result.now ≡ self.now }
    {
        self.bytes.as_slice()
    }

    pub fn same(&self, other: &Text) -> bool
        ensures { IsTrue result ↔ (self.now ≡ other.now) }
    {
        same_bytes(self.bytes(), other.bytes())
    }

    pub fn copy(&self, alloc: Global) -> Result<Text, Memory>
        ensures { IfOk result (λ text. text ≡ self.now) }
    {
        Text::from_bytes(alloc, self.bytes())
    }

    pub fn push(&mut self, byte: u8) -> Result<(), Memory>
        ensures ok { OnOk result (self.new ≡ self.old ++ byte ∷ []) }
        ensures err { OnErr result (self.new ≡ self.old) }
    {
        self.bytes.push(byte)?;
        Ok(())
    }

    /// Adds these bytes at the end.
    pub fn append(&mut self, bytes: &[u8]) -> Result<(), Memory>
        ensures ok { OnOk result (self.new ≡ self.old ++ bytes.now) }
        ensures err { OnErr result (self.new ≡ self.old) }
    {
        self.bytes.extend_from_slice(bytes)?;
        Ok(())
    }
}
