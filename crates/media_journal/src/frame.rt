//! The bytes of a record's one write.
ghost use Rattle.std.specs.Prelude.{◌≡◌, ◌<◌, ◌≤◌, ◌+◌, ◌^◌, IfOk, length, vec_len};
ghost use Rattle.disk_trait.specs.Calls.{overwritten};
ghost use Rattle.media_journal.specs.Journal.{frame_text};

use disk_trait::numbers::u32_bytes;
use disk_trait::{Memory, overwrite};
use std::alloc::Global;
use std::marker::Model;

/// A record before it is written: its length, its payload and a closed gate behind them. Contracts see
/// the payload.
#[derive(Drop)]
pub struct Frame {
    bytes: Vec<u8>,
}

impl Model for Frame {
    ghost use Rattle.std.specs.Prelude.{List, ℕ};
    ghost use Rattle.media_journal.specs.Journal.{framed, IsFrame};

    ghost Value = { List ℕ };

    ghost view = { λ f. framed f.bytes.items };

    ghost invariant = { λ f. IsFrame f.bytes.items };
}

impl Frame {
    /// The frame of this payload, whose bytes are made once and not copied again.
    pub fn new(alloc: Global, payload: &[u8]) -> Result<Frame, Memory>
        requires some { 0 < length payload.now }
        requires short { length payload.now < 2 ^ 32 }
        ensures { IfOk result (λ frame. frame ≡ payload.now) }
    {
        let bytes = frame_bytes(alloc, payload)?;
        Ok(Frame { bytes })
    }

    /// How many bytes the payload has.
    pub fn len(&self) -> usize
        ensures { result ≡ length self.now }
    {
        self.bytes().len() - 5
    }

    /// Puts these bytes over those of the payload from this place on. It takes no memory.
    pub fn fill(&mut self, at: usize, bytes: &[u8])
        requires { at + length bytes.now ≤ length self.old }
        ensures { self.new ≡ overwritten at bytes.now self.old }
    {
        overwrite(&mut self.bytes, 4 + at, bytes);
    }

    /// The bytes of the one write.
    pub(crate) fn bytes(&self) -> &[u8]
        ensures text { result.now ≡ frame_text self.now }
        ensures len { length result.now ≡ length self.now + 5 }
        ensures short { length self.now < 2 ^ 32 }
    {
        &self.bytes
    }
}

#[tactic(auto, unfolding(crate::specs::Journal::frame_text))]
fn frame_bytes(alloc: Global, payload: &[u8]) -> Result<Vec<u8>, Memory>
    requires short { length payload.now < 2 ^ 32 }
    ensures { IfOk result (λ bytes. bytes.items ≡ frame_text payload.now) }
{
    let mut bytes = Vec::with_capacity(alloc, payload.len() + 5)?;
    bytes.extend_from_slice(&u32_bytes(payload.len() as u32))?;
    bytes.extend_from_slice(payload)?;
    bytes.push(0)?;
    Ok(bytes)
}
