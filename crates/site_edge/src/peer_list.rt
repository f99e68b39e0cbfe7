//! The peers of a site in memory.
ghost use Rattle.std.specs.Prelude.{◌≡◌, ◌∷◌, ◌++◌, [], OnErr, OnOk};

use disk_trait::{Memory, Text};
use std::alloc::Global;
use std::marker::Model;

/// Peers in the order in which they come. Contracts see the bytes that each sends.
#[derive(Drop)]
pub struct PeerList {
    alloc: Global,
    peers: Vec<Text>,
}

impl Model for PeerList {
    ghost use Rattle.std.specs.Prelude.{List, ℕ};

    ghost Value = { List (List ℕ) };

    ghost view = { λ l. l.peers.items };
}

impl PeerList {
    pub fn new(alloc: Global) -> PeerList
        ensures { result ≡ [] }
    {
        PeerList {
            alloc,
            peers: Vec::new(alloc),
        }
    }

    /// Adds a peer that sends these bytes.
    pub fn push(&mut self, bytes: &[u8]) -> Result<(), Memory>
        ensures ok { OnOk result (self.new ≡ self.old ++ bytes.now ∷ []) }
        ensures err { OnErr result (self.new ≡ self.old) }
    {
        let peer = Text::from_bytes(self.alloc, bytes)?;
        self.peers.push(peer)?;
        Ok(())
    }

    /// The peers themselves. It takes no memory.
    pub(crate) fn into_vec(self) -> Vec<Text>
        ensures { result.items ≡ self }
    {
        let PeerList { peers, .. } = self;
        peers
    }
}
