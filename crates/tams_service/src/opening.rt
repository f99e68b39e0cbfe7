//! Opening a service.
ghost use Rattle.std.specs.Prelude.{◌≡◌, ◌≤◌, true, IfOk, IsFalse, IsTrue};
ghost use Rattle.std.specs.Str.{is_utf8};
ghost use Rattle.disk_trait.specs.Calls.{DiskReads, LeavesOnly};
ghost use Rattle.http_wire.specs.Feeds.{new_feed};
ghost use Rattle.media_journal.specs.Answers.{not_disk};
ghost use Rattle.store_states.specs.States.{StandsFor, StoreState};
ghost use Rattle.tams_service.specs.Keeping.{KeepsState};
ghost use Rattle.tams_service.specs.Serving.{ServiceOpens, needs_of};

use crate::TamsService;
use disk_trait::{Disk, Memory, Text};
use media_journal::JournalFault;
use media_store::{PIECE, Store};
use request_hearing::Hearing;
use std::alloc::Global;
use store_states::an_image_stands_for_one_state;
use tams_answers::WireResponses;
use tams_http::Routes;

impl TamsService {
    /// Lets the service go. What was changed stands in its store's file already.
    pub fn close(self) {}

    /// A service of the store that a device has, whose addresses begin with `base`. It takes all memory for what a
    /// connection says. It answers as `Store::open` of `media_store` does.
    pub fn open<D: Disk>(
        alloc: Global,
        disk: &mut D,
        base: Text,
    ) -> Result<TamsService, JournalFault>
        requires base { IsTrue (is_utf8 base) }
        ensures reads { DiskReads (not_disk result) (D.device disk.old) (D.device disk.new) }
        ensures within { IfOk result (λ s. needs_of s ≤ (D.device disk.new).size) }
        ensures afresh { IfOk result (λ s. (s.fed ≡ new_feed) × (s.base ≡ base)) }
        ensures answer { (D.device disk.old).shows ≡ true
            → ServiceOpens (D.device disk.old).seen result }

        // Where nothing was pending and the file stood for a state, the service keeps that state.
        ensures keeps { (D.device disk.old).shows ≡ true
            → LeavesOnly (D.device disk.old).seen (D.device disk.old) → (from : StoreState)
            → StandsFor (D.device disk.old).seen from
            → IfOk result (λ s. KeepsState s.store (D.device disk.new) from) }
    {
        an_image_stands_for_one_state();
        let refusals = WireResponses::new(alloc, &base)?;
        let hearing = Hearing::new(alloc)?;
        let room = vec![in alloc; 0u8; PIECE]?;
        let store = Store::open(alloc, disk)?;
        match Routes::new(alloc, store.id()) {
            Ok(routes) => Ok(TamsService {
                store,
                hearing,
                routes,
                base,
                refusals,
                room,
            }),
            Err(Memory) => {
                store.close();
                Err(JournalFault::Memory)
            }
        }
    }
}
