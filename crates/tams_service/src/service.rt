//! The service of the media store.
ghost use Rattle.std.specs.Prelude.{◌≡◌};

use crate::ending::refuse_wire;
use connection_loop::{ConnectionEnd, RunTally, Service};
use disk_trait::Text;
use media_store::Store;
use request_hearing::{Heard, Hearing};
use site_edge::{Clock, Site};
use std::alloc::Global;
use std::marker::Model;
use tams_answers::WireResponses;
use tams_http::Routes;

/// Answers the requests of connections from the store of one file. It has the bytes of the connection under way
/// that were heard and not yet taken.
#[derive(Drop)]
pub struct TamsService {
    pub(crate) store: Store,
    pub(crate) hearing: Hearing,
    pub(crate) routes: Routes,
    pub(crate) base: Text,
    pub(crate) refusals: WireResponses,
    /// Room for a piece of an object's bytes.
    pub(crate) room: Vec<u8>,
}

impl Model for TamsService {
    ghost use Rattle.std.specs.Prelude.{vec_len};
    ghost use Rattle.tams_service.specs.Serving.{IsService, ServiceSeen};

    ghost Value = { ServiceSeen };

    ghost view = { λ s. record { store = s.store; fed = s.hearing; base = s.base } };

    ghost invariant = { λ s. IsService s.store s.routes s.base s.refusals (vec_len s.room) };
}

impl Service for TamsService {
    ghost use Rattle.std.specs.Prelude.{ℕ, List};
    ghost use Rattle.http_wire.specs.Agreeing.{MayTurn};
    ghost use Rattle.media_store.specs.Stores.{StoreSeen};
    ghost use Rattle.store_states.specs.States.{StoreState};
    ghost use Rattle.tams_machine.specs.Machine.{tams_machine};
    ghost use Rattle.tams_machine.specs.Requests.{TamsRequest};
    ghost use Rattle.tams_service.specs.Keeping.{KeepsState};
    ghost use Rattle.tams_service.specs.KeepingLaws.{keeps_images};
    ghost use Rattle.tams_service.specs.Serving.{needs_of};

    ghost State = { StoreState };

    ghost Request = { TamsRequest };

    ghost Setting = { List ℕ };

    ghost setting = { λ s. s.base };

    ghost machine = { tams_machine };

    ghost unread = { λ s. s.fed.unread };

    ghost taken = { λ s. s.fed.requests };

    ghost Store = { StoreSeen };

    ghost store = { λ s. s.store };

    ghost keeps = { KeepsState };

    ghost kept = { keeps_images };

    ghost size = { needs_of };

    ghost turns = { λ s. s.fed.requests };

    ghost ready = { λ s. MayTurn s.fed };

    fn begin(&mut self) {
        self.hearing.restart();
    }

    fn take_turn<X: Site, C: Clock>(
        &mut self,
        alloc: Global,
        site: &mut X,
        clock: &mut C,
        tally: &mut RunTally,
    ) -> Option<ConnectionEnd> {
        if self.store.spent() {
            return Some(ConnectionEnd::Complete);
        }
        match self.hearing.hear_request(site) {
            Heard::Whole(head) => self.answer_whole(alloc, site, clock, tally, head),
            Heard::Media(head) => self.answer_media(alloc, site, clock, tally, head),
            Heard::Refused(fault) => Some(refuse_wire(site, tally, &self.refusals, fault)),
            Heard::Ended => Some(ConnectionEnd::Complete),
            Heard::Cut => Some(ConnectionEnd::Cut),
            Heard::Unheard => Some(ConnectionEnd::Unlinked),
            Heard::Unsaid => Some(ConnectionEnd::Unlinked),
            Heard::MediaUnsaid => {
                clock.now();
                Some(ConnectionEnd::Unlinked)
            }
        }
    }
}
