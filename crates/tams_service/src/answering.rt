//! Answers behind the change of a request: the reply is said, and the turn behind it is made.
ghost use Rattle.std.specs.Prelude.{◌≡◌, ◌≤◌, ◌<◌, ◌+◌, ◌++◌, ◌^◌, true, length, IfSome, IsFalse, IsSome, IsTrue};
ghost use Rattle.media_rows.specs.Moments.{is_moment};
ghost use Rattle.media_store.specs.Pieces.{IsExtent};
ghost use Rattle.media_store.specs.Stores.{size_of};
ghost use Rattle.store_states.specs.States.{media_start};
ghost use Rattle.connection_loop.specs.Turns.{SiteCalls};
ghost use Rattle.tams_answers.specs.Answers.{following_bytes};
ghost use Rattle.tams_service.specs.Answering.{FinishLeads, TellsAllOf, changes_by, ending_behind};
ghost use Rattle.tams_service.specs.Serving.{needs_in};

use crate::TamsService;
use crate::saying::{AnswerTold, say_answer};
use connection_loop::{ConnectionEnd, RunTally};
use http_wire::Head;
use media_rows::Extent;
use media_store::{StoreFault, TurnMade};
use site_edge::Site;
use std::alloc::Global;
use tams_machine::turns_keep;

/// The head of a request, and the moment at which it is answered, in seconds since 1970-01-01T00:00:00Z.
#[derive(Clone, Copy)]
pub(crate) struct TimedHead {
    pub(crate) head: Head,
    pub(crate) moment: u64,
}

/// A reply that is to be said: its response, where the bytes of an object lie that follow it, how many changes of
/// the request were made before it, the moment of the request, and whether the connection ends behind the reply.
#[derive(Drop)]
pub(crate) struct DueReply<'a> {
    pub(crate) response: &'a [u8],
    pub(crate) media: Option<Extent>,
    pub(crate) changes: u64,
    pub(crate) moment: u64,
    pub(crate) ends: bool,
}

impl TamsService {
    /// Says a reply, and makes the turn behind it.
    pub(crate) fn finish<X: Site>(
        &mut self,
        alloc: Global,
        site: &mut X,
        tally: &mut RunTally,
        reply: &DueReply<'_>,
    ) -> Option<ConnectionEnd>
        requires unspent { IsFalse self.old.store.spent }
        requires device { size_of self.old.store.kept ≤ (X.device site.old).size }
        requires under_way { (X.device site.old).link.under_way ≡ true }
        requires media { IfSome reply.now.media (IsExtent self.old.store.kept.library) }
        requires few { reply.now.changes ≤ 1 }
        requires moment { IsTrue (is_moment reply.now.moment) }
        requires counts { tally.old.answers < 2 ^ 60 }
        ensures calls { SiteCalls result (X.device site.old) (X.device site.new) }
        ensures counted { tally.new.answers ≡ tally.old.answers + 1 }
        ensures ends { reply.now.ends ≡ true → IsSome result }
        ensures needs { needs_in self.new.store ≤ needs_in self.old.store }
        ensures fed { self.new.fed ≡ self.old.fed }
        ensures base { self.new.base ≡ self.old.base }
        ensures leads { TellsAllOf (X.device site.old)
            → IfSome reply.now.media (λ extent. 0 < length reply.now.response.now)
            → FinishLeads (X.device site.old)
            (X.device site.new) self.old.store self.new.store tally.old tally.new
            (reply.now.response.now
            ++ following_bytes (media_start self.old.store.kept.journal.half) reply.now.media
            (X.device site.old).seen) reply.now.changes reply.now.moment reply.now.ends result }
    {
        turns_keep();
        let room = self.room.as_mut_slice();
        let told = say_answer(&mut self.store, site, reply.response, reply.media, room);
        if told.is_failed() {
            tally.count(reply.changes);
            return Some(ConnectionEnd::Stopped);
        }
        match self.store.turn(alloc, site, reply.moment) {
            Ok(made) => {
                tally.count(reply.changes + changes_of(made));
                ending_behind(told, reply.ends)
            }
            Err(StoreFault::Memory) => {
                tally.count_skipped(reply.changes);
                ending_behind(told, reply.ends)
            }
            Err(StoreFault::Disk) => {
                tally.count(reply.changes + 1);
                Some(ConnectionEnd::Stopped)
            }
        }
    }
}

/// How many changes a turn made.
fn changes_of(made: TurnMade) -> u64
    ensures { result ≡ changes_by made }
{
    match made {
        TurnMade::Deleted | TurnMade::Swept => 1,
        TurnMade::Nothing | TurnMade::NoRoom => 0,
    }
}

/// How a reply that was said, or failed to be said, ends its connection, if it does.
fn ending_behind(told: AnswerTold, ends: bool) -> Option<ConnectionEnd>
    ensures { result ≡ ending_behind told ends }
{
    match told {
        AnswerTold::All if ends => Some(ConnectionEnd::Complete),
        AnswerTold::All => None,
        AnswerTold::Unlinked | AnswerTold::Failed => Some(ConnectionEnd::Unlinked),
    }
}
