//! What answers the requests of a connection.
ghost use Rattle.std.specs.Prelude.{◌≡◌, ◌≤◌, ◌<◌, ◌+◌, ◌-◌, ◌^◌, [], ℕ, List, Bool, true, None, Some, IsNone};
ghost use Rattle.disk_trait.specs.Device.{Device};
ghost use Rattle.run_history.specs.Machine.{Machine};
ghost use Rattle.run_history.specs.Sessions.{Session};
ghost use Rattle.run_history.specs.Steps.{Step};
ghost use Rattle.run_history.specs.Runs.{Beginning};
ghost use Rattle.run_history.specs.Serving.{Going};
ghost use Rattle.connection_loop.specs.Turns.{ClockCalls, SameImages, SiteCalls, TurnLeads, held_with, moments_taken};
ghost use Rattle.connection_loop.specs.Endings.{TellsAll};

use crate::{ConnectionEnd, RunTally};
use site_edge::{Clock, Site};
use std::alloc::Global;

/// A connection has at most so many answers: the last one ends it.
pub const MOST_ANSWERS: u64 = 1_000_000;

/// What answers requests: it keeps a state, in memory or on its device, and the bytes of the connection
/// under way that were heard and not yet taken.
pub trait Service {
    ghost State: { Type 0 };

    ghost Request: { Type 0 };

    /// What it was told at first, on which its answers depend: the base of addresses, say.
    ghost Setting: { Type 0 };

    ghost setting: { Self → Setting };

    /// What it answers to each request, and what changes with it.
    ghost machine: { Setting → Machine State Request };

    /// The bytes of the connection under way that were heard and not yet taken.
    ghost unread: { Self → List ℕ };

    /// The number of its requests.
    ghost taken: { Self → ℕ };

    /// What it keeps in memory of the state: all of it, or where the device has it, say.
    ghost Store: { Type 0 };

    ghost store: { Self → Store };

    /// Each image that a crash now may leave of this device gives what is kept, and with it this state.
    ghost keeps: { Store → Device → State → Type 0 };

    /// The bytes of the least device that it can serve on.
    ghost size: { Self → ℕ };

    /// At least the number of turns of the connection under way so far.
    ghost turns: { Self → ℕ };

    /// It may take a turn of the connection under way.
    ghost ready: { Self → Type 0 };

    /// That hangs on the images alone.
    ghost kept: { (kept : Store) (old new : Device) (s : State) → keeps kept old s
        → SameImages old new → keeps kept new s };

    /// Forgets what was heard of the last connection.
    fn begin(&mut self)
        ensures unread { unread self.new ≡ [] }
        ensures taken { taken self.new ≡ 0 }
        ensures store { store self.new ≡ store self.old }
        ensures size { size self.new ≡ size self.old }
        ensures setting { setting self.new ≡ setting self.old }
        ensures ready { ready self.new }
        ensures turns { turns self.new ≡ 0 };

    /// One turn of the connection under way: a request is answered, or more bytes are heard. Where it
    /// kept nothing, it may serve on less.
    fn take_turn<X: Site, C: Clock>(
        &mut self,
        alloc: Global,
        site: &mut X,
        clock: &mut C,
        tally: &mut RunTally,
    ) -> Option<ConnectionEnd>
        requires ready { ready self.old }
        requires few { taken self.old < MOST_ANSWERS }
        requires room { tally.old.answers < 2 ^ 60 }
        requires device { size self.old ≤ (X.device site.old).size }
        requires under_way { (X.device site.old).link.under_way ≡ true }
        ensures calls { SiteCalls result (X.device site.old) (X.device site.new) }
        ensures size { size self.new ≤ size self.old }
        ensures setting { setting self.new ≡ setting self.old }
        ensures ready { IsNone result → ready self.new }
        ensures clock { ClockCalls (moments_taken result (taken self.old) (taken self.new))
            (C.tells clock.old) (C.tells clock.new) (C.given clock.old) (C.given clock.new) }
        ensures few { IsNone result → taken self.new < MOST_ANSWERS }
        ensures taken { IsNone result → taken self.old ≤ taken self.new }
        ensures counted { IsNone result → tally.new.answers + taken self.old
            ≡ tally.old.answers + taken self.new }
        ensures counted_last { tally.new.answers ≤ tally.old.answers + 1 }
        ensures turns { IsNone result → turns self.old < turns self.new }
        ensures most { IsNone result → turns self.new < 2 ^ 64 - 1 }
        ensures goes { TellsAll (X.device site.old) (C.tells clock.new) → (b : Beginning State)
            → (finished : List (Session Request)) (steps : List (Step Request)) (s : State)
            → keeps (store self.old) (X.device site.old) s
            → Going (machine (setting self.old)) b (X.device site.old) (C.given clock.old)
            (held_with s (unread self.old) (taken self.old)) finished steps tally.old
            → TurnLeads (machine (setting self.old)) b (X.device site.new) (C.given clock.new)
            (unread self.new) (taken self.new) (keeps (store self.new) (X.device site.new)) finished
            tally.new result };
}
