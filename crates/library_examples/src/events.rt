//! Events, and who hears of them.
ghost use Rattle.library_examples.specs.WorkedEvents.{EventsAreTold, FirstAreDelivered, HooksFail, TwoHooksHear};

/// A change of flows, sources or segments makes its events in order, with rising serials. An
/// allocation and a request to delete make none. A hook that keeps to some flows hears of sources
/// all the same.
pub fn events_are_told()
    ensures { EventsAreTold }
{}

/// Events come one by one, each to the hooks by rising serial. A hook's list of flows and its list
/// of sources both have to have a flow and its source; for an event of a source its list of sources
/// alone. Rows that come in the same change have their serials before. The event of a source that
/// goes is under the source's id.
pub fn two_hooks_hear()
    ensures { TwoHooksHear }
{}

/// The event that makes 1,000 waiting marks its hook as failed. From then on the hook takes none,
/// also of the same change, and none gets a serial.
pub fn hooks_fail()
    ensures { HooksFail }
{}

/// Only the first event that waits for its hook is delivered. It goes, all else stays, and nothing
/// happens.
pub fn first_are_delivered()
    ensures { FirstAreDelivered }
{}
