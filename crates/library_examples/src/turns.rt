//! Steps of turns.
ghost use Rattle.library_examples.specs.WorkedTurns.{DeletesInSteps, RequestsInOrder, StepsGoByFirstPoint, SweepsInOrder, SweepsWhenDue, TurnsInOrder};

/// A range that covers 32 of 33 segments leaves one. A request for all of them takes two steps, of
/// which the first removes 32, and a segment that was posted after it stays.
pub fn deletes_in_steps()
    ensures { DeletesInSteps }
{}

/// A step removes the first segments by first point and not by serial, and its event has the hull
/// of those.
pub fn steps_go_by_first_point()
    ensures { StepsGoByFirstPoint }
{}

/// The request of least serial is worked off first. The last step of one that deletes its flow
/// removes the flow.
pub fn requests_in_order()
    ensures { RequestsInOrder }
{}

/// An object is due 86,400 seconds after it lost its last reference, and not one second earlier.
/// One that a segment names is never due. The block of a swept one is free again.
pub fn sweeps_when_due()
    ensures { SweepsWhenDue }
{}

/// The objects that are idle longest go first, and of those that are idle equally long the ones of
/// least serial; 16 go in one step.
pub fn sweeps_in_order()
    ensures { SweepsInOrder }
{}

/// A delete step comes before a sweep that is due too. Three turns work off 33 segments and the
/// object that they named, and then there is none.
pub fn turns_in_order()
    ensures { TurnsInOrder }
{}
