//! Good libraries, and changes that apply.
ghost use Rattle.library_examples.specs.WorkedGood.{BadCollections, BadExtents, BadNames, BadOutboxes, BadReferences, BadRequests, BadSegments, BadSources, BadTexts, ChangesAreAllowed, ChangesAreSound, ChangesAreTested, CommandsAreGood, ExamplesAreGood};

/// The examples are good.
pub fn examples_are_good()
    ensures { ExamplesAreGood }
{}

/// Segments of one flow don't overlap, have both ends, and belong to a kept flow.
pub fn bad_segments()
    ensures { BadSegments }
{}

/// An object that a segment names is kept and stored.
pub fn bad_references()
    ensures { BadReferences }
{}

/// Extents lie apart and within the media blocks, and an object without bytes begins at block 0.
pub fn bad_extents()
    ensures { BadExtents }
{}

/// Ids and addresses are distinct, lists stand in their order, and serials are distinct, at least
/// 1, and below the next one, which has its limit.
pub fn bad_names()
    ensures { BadNames }
{}

/// Each flow has its source, of its format unless it is multi, and each source a flow.
pub fn bad_sources()
    ensures { BadSources }
{}

/// Collected flows are kept, and none reaches itself.
pub fn bad_collections()
    ensures { BadCollections }
{}

/// An unfinished request's flow is kept; one that deletes its flow is for all of the line, and
/// behind each of the flow's segments. 64 requests are done at most.
pub fn bad_requests()
    ensures { BadRequests }
{}

/// Each event's hook is kept, 1,000 events wait for a hook at most, and then it has failed.
pub fn bad_outboxes()
    ensures { BadOutboxes }
{}

/// Texts are UTF-8, object ids and essence texts have their form, and moments lie in their range.
pub fn bad_texts()
    ensures { BadTexts }
{}

/// A change is refused where its moment is no moment, where there is nothing to do, where an object
/// is stored or a block is taken, where too many or too few segments would go, and where the next
/// library wouldn't be good.
pub fn changes_are_tested()
    ensures { ChangesAreTested }
{}

/// A change is allowed where the refusals of its command don't stand, and its own size is right. An
/// id that the store itself made is taken only where it is kept.
pub fn changes_are_allowed()
    ensures { ChangesAreAllowed }
{}

/// A command brings good texts, ranges and ids. Bytes come to the least free place for them, of an
/// object that isn't stored.
pub fn commands_are_good()
    ensures { CommandsAreGood }
{}

/// A change brings the same, but for the place, which is tested with what is allowed. A request
/// that deletes its flow has all of the line, and the serials don't end.
pub fn changes_are_sound()
    ensures { ChangesAreSound }
{}
