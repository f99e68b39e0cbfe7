//! What is refused, and in which order.
ghost use Rattle.library_examples.specs.WorkedRefusals.{BytesAreKeptOnce, CollectionsAreTested, CollectionsComeLast, DeletingStands, FlowsAreKept, IdsAreTaken, ListsAreRefused, MultiFits, OtherPartsAreOfFlows, PostsAreTested, ReadOnlyStands, RefusalsStandInOrder, SetPartsAreCleared, SourcesGo, UnsetPartsAreNamed};

/// Of several refusals that could stand the first in a command's order is answered: being deleted
/// before read-only, read-only before another format, another format before a missing member. The
/// mark of a read-only flow may be set.
pub fn refusals_stand_in_order()
    ensures { RefusalsStandInOrder }
{}

/// A flow that isn't kept takes no part, goes nowhere, and gets neither objects nor segments.
pub fn flows_are_kept()
    ensures { FlowsAreKept }
{}

/// A read-only flow isn't replaced, doesn't go, and gets and loses nothing but its mark. Its source
/// may change.
pub fn read_only_stands()
    ensures { ReadOnlyStands }
{}

/// What isn't set can't be cleared, and the refusal has the part's name.
pub fn unset_parts_are_named()
    ensures { UnsetPartsAreNamed }
{}

/// A source has a tag, a label and a description alone, so that no other part of it is set or
/// cleared.
pub fn other_parts_are_of_flows()
    ensures { OtherPartsAreOfFlows }
{}

/// What is set can be cleared, and what isn't set can be set.
pub fn set_parts_are_cleared()
    ensures { SetPartsAreCleared }
{}

/// Another format than the source's comes before a flow that is missing, and that before a flow
/// that collects itself, directly or through others.
pub fn collections_come_last()
    ensures { CollectionsComeLast }
{}

/// A flow has its source's format or is multi, and a source of multi flows has none of another
/// format.
pub fn multi_fits()
    ensures { MultiFits }
{}

/// A flow that an unfinished request deletes takes no change, before all else. A request for a
/// range alone, and one that is done, refuse nothing.
pub fn deleting_stands()
    ensures { DeletingStands }
{}

/// For each segment in order its object comes before its range. The range in a refusal is that of
/// the segment that begins first, be it posted later. Segments of other flows don't count, and
/// ranges may touch.
pub fn posts_are_tested()
    ensures { PostsAreTested }
{}

/// A list is refused by its flow, or as its first segment where none of them is kept. Its change is
/// allowed only where all of its segments are kept.
pub fn lists_are_refused()
    ensures { ListsAreRefused }
{}

/// The first id that is kept, or that stands earlier in the list, counts as taken, be the object
/// stored or not.
pub fn ids_are_taken()
    ensures { IdsAreTaken }
{}

/// Bytes are kept once, of an object that is allocated.
pub fn bytes_are_kept_once()
    ensures { BytesAreKeptOnce }
{}

/// Flows of one source share it, and it goes with the last of them.
pub fn sources_go()
    ensures { SourcesGo }
{}

/// A collected flow has to be kept. A flow that collects itself is refused, directly or through
/// another one. The entries of a flow that goes leave the collections of others, and other entries
/// stay.
pub fn collections_are_tested()
    ensures { CollectionsAreTested }
{}
