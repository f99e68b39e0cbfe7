//! What is shown: views, filters and pages.
ghost use Rattle.library_examples.specs.WorkedViews.{FlowPartsAreShown, FlowsAreListed, IdsInPages, PagesAreCut, SegmentsAreShown, SourcePartsAreShown, SourcesAreListed, ThingsAreShown, UnknownIsRefused};

/// What isn't kept is refused by its kind.
pub fn unknown_is_refused()
    ensures { UnknownIsRefused }
{}

/// A flow is shown with the hull of its own segments, an object with the flows that name it, each
/// once, and a hook with the number of events that wait for it.
pub fn things_are_shown()
    ensures { ThingsAreShown }
{}

/// Each part of a flow that is set is shown, and each that isn't is refused by its name. The mark
/// and the list of all tags are there always.
pub fn flow_parts_are_shown()
    ensures { FlowPartsAreShown }
{}

/// A source has tags, a label and a description alone.
pub fn source_parts_are_shown()
    ensures { SourcePartsAreShown }
{}

/// Sources are listed by format, by the whole label, and by each test on tags.
pub fn sources_are_listed()
    ensures { SourcesAreListed }
{}

/// Flows are listed by source, format, whole codec and whole label, by each test on tags, and by a
/// range in which a segment of theirs lies in part.
pub fn flows_are_listed()
    ensures { FlowsAreListed }
{}

/// Pages come by rising id, or by falling; the next key is the last item's, and is there where more
/// follow.
pub fn ids_in_pages()
    ensures { IdsInPages }
{}

/// Segments are shown by first point, those that overlap the range in part among them, and only
/// those that name the object where one is asked for.
pub fn segments_are_shown()
    ensures { SegmentsAreShown }
{}

/// Segments come by rising first point, or by falling. A page that isn't the last has the key of
/// the next one, and a segment that begins before the range is in it all the same. Never overlaps
/// none.
pub fn pages_are_cut()
    ensures { PagesAreCut }
{}
