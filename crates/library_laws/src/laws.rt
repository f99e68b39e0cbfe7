//! Laws over all libraries, commands and changes.
ghost use Rattle.library_laws.specs.Laws.{AnswersApply, AnswersAreAllowed, BooksAreRestored, ChangesApply, ChangesKeepGood, CirclesAreFound, FirstBytesStay, GoodIsTested, PagesFollow, PagesHaveAll, PlacesAreLeast, RangeAnswerIsInOrder, RangeAnswerIsOnPoints, TurnsApply, TurnsAreBounded};

/// A command that is answered with a change is answered with one that the library allows.
pub fn answers_are_allowed()
    ensures { AnswersAreAllowed }
{}

/// Where a command with good values is answered with a change, the change applies, unless the
/// serials would end.
pub fn answers_apply()
    ensures { AnswersApply }
{}

/// The change of a turn applies, unless the serials would end.
pub fn turns_apply()
    ensures { TurnsApply }
{}

/// The place for an object is the least one that is free.
pub fn places_are_least()
    ensures { PlacesAreLeast }
{}

/// The bounded test finds exactly the flows that reach themselves through collections.
pub fn circles_are_found()
    ensures { CirclesAreFound }
{}

/// A change whose own values are good, and that a good library allows, leaves a good library.
pub fn changes_keep_good()
    ensures { ChangesKeepGood }
{}

/// Such a change applies.
pub fn changes_apply()
    ensures { ChangesApply }
{}

/// The one test of a good library holds exactly where its nine parts do.
pub fn good_is_tested()
    ensures { GoodIsTested }
{}

/// A delete step removes at most 32 segments, and a sweep at most 16 objects.
pub fn turns_are_bounded()
    ensures { TurnsAreBounded }
{}

/// A stored object keeps its id and its place, and so its first bytes, while it is kept.
pub fn first_bytes_stay()
    ensures { FirstBytesStay }
{}

/// The answer to a range has just the segments of the flow that have a point in it.
pub fn range_answer_is_on_points()
    ensures { RangeAnswerIsOnPoints }
{}

/// And it has them by rising first point.
pub fn range_answer_is_in_order()
    ensures { RangeAnswerIsInOrder }
{}

/// A page has at most as many segments as its limit, and all that are left where no next key comes.
pub fn pages_have_all()
    ensures { PagesHaveAll }
{}

/// Books are the same from rows in any order, and a good library's rows give its own books.
pub fn books_are_restored()
    ensures { BooksAreRestored }
{}

/// Pages of a good library follow one another without loss.
pub fn pages_follow()
    ensures { PagesFollow }
{}
