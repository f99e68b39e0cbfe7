//! Replies, and the change that each has.
ghost use Rattle.library_examples.specs.WorkedReplies.{BytesStandBeside, CutsCover, IdsAreMade, ListsAreAnswered, ManyAreAskedFor, MediaAreKept, PlacesAreFound, RepliesAreGiven};

/// A flow, a hook or segments that are new are created, and all else is done. What isn't there
/// isn't dropped, and a refusal changes nothing.
pub fn replies_are_given()
    ensures { RepliesAreGiven }
{}

/// Each segment of a list is kept or fails against the ones kept before it. Those that fail are named
/// in order, with the range of the kept segment that they overlap, and take no serial. Where all are
/// kept nothing is named. The same list again is refused as its first segment is.
pub fn lists_are_answered()
    ensures { ListsAreAnswered }
{}

/// 32 segments go at once, and more make a request, which is the reply: of the range, or of all
/// with the flow.
pub fn many_are_asked_for()
    ensures { ManyAreAskedFor }
{}

/// A cut removes what its range covers, and leaves what only overlaps it, and the segments of other
/// flows.
pub fn cuts_cover()
    ensures { CutsCover }
{}

/// An id that the store makes is its own id, a hyphen and the serial that the object gets. A client
/// may name none that begins so, but one that begins with another store's id.
pub fn ids_are_made()
    ensures { IdsAreMade }
{}

/// The first bytes of an object take the least free place, equal bytes change nothing, and others
/// are refused. An object without bytes is stored even where no block is free. Bytes are given where
/// they have the digest that is kept, if one is.
pub fn media_are_kept()
    ensures { MediaAreKept }
{}

/// A question is a command, bytes to keep, or bytes to give. A change leaves the bytes of the
/// objects that stay; those that come are of the object that it stores.
pub fn bytes_stand_beside()
    ensures { BytesStandBeside }
{}

/// The least place of so many free blocks, also between objects, and none where they don't fit.
pub fn places_are_found()
    ensures { PlacesAreFound }
{}
