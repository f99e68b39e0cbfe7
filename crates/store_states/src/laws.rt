//! Laws of states. Each function does nothing.
ghost use Rattle.store_states.specs.Held.{BytesHaveTheirLengths, ChangesFindBytes};
ghost use Rattle.store_states.specs.Worked.{BytesAsWorked, PlacesAsWorked, RowsAsWorked};
ghost use Rattle.store_states.specs.Laws.{ClearWritesLeaveBytes, EarlyWritesLeaveBytes, IsOneState, LibrariesAreGood, OldStatesHaveDigests, StatesAreGood};

/// An image of the file stands for one state at most, by a half of whatever form.
pub fn an_image_stands_for_one_state()
    ensures { IsOneState }
{}

/// A write in media blocks that no stored object has, or before all media blocks, leaves the bytes of all
/// objects.
pub fn writes_elsewhere_leave_bytes()
    ensures clear { ClearWritesLeaveBytes }
    ensures early { EarlyWritesLeaveBytes }
{}

/// The bytes of a good library's objects have their lengths in an image, and a change that is allowed finds
/// those of the next library there.
pub fn images_have_the_bytes()
    ensures lengths { BytesHaveTheirLengths }
    ensures next { ChangesFindBytes }
{}

/// The library of a half's rows and records is good, and so is each state for which an image stands. By a
/// half of form 1 it has the digests of its objects' bytes.
pub fn states_are_good()
    ensures library { LibrariesAreGood }
    ensures state { StatesAreGood }
    ensures digests { OldStatesHaveDigests }
{}

/// Places, bytes and rows of a small store, by hand.
pub fn states_as_worked()
    ensures places { PlacesAsWorked }
    ensures bytes { BytesAsWorked }
    ensures rows { RowsAsWorked }
{}
