//! Laws of what each change needs and leaves, and of what its reply says.
ghost use Rattle.library_laws.specs.ChangeLaws.{AppliedIsSound, AppliesIsTested, NothingPosted, RepliesTell, SerialsEnd, StoreStays, StoredStay};

/// A change that applies was allowed, is sound, and gives what it makes of the library.
pub fn applied_is_sound()
    ensures { AppliedIsSound }
{}

/// On a good library a change applies exactly where it is allowed and sound: the next library needn't
/// be tested.
pub fn applies_is_tested()
    ensures { AppliesIsTested }
{}

/// An object that is stored after a change was stored before with its id and place, or the change
/// stores it.
pub fn stored_stay()
    ensures { StoredStay }
{}

/// A change leaves the store's id and the number of its media blocks.
pub fn store_stays()
    ensures { StoreStays }
{}

/// Where there are no hooks, what happened leaves a library as it is.
pub fn nothing_posted()
    ensures { NothingPosted }
{}

/// A good library's next serial hasn't passed the last one.
pub fn serials_end()
    ensures { SerialsEnd }
{}

/// The delete request or the objects that a reply names are what its change adds.
pub fn replies_tell()
    ensures { RepliesTell }
{}
