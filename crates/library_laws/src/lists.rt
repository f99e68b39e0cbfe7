//! Laws of a post that is answered segment by segment.
ghost use Rattle.library_laws.specs.ListLaws.{ListsAreTold};

/// Each segment of a list is kept or fails by its own refusal behind the ones kept before it, and those
/// that are kept would be kept as a whole list.
pub fn lists_are_told()
    ensures { ListsAreTold }
{}
