//! Laws of a library's rows, of the table of refusals, and of keys.
ghost use Rattle.library_laws.specs.RowLaws.{EqualRowsAreOneLibrary, KeysGiveIds, RefusalsAreTabled, RowsGiveTheLibrary, RowsRise, SourcesHaveTheirParts};

/// A good library is the library of its rows.
pub fn rows_give_the_library()
    ensures { RowsGiveTheLibrary }
{}

/// The rows of a good library stand in their order.
pub fn rows_rise()
    ensures { RowsRise }
{}

/// Good libraries with equal rows are one.
pub fn equal_rows_are_one_library()
    ensures { EqualRowsAreOneLibrary }
{}

/// The key of a page by ids gives its id back.
pub fn keys_give_ids()
    ensures { KeysGiveIds }
{}

/// Only a tag, the label and the description of a source are set.
pub fn sources_have_their_parts()
    ensures { SourcesHaveTheirParts }
{}

/// The numbers, the statuses and the names of all refusals.
pub fn refusals_are_tabled()
    ensures { RefusalsAreTabled }
{}
