//! A law of rows.
ghost use Rattle.core_rows.specs.Kinds.{KindsMakeTheLibrary};

/// Rows make the library that their kinds make.
pub fn kinds_make_the_library()
    ensures { KindsMakeTheLibrary }
{}
