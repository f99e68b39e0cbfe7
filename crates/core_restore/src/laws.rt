//! Laws of rows that pass the test. Nothing here runs.
ghost use Rattle.core_restore.specs.Restored.{PassingRowsAreOfALibrary, RowsOfALibraryPass};

use core_rows::kinds_make_the_library;
use library_laws::{rows_give_the_library, rows_rise};

/// Rows pass the test exactly where they are those of a good library.
pub fn rows_of_libraries_pass()
    ensures passing { PassingRowsAreOfALibrary }
    ensures all { RowsOfALibraryPass }
{
    kinds_make_the_library();
    rows_give_the_library();
    rows_rise();
}
