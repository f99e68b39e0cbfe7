//! Rows of a snapshot, and books made from rows.
ghost use Rattle.library_examples.specs.WorkedRows.{DoneOnesStay, LibrariesAreMade, RowsAreKept, SnapshotsHaveAll};

/// The 64 done requests of highest serials are kept, and each unfinished one.
pub fn done_ones_stay()
    ensures { DoneOnesStay }
{}

/// A snapshot has its rows by kind, segments by flow and first point, and the next serial last.
pub fn snapshots_have_all()
    ensures { SnapshotsHaveAll }
{}

/// Rows make the library that they are of, each row at its place alone.
pub fn libraries_are_made()
    ensures { LibrariesAreMade }
{}

/// A book is the same from rows in another order, but refused where flows have no source.
pub fn rows_are_kept()
    ensures { RowsAreKept }
{}
