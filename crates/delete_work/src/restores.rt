//! Books that are made from rows.
ghost use Rattle.std.specs.Prelude.{◌≡◌, map, not};
ghost use Rattle.media_rows.specs.Lists.{are_distinct, inserted};
ghost use Rattle.media_rows.specs.Refusals.{Restores};
ghost use Rattle.media_rows.specs.Restoring.{requests_of};
ghost use Rattle.delete_work.specs.Within.Keeping.{has_request, request_before, serial_of_row};

use crate::DeleteBook;
use media_rows::{ApplyFault, DeleteRow};
use std::alloc::Global;

/// The book of these requests, however many are done. The last one is put first.
pub(crate) fn gathered(alloc: Global, requests: &[DeleteRow]) -> Result<DeleteBook, ApplyFault>
    ensures { Restores (are_distinct (map serial_of_row requests.now))
        (requests_of requests.now) result }
{
    let mut book = DeleteBook::empty();
    for placed in 0..requests.len() {
        match with_request(alloc, &book, &requests[requests.len() - 1 - placed]) {
            Ok(next) => book = next,
            Err(fault) => return Err(fault),
        }
    }
    Ok(book)
}

/// The book with a request more, whose serial is new.
fn with_request(alloc: Global, book: &DeleteBook, row: &DeleteRow) -> Result<DeleteBook, ApplyFault>
    ensures { Restores (not (has_request row.now.serial book.now))
        (inserted request_before row.now book.now) result }
{
    book.is_in_order();
    if book.has(row.serial) {
        return Err(ApplyFault::Refused);
    }
    Ok(book.put(alloc, row)?)
}
