//! A book of media objects: each call, at random places.
ghost use Rattle.std.specs.Prelude.{◌+◌, IfOk, IsTrue};
ghost use Rattle.object_refs.specs.References.{are_below, references_in, refers};

use crate::places::Places;
use disk_trait::{Memory, Text};
use media_rows::{Extent, ObjectRow};
use object_refs::ObjectBook;
use std::alloc::Global;

/// The flow that refers to objects.
const FLOW: u128 = 7;

/// A moment at which each object that nothing refers to is due.
const LATE: u64 = 1_000_000;

/// A call on a book whose objects have no bytes yet.
#[derive(Clone, Copy)]
pub(crate) enum BookCall {
    Allocate,
    MarkStored,
    FirstIdle,
    Find,
}

/// A call on a book whose objects have bytes.
#[derive(Clone, Copy)]
pub(crate) enum ReferenceCall {
    Refer,
    Unrefer,
}

/// The id of an object: its number in eight bytes.
fn id_of(alloc: Global, number: u64) -> Result<Text, Memory> {
    Text::from_bytes(alloc, &number.to_le_bytes())
}

/// The book with an object more; one that is refused finds no memory.
fn allocated(alloc: Global, book: &ObjectBook, id: &Text, serial: u64) -> Result<ObjectBook, Memory>
    requires { IsTrue (are_below serial book.now.kept) }
    ensures { IfOk result (λ next. IsTrue (are_below (serial + 1) next.kept)) }
{
    match book.allocate(alloc, id, serial, 0) {
        Ok(next) => Ok(next),
        Err(_) => Err(Memory),
    }
}

/// The book with an object's bytes; one that is refused finds no memory.
fn stored(alloc: Global, book: &ObjectBook, id: &Text) -> Result<ObjectBook, Memory> {
    let extent = Extent {
        start: 0,
        length: 1,
    };
    match book.mark_stored(alloc, id, extent, None, 0) {
        Ok(next) => Ok(next),
        Err(_) => Err(Memory),
    }
}

/// The book with a reference to an object; one that is refused finds no memory.
fn referred(alloc: Global, book: &ObjectBook, id: &Text, flow: u128) -> Result<ObjectBook, Memory>
    ensures { IfOk result (λ next. IsTrue (refers (references_in next.kept) id.now flow)) }
{
    match book.refer(alloc, id, flow) {
        Ok(next) => Ok(next),
        Err(_) => Err(Memory),
    }
}

/// Lets a book go.
fn let_go(book: ObjectBook) {}

/// The book with the object of the next serial.
fn with_next(alloc: Global, book: ObjectBook, serial: u64) -> Result<ObjectBook, Memory>
    requires { IsTrue (are_below serial book.kept) }
    ensures { IfOk result (λ next. IsTrue (are_below (serial + 1) next.kept)) }
{
    let made = match id_of(alloc, serial) {
        Ok(id) => allocated(alloc, &book, &id, serial),
        Err(Memory) => Err(Memory),
    };
    let_go(book);
    made
}

/// A book of so many objects, which have no bytes yet.
fn bare_book(alloc: Global, size: u64) -> Result<ObjectBook, Memory>
    ensures { IfOk result (λ book. IsTrue (are_below size book.kept)) }
{
    let mut book = ObjectBook::empty();
    for serial in 0..size {
        book = with_next(alloc, book, serial)?;
    }
    Ok(book)
}

/// The book with the bytes of an object.
fn with_bytes(alloc: Global, book: ObjectBook, number: u64) -> Result<ObjectBook, Memory> {
    let made = match id_of(alloc, number) {
        Ok(id) => stored(alloc, &book, &id),
        Err(Memory) => Err(Memory),
    };
    let_go(book);
    made
}

/// The book with the bytes of each of so many objects.
fn stored_book(alloc: Global, size: u64) -> Result<ObjectBook, Memory> {
    let mut book = bare_book(alloc, size)?;
    for number in 0..size {
        book = with_bytes(alloc, book, number)?;
    }
    Ok(book)
}

/// The serial of a row, and one more; 0 for none.
fn serial_of(row: Option<&ObjectRow>) -> u64 {
    match row {
        Some(row) => row.serial.wrapping_add(1),
        None => 0,
    }
}

/// How many objects there are beside a new one, whose id is of its own.
fn after_allocate(alloc: Global, book: &ObjectBook, size: u64, place: u64) -> Result<u64, Memory>
    requires { IsTrue (are_below size book.now.kept) }
{
    let id = id_of(alloc, size.wrapping_add(place))?;
    Ok(allocated(alloc, book, &id, size)?.object_count())
}

/// How many objects there are once one has its bytes.
fn after_mark_stored(alloc: Global, book: &ObjectBook, place: u64) -> Result<u64, Memory> {
    let id = id_of(alloc, place)?;
    Ok(stored(alloc, book, &id)?.object_count())
}

/// What a look at an object gives.
fn look(alloc: Global, book: &ObjectBook, place: u64) -> Result<u64, Memory> {
    let id = id_of(alloc, place)?;
    Ok(serial_of(book.find(&id)))
}

/// What a call gives.
fn answer(
    alloc: Global,
    call: BookCall,
    book: &ObjectBook,
    size: u64,
    place: u64,
) -> Result<u64, Memory>
    requires { IsTrue (are_below size book.now.kept) }
{
    match call {
        BookCall::Allocate => after_allocate(alloc, book, size, place),
        BookCall::MarkStored => after_mark_stored(alloc, book, place),
        BookCall::FirstIdle => Ok(serial_of(book.first_idle(LATE))),
        BookCall::Find => look(alloc, book, place),
    }
}

/// What the answers of calls on one book add up to.
pub(crate) fn calls(alloc: Global, call: BookCall, size: u64, times: u64) -> Result<u64, Memory> {
    let book = bare_book(alloc, size)?;
    let mut places = Places::new(size);
    let mut sum = 0_u64;
    for _time in 0..times {
        sum = sum.wrapping_add(answer(alloc, call, &book, size, places.next())?);
    }
    Ok(sum)
}

/// How many objects there are once one has a reference, or once it went back.
fn after_reference(
    alloc: Global,
    call: ReferenceCall,
    book: &ObjectBook,
    id: &Text,
) -> Result<u64, Memory> {
    let more = referred(alloc, book, id, FLOW)?;
    match call {
        ReferenceCall::Refer => Ok(more.object_count()),
        ReferenceCall::Unrefer => Ok(more.unrefer(alloc, id, FLOW, 1)?.object_count()),
    }
}

/// What the answers of references to objects of one book add up to.
pub(crate) fn references(
    alloc: Global,
    call: ReferenceCall,
    size: u64,
    times: u64,
) -> Result<u64, Memory> {
    let book = stored_book(alloc, size)?;
    let mut places = Places::new(size);
    let mut sum = 0_u64;
    for _time in 0..times {
        let id = id_of(alloc, places.next())?;
        sum = sum.wrapping_add(after_reference(alloc, call, &book, &id)?);
    }
    Ok(sum)
}
