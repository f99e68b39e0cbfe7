//! A book of flows: puts, looks, and the book made from its rows.
use crate::places::Places;
use disk_trait::Memory;
use flow_book::FlowBook;
use media_rows::{
    ApplyFault, BookFault, FlowBody, FlowFilter, FlowList, FormatKind, MemberList, SourceFilter,
    SourceList, TagList, TagTests,
};
use std::alloc::Global;

/// How many flows a source has.
const FLOWS_OF_A_SOURCE: u64 = 10;

/// A flow that has no member but its source and its format.
fn body(alloc: Global, id: u64) -> FlowBody {
    FlowBody {
        id: u128::from(id),
        source: u128::from(id / FLOWS_OF_A_SOURCE),
        format: FormatKind::Video,
        read_only: false,
        codec: None,
        container: None,
        label: None,
        description: None,
        max_bit_rate: None,
        avg_bit_rate: None,
        tags: TagList::new(alloc),
        members: MemberList::new(alloc),
        essence: None,
    }
}

/// Lets a book go.
fn let_go(book: FlowBook) {}

/// The book that a put made; one that is refused finds no memory.
fn taken(made: Result<FlowBook, BookFault>) -> Result<FlowBook, Memory> {
    match made {
        Ok(next) => Ok(next),
        Err(_) => Err(Memory),
    }
}

/// What a put of a flow makes of a book.
fn put(alloc: Global, book: &FlowBook, id: u64, now: u64) -> Result<FlowBook, BookFault> {
    let body = body(alloc, id);
    book.put_flow(alloc, &body, now)
}

/// The book with a flow put.
fn with_flow(alloc: Global, book: FlowBook, id: u64, now: u64) -> Result<FlowBook, Memory> {
    let made = put(alloc, &book, id, now);
    let_go(book);
    taken(made)
}

/// A book of so many flows.
fn book_of(alloc: Global, size: u64) -> Result<FlowBook, Memory> {
    let mut book = FlowBook::empty();
    for id in 0..size {
        book = with_flow(alloc, book, id, 0)?;
    }
    Ok(book)
}

/// How many flows a book has after puts of kept flows at random places.
pub(crate) fn puts(alloc: Global, size: u64, times: u64) -> Result<u64, Memory> {
    let mut book = book_of(alloc, size)?;
    let mut places = Places::new(size);
    let mut sum = 0_u64;
    for now in 0..times {
        book = with_flow(alloc, book, places.next(), now)?;
        sum = sum.wrapping_add(book.flow_count());
    }
    let_go(book);
    Ok(sum)
}

/// What looks at flows at random places add up to.
fn looked(book: &FlowBook, size: u64, times: u64) -> u64 {
    let mut places = Places::new(size);
    let mut sum = 0_u64;
    for _time in 0..times {
        if let Some(row) = book.flow(u128::from(places.next())) {
            sum = sum.wrapping_add(row.created).wrapping_add(1);
        }
    }
    sum
}

/// The sum of the moments of flows at random places, each made at moment 1.
pub(crate) fn looks(alloc: Global, size: u64, times: u64) -> Result<u64, Memory> {
    let book = book_of(alloc, size)?;
    let sum = looked(&book, size, times);
    let_go(book);
    Ok(sum)
}

/// All sources of a book.
fn sources_of(alloc: Global, book: &FlowBook) -> Result<SourceList, Memory> {
    let all = SourceFilter {
        format: None,
        label: None,
        tags: TagTests::new(alloc),
    };
    book.list_sources(alloc, &all, None)
}

/// All flows of a book.
fn flows_of(alloc: Global, book: &FlowBook) -> Result<FlowList, Memory> {
    let all = FlowFilter {
        source: None,
        format: None,
        codec: None,
        label: None,
        tags: TagTests::new(alloc),
    };
    book.list_flows(alloc, &all, None)
}

/// How many flows a book has that was made from rows; one that is refused has none.
fn count_of(made: Result<FlowBook, ApplyFault>) -> Result<u64, Memory> {
    match made {
        Ok(book) => Ok(book.flow_count()),
        Err(ApplyFault::Refused) => Ok(0),
        Err(ApplyFault::Memory) => Err(Memory),
    }
}

/// How many flows there are in books that are made from these rows.
fn remade(
    alloc: Global,
    sources: &SourceList,
    flows: &FlowList,
    times: u64,
) -> Result<u64, Memory> {
    let mut sum = 0_u64;
    for _time in 0..times {
        sum = sum.wrapping_add(count_of(FlowBook::from_rows(alloc, sources, flows))?);
    }
    Ok(sum)
}

/// How many flows there are in books that are made from the rows of one.
pub(crate) fn opened(alloc: Global, size: u64, times: u64) -> Result<u64, Memory> {
    let book = book_of(alloc, size)?;
    let sources = sources_of(alloc, &book);
    let flows = flows_of(alloc, &book);
    let_go(book);
    remade(alloc, &sources?, &flows?, times)
}
