//! Changes and rows in bytes.
use crate::digits::bytes_of;
use crate::ranges::word;
use change_codec::{CodecFault, decode_change, decode_row, encode_change, encode_row};
use disk_trait::{FORM_IN_USE, Text, same_bytes};
use media_rows::{Change, Digest, ObjectState, Row, print_digest};
use snapshot_rows::{RowsFault, read_rows};
use std::alloc::Global;
use std::io;

/// The form in which stored objects have digests.
const FORM_2: u8 = 2;

/// Prints whether bytes are a change that is written as these bytes again, or where they are faulty.
pub(crate) fn print_change<R: Print + AllocGlobal>(rt: &R, digits: &str) -> io::Result<()> {
    match change_again(rt.alloc(), digits) {
        Ok(same) => println!(rt; "{}", if same { "the same" } else { "other bytes" }),
        Err(fault) => print_fault(rt, fault),
    }
}

fn change_again(alloc: Global, digits: &str) -> Result<bool, CodecFault> {
    let bytes = bytes_of(alloc, digits)?;
    let change = decode_change(alloc, bytes.bytes(), FORM_IN_USE)?;
    let text = encode_change(alloc, &change)?;
    Ok(same_bytes(text.bytes(), bytes.bytes()))
}

/// Prints how many bytes the row takes with which bytes begin, where it is written as these again, or where they
/// are faulty.
pub(crate) fn print_row<R: Print + AllocGlobal>(rt: &R, digits: &str) -> io::Result<()> {
    match row_again(rt.alloc(), digits) {
        Ok(Some(taken)) => println!(rt; "the same, {taken} bytes"),
        Ok(None) => println!(rt; "other bytes"),
        Err(fault) => print_fault(rt, fault),
    }
}

fn row_again(alloc: Global, digits: &str) -> Result<Option<u64>, CodecFault> {
    let bytes = bytes_of(alloc, digits)?;
    let (row, taken) = decode_row(alloc, bytes.bytes(), FORM_IN_USE)?;
    let mut text = Text::new(alloc);
    encode_row(alloc, &row, &mut text)?;
    let is_same = text.bytes().len() as u64 == taken && bytes.bytes().starts_with(text.bytes());
    Ok(if is_same { Some(taken) } else { None })
}

/// Prints what bytes are as a change of form 2: an object stored with its digest, an event delivered, another one, or where
/// they are faulty.
pub(crate) fn print_change_of_form_2<R: Print + AllocGlobal>(
    rt: &R,
    digits: &str,
) -> io::Result<()> {
    match change_of_form_2(rt.alloc(), digits) {
        Ok(
            Change::Store {
                digest: Some(digest),
                ..
            },
        ) => print_stored(rt, digest),
        Ok(Change::Delivered { event, .. }) => println!(rt; "delivered {event}"),
        Ok(_) => println!(rt; "another change"),
        Err(fault) => print_fault(rt, fault),
    }
}

fn change_of_form_2(alloc: Global, digits: &str) -> Result<Change, CodecFault> {
    let bytes = bytes_of(alloc, digits)?;
    decode_change(alloc, bytes.bytes(), FORM_2)
}

/// Prints with what row of form 2 bytes begin: an object stored with its digest, another one, or where they are faulty.
pub(crate) fn print_row_of_form_2<R: Print + AllocGlobal>(rt: &R, digits: &str) -> io::Result<()> {
    match row_of_form_2(rt.alloc(), digits) {
        Ok(Row::Object(row)) => match row.state {
            ObjectState::Stored {
                digest: Some(digest),
                ..
            } => print_stored(rt, digest),
            _ => println!(rt; "another row"),
        },
        Ok(_) => println!(rt; "another row"),
        Err(fault) => print_fault(rt, fault),
    }
}

fn row_of_form_2(alloc: Global, digits: &str) -> Result<Row, CodecFault> {
    let bytes = bytes_of(alloc, digits)?;
    let (row, _) = decode_row(alloc, bytes.bytes(), FORM_2)?;
    Ok(row)
}

fn print_stored<R: Print + AllocGlobal>(rt: &R, digest: Digest) -> io::Result<()> {
    match print_digest(rt.alloc(), digest) {
        Ok(text) => println!(rt; "stored {}", word(text.bytes())),
        Err(_) => println!(rt; "no memory"),
    }
}

fn print_fault<R: Print>(rt: &R, fault: CodecFault) -> io::Result<()> {
    match fault {
        CodecFault::Bad(at) => println!(rt; "bad at {at}"),
        CodecFault::Memory => println!(rt; "no memory"),
    }
}

/// Prints how many rows bytes are, or where they are damaged.
pub(crate) fn print_rows<R: Print + AllocGlobal>(rt: &R, digits: &str) -> io::Result<()> {
    match rows_in(rt.alloc(), digits) {
        Ok(count) => println!(rt; "{count} rows"),
        Err(RowsFault::Damaged(at)) => println!(rt; "damaged at {at}"),
        Err(RowsFault::Memory) => println!(rt; "no memory"),
    }
}

fn rows_in(alloc: Global, digits: &str) -> Result<usize, RowsFault> {
    let bytes = bytes_of(alloc, digits)?;
    Ok(read_rows(alloc, bytes.bytes(), FORM_IN_USE)?.items().len())
}
