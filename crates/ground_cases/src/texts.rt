//! Moments, ids and essence texts.
use crate::ranges::word;
use media_rows::{is_essence, is_object_id, moment_text, print_id, read_id};
use std::io;

/// The last moment, 9999-12-31T23:59:59Z.
const LAST: u64 = 253_402_300_799;

/// Prints the date of a moment, in seconds since 1970-01-01T00:00:00Z.
pub(crate) fn print_moment<R: Print + AllocGlobal>(rt: &R, number: &str) -> io::Result<()> {
    let moment = match number.parse::<u64>() {
        Ok(moment) if moment <= LAST => moment,
        _ => return println!(rt; "no moment"),
    };
    match moment_text(rt.alloc(), moment) {
        Ok(text) => println!(rt; "{}", word(text.bytes())),
        Err(_) => println!(rt; "no memory"),
    }
}

/// Prints an id with its hyphens.
pub(crate) fn print_id_read<R: Print + AllocGlobal>(rt: &R, text: &str) -> io::Result<()> {
    let Some(id) = read_id(text.as_bytes()) else {
        return println!(rt; "no id");
    };
    match print_id(rt.alloc(), id) {
        Ok(text) => println!(rt; "{}", word(text.bytes())),
        Err(_) => println!(rt; "no memory"),
    }
}

/// Prints whether a text is the id of an object.
pub(crate) fn print_object_id<R: Print>(rt: &R, text: &str) -> io::Result<()> {
    println!(rt; "{}", is_object_id(text.as_bytes()))
}

/// Prints whether a text is an essence text.
pub(crate) fn print_essence<R: Print + AllocGlobal>(rt: &R, text: &str) -> io::Result<()> {
    match is_essence(rt.alloc(), text.as_bytes()) {
        Ok(yes) => println!(rt; "{yes}"),
        Err(_) => println!(rt; "no memory"),
    }
}
