//! Timestamps and time ranges.
use std::alloc::Global;
use std::{io, str};
use time_range::{Memory, RangeFault, TimeRange, Ts, print_range, print_ts, read_range, read_ts};

/// Prints the nanoseconds of a timestamp and its text, or the fault of a text that is none.
pub(crate) fn print_timestamp<R: Print + AllocGlobal>(rt: &R, text: &str) -> io::Result<()> {
    match read_ts(text.as_bytes()) {
        Ok(t) => match timestamp_text(rt.alloc(), t) {
            Ok(printed) => println!(rt; "{} {}", t.nanos(), word(printed.as_slice())),
            Err(Memory) => println!(rt; "no memory"),
        },
        Err(fault) => print_fault(rt, fault),
    }
}

/// Prints the text of a range, or the fault of a text that is none.
pub(crate) fn print_range_read<R: Print + AllocGlobal>(rt: &R, text: &str) -> io::Result<()> {
    match read_range(text.as_bytes()) {
        Ok(range) => print_text(rt, &range),
        Err(fault) => print_fault(rt, fault),
    }
}

/// Prints the place or the kind of a fault.
fn print_fault<R: Print>(rt: &R, fault: RangeFault) -> io::Result<()> {
    match fault {
        RangeFault::Spelling(at) => println!(rt; "bad at {at}"),
        RangeFault::TooLarge => println!(rt; "too large"),
    }
}

/// A range by its text, and never where the text is none.
fn range(text: &str) -> TimeRange {
    read_range(text.as_bytes()).unwrap_or(TimeRange::never())
}

/// Prints whether one range overlaps or covers another, or the range of the points of both.
pub(crate) fn print_pair<R: Print + AllocGlobal>(
    rt: &R,
    what: &str,
    texts: &str,
) -> io::Result<()> {
    let (first, second) = texts.split_once(' ').unwrap_or((texts, ""));
    let (first, second) = (range(first), range(second));
    match what {
        "overlap" => println!(rt; "{}", first.overlaps(&second)),
        "cover" => println!(rt; "{}", first.covers(&second)),
        _ => print_text(rt, &first.meet(&second)),
    }
}

/// Prints a range that is shifted by a number of nanoseconds, where it stays within the limits.
pub(crate) fn print_shift<R: Print + AllocGlobal>(rt: &R, texts: &str) -> io::Result<()> {
    let (text, number) = texts.split_once(' ').unwrap_or((texts, ""));
    let Ok(nanos) = number.parse::<i128>() else {
        return println!(rt; "no number");
    };
    let Some(by) = Ts::from_nanos(nanos) else {
        return println!(rt; "no timestamp");
    };
    match range(text).shift(by) {
        Some(moved) => print_text(rt, &moved),
        None => println!(rt; "past the limit"),
    }
}

/// Prints the text of a range.
fn print_text<R: Print + AllocGlobal>(rt: &R, range: &TimeRange) -> io::Result<()> {
    match range_text(rt.alloc(), range) {
        Ok(printed) => println!(rt; "{}", word(printed.as_slice())),
        Err(Memory) => println!(rt; "no memory"),
    }
}

fn range_text(alloc: Global, range: &TimeRange) -> Result<Vec<u8>, Memory> {
    let mut out = Vec::new(alloc);
    print_range(range, &mut out)?;
    Ok(out)
}

fn timestamp_text(alloc: Global, t: Ts) -> Result<Vec<u8>, Memory> {
    let mut out = Vec::new(alloc);
    print_ts(t, &mut out)?;
    Ok(out)
}

/// Bytes as text.
pub(crate) fn word(bytes: &[u8]) -> &str {
    str::from_utf8(bytes).unwrap_or("no text")
}
