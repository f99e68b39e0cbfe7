//! Reads values that stand as texts and as bytes, one a line of standard input, and prints what each is.
#![tactic(auto)]

mod bytes;
mod digits;
mod ranges;
mod texts;

use crate::bytes::{
    print_change, print_change_of_form_2, print_row, print_row_of_form_2, print_rows,
};
use crate::ranges::{print_pair, print_range_read, print_shift, print_timestamp};
use crate::texts::{print_essence, print_id_read, print_moment, print_object_id};
use std::io;

fn main(rt: HostRuntime) -> io::Result<()> {
    for line in rt.lines(rt.alloc()) {
        let line = line?;
        match line.as_str().split_once(' ') {
            None | Some(("#", _)) => println!(rt; "{line}")?,
            Some((word, rest)) => {
                print!(rt; "{line} -> ")?;
                print_answer(&rt, word, rest)?
            }
        }
    }
    Ok(())
}

/// Prints what the rest of a line is, by its first word.
fn print_answer<R: Print + AllocGlobal>(rt: &R, word: &str, rest: &str) -> io::Result<()> {
    match word {
        "timestamp" => print_timestamp(rt, rest),
        "range" => print_range_read(rt, rest),
        "overlap" | "cover" | "meet" => print_pair(rt, word, rest),
        "shift" => print_shift(rt, rest),
        "moment" => print_moment(rt, rest),
        "id" => print_id_read(rt, rest),
        "object" => print_object_id(rt, rest),
        "essence" => print_essence(rt, rest),
        "change" => print_change(rt, rest),
        "row" => print_row(rt, rest),
        "change-2" => print_change_of_form_2(rt, rest),
        "row-2" => print_row_of_form_2(rt, rest),
        "rows" => print_rows(rt, rest),
        _ => println!(rt; "no such word"),
    }
}
