//! What `--help` and `--version` show, and what helps where words are no command: by the command line that
//! reads the words of a command.

use crate::outlets::Outlets;
use clap::error::ErrorKind;
use clap::{Arg, ArgMatches, Command};
use disk_trait::{Memory, Text, TextList};
use site_edge::{Aside, FileFailed};
use std::alloc::{AllocError, Global};
use std::fmt::Display;
use std::io::{Eprint, Print};
use std::str;
use tams_words::{Wanted, command_line, devices};

/// The program's name, before its commands in the lines of help.
const PROGRAM: &str = "tams";

/// What stands before the number of an error of the system.
const NUMBER: &str = " (os error ";

/// What stands behind the help of a word that breaks the rule of all words.
const RULE: &str = " (not empty, and without - at its beginning)";

/// Shows help or the version where one of the words asks for it, and says whether one did. Where standard output
/// may not be written to, it goes beside the notes. A fault of the stream changes nothing.
pub fn is_shown<R: Print + Eprint>(
    rt: &R,
    alloc: Global,
    words: &TextList,
    outlets: &Outlets,
) -> Result<bool, Memory> {
    let texts = texts_of(alloc, words)?;
    let error = match named_line(alloc)?.try_get_matches_from(texts.as_slice()) {
        Ok(_matches) => return Ok(false),
        Err(error) => error,
    };
    match error.kind() {
        ErrorKind::DisplayHelp | ErrorKind::DisplayVersion => {
            if outlets.has_output() {
                let _ = error.print(rt);
            } else {
                outlets.aside.put(&error);
            }
            Ok(true)
        }
        ErrorKind::OutOfMemory => Err(Memory),
        _ => Ok(false),
    }
}

/// Says of words that are no command which one is wrong, and what its form is, or how the command is used.
pub fn explain(alloc: Global, words: &TextList, aside: &Aside) -> Result<(), Memory> {
    if !aside.is_heard() {
        return Ok(());
    }
    let texts = texts_of(alloc, words)?;
    let matches = match named_line(alloc)?.try_get_matches_from(texts.as_slice()) {
        Ok(matches) => matches,
        Err(error) => {
            let text = format!(in alloc; "{error}")?;
            aside.put(text.as_str().trim_end());
            return Ok(());
        }
    };
    let Some((name, values)) = matches.subcommand() else {
        return Ok(());
    };
    match named_line(alloc)?.find_subcommand(name) {
        Some(command) => explain_values(alloc, command, values, aside),
        None => Ok(()),
    }
}

/// Says why a file or a port can't be had, in the system's words, without its number for them.
pub fn blame<W: Display + Drop>(alloc: Global, aside: &Aside, what: W, failed: FileFailed) {
    match format!(in alloc; "{failed}") {
        Ok(text) => {
            let words = text.as_str();
            let end = words.find(NUMBER).unwrap_or(words.len());
            let words = words.get(..end).unwrap_or(words);
            aside.put(format_args!("{PROGRAM}: {what}: {words}"));
        }
        Err(_) => aside.put(format_args!("{PROGRAM}: {what}: {failed}")),
    }
}

/// Says which word of a command is wrong. Where that can't be told, each of its words may be.
fn explain_values(
    alloc: Global,
    command: &Command<'_>,
    values: &ArgMatches<'_>,
    aside: &Aside,
) -> Result<(), Memory> {
    let arguments = command.get_arguments();
    for (place, argument) in arguments.iter().enumerate() {
        let tried = tried_words(alloc, command.get_name(), arguments, values, place)?;
        if matches!(devices(alloc, &tried)?, Wanted::Nothing) {
            explain_word(argument, value_of(values, argument), aside);
            if !is_workload(command) {
                break;
            }
        }
    }
    Ok(())
}

/// `workload` opens nothing, so what it would open doesn't tell which of its words are wrong.
fn is_workload(command: &Command<'_>) -> bool {
    command.get_name() == "workload"
}

/// The words of a command up to this place, and behind it words that are right.
fn tried_words(
    alloc: Global,
    name: &str,
    arguments: &[Arg<'_>],
    values: &ArgMatches<'_>,
    place: usize,
) -> Result<TextList, Memory> {
    let mut words = TextList::new(alloc);
    words.push(Text::from_bytes(alloc, name.as_bytes())?)?;
    for (at, argument) in arguments.iter().enumerate() {
        let word = if at <= place {
            value_of(values, argument)
        } else {
            right_word(argument.get_id())
        };
        words.push(Text::from_bytes(alloc, word.as_bytes())?)?;
    }
    Ok(words)
}

fn value_of<'a>(values: &ArgMatches<'a>, argument: &Arg<'_>) -> &'a str {
    values.get_str(argument.get_id()).unwrap_or("")
}

/// A word that has the form of this one, in each command.
fn right_word(id: &str) -> &'static str {
    match id {
        "BASE" => "http://s",
        "RANGE" => "_",
        "STORE_ID" | "FLOW" => "00000000-0000-4000-8000-000000000001",
        _ => "1",
    }
}

fn explain_word(argument: &Arg<'_>, word: &str, aside: &Aside) {
    let id = argument.get_id();
    let form = argument.get_help().unwrap_or("");
    let rule = if word.is_empty() || word.starts_with('-') {
        RULE
    } else {
        ""
    };
    aside.put(format_args!("{PROGRAM}: {id} '{word}': {form}{rule}"));
}

/// The command line, whose help names the program.
fn named_line<'a>(alloc: Global) -> Result<Command<'a>, AllocError> {
    command_line(alloc)?.bin_name(PROGRAM)
}

/// The words that are text.
fn texts_of(alloc: Global, words: &TextList) -> Result<Vec<&str>, Memory> {
    let mut texts = Vec::new(alloc);
    for word in words.items() {
        if let Ok(text) = str::from_utf8(word.bytes()) {
            texts.push(text)?;
        }
    }
    Ok(texts)
}
