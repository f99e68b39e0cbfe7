//! The lines of a case file: words, each with the bytes that stand below it.
use crate::problem::{Fault, Problem};
use crate::word::{Word, word_of};
use disk_trait::Text;
use std::alloc::Global;

/// A line that begins with a word, the rest of it, and the bytes of the lines below.
#[derive(Drop)]
pub(crate) struct Entry<'a> {
    pub(crate) line: u64,
    pub(crate) word: Word,
    pub(crate) rest: &'a str,
    pub(crate) bytes: Text,
}

/// Reads the lines of a case file. Those that are empty or begin with `#` say nothing.
pub(crate) fn read_entries<'a>(alloc: Global, text: &'a str) -> Result<Vec<Entry<'a>>, Problem> {
    let mut entries = Vec::new(alloc);
    let mut line = 0u64;
    for content in text.lines() {
        line = line.saturating_add(1);
        read_line(alloc, line, content.trim_start(), &mut entries)?;
    }
    Ok(entries)
}

fn read_line<'a>(
    alloc: Global,
    line: u64,
    content: &'a str,
    above: &mut Vec<Entry<'a>>,
) -> Result<(), Problem> {
    match content.as_bytes() {
        [] | [b'#', ..] => Ok(()),
        [b'0'..=b'9' | b'|' | b'=' | b'@', ..] => {
            let piece = read_piece(alloc, line, content, above)?;
            add_bytes(above, line, &piece)
        }
        _ => {
            above.push(read_entry(alloc, line, content)?)?;
            Ok(())
        }
    }
}

fn read_entry<'a>(alloc: Global, line: u64, content: &'a str) -> Result<Entry<'a>, Problem> {
    let (word, rest) = content.split_once(' ').unwrap_or((content, ""));
    let word = word_of(word).ok_or(Fault::Word.at(line))?;
    Ok(Entry {
        line,
        word,
        rest,
        bytes: Text::new(alloc),
    })
}

/// Bytes, and how often they stand.
#[derive(Drop)]
struct Repeated {
    count: u64,
    bytes: Text,
}

/// Adds a piece to the last entry.
fn add_bytes(entries: &mut Vec<Entry<'_>>, line: u64, piece: &Repeated) -> Result<(), Problem> {
    let Some(last) = entries.last_mut() else {
        return Err(Fault::Bytes.at(line));
    };
    for _ in 0..piece.count {
        last.bytes.append(piece.bytes.bytes())?;
    }
    Ok(())
}

/// Reads a line of bytes: a count, where there is one, and bytes.
fn read_piece(
    alloc: Global,
    line: u64,
    content: &str,
    above: &[Entry<'_>],
) -> Result<Repeated, Problem> {
    let (count, content) = match content.split_once(' ') {
        Some((digits, rest)) if digits.bytes().all(|digit| digit.is_ascii_digit()) => {
            (read_number(line, digits)?, rest)
        }
        _ => (1, content),
    };
    let bytes = read_bytes(alloc, line, content, above)?;
    Ok(Repeated { count, bytes })
}

/// Reads `|` and text, `=` and hexadecimal digits, or `@` and a name.
fn read_bytes(
    alloc: Global,
    line: u64,
    content: &str,
    above: &[Entry<'_>],
) -> Result<Text, Problem> {
    if let Some(text) = content.strip_prefix("| ") {
        read_text(alloc, text)
    } else if let Some(digits) = content.strip_prefix("= ") {
        read_hexadecimal(alloc, line, digits)
    } else if let Some(name) = content.strip_prefix("@ ") {
        named(alloc, line, name, above)
    } else {
        Err(Fault::Bytes.at(line))
    }
}

/// Reads text as it stands. At its end `\n` is a line feed, and `\r\n` a carriage return before it.
fn read_text(alloc: Global, text: &str) -> Result<Text, Problem> {
    let (line, ending) = if let Some(line) = text.strip_suffix("\\r\\n") {
        (line, "\r\n")
    } else if let Some(line) = text.strip_suffix("\\n") {
        (line, "\n")
    } else {
        (text, "")
    };
    let mut bytes = Text::from_bytes(alloc, line.as_bytes())?;
    bytes.append(ending.as_bytes())?;
    Ok(bytes)
}

/// Reads bytes of two hexadecimal digits each, with blanks between.
fn read_hexadecimal(alloc: Global, line: u64, digits: &str) -> Result<Text, Problem> {
    let mut bytes = Text::new(alloc);
    for pair in digits.split_whitespace() {
        match u8::from_str_radix(pair, 16) {
            Ok(byte) if pair.len() == 2 => bytes.push(byte)?,
            _ => return Err(Fault::Hexadecimal.at(line)),
        }
    }
    Ok(bytes)
}

/// The bytes to which a line above gives this name.
fn named(alloc: Global, line: u64, name: &str, above: &[Entry<'_>]) -> Result<Text, Problem> {
    for entry in above {
        if matches!(entry.word, Word::Bytes) && entry.rest == name {
            return Ok(entry.bytes.copy(alloc)?);
        }
    }
    Err(Fault::Name.at(line))
}

/// Reads a number in decimal.
pub(crate) fn read_number(line: u64, digits: &str) -> Result<u64, Problem> {
    match digits.parse() {
        Ok(number) => Ok(number),
        Err(_) => Err(Fault::Number.at(line)),
    }
}
