//! The words of the command line, which `clap` reads, and what the program opens for them.
ghost use Rattle.std.specs.Prelude.{◌≡◌, ◌∷◌, [], ◌↔◌, ℕ, All, codes, map};
ghost use Rattle.std.specs.Prelude.{true, IfOk, IfSome, IsNone, IsSome, IsTrue};
ghost use Rattle.clap.specs.Words.{found_of, rows_of, subcommand_of, subcommand_rows_of, takes};
ghost use Rattle.tams_words.specs.Commands.{IsNamed, tams_app, command_word, word_value, words_of};
ghost use Rattle.tams_words.specs.Words.{IsPlainWord, IsNumber, IsNumberOrZero, IsBaseByte, HasScheme, IsBase, FormIs, IsCommand, WantedFor};
ghost use Rattle.tams_words.specs.declared.words.Invocation.{Invocation};
ghost use Rattle.tams_words.specs.declared.commands.CommandName.{CommandName};

use crate::commands::{CommandName, command_line};
use clap::ArgMatches;
use clap::error::ErrorKind;
use disk_trait::{Memory, Text, TextList, same_bytes};
use media_rows::read_id;
use std::alloc::Global;
use std::str;
use time_range::{TimeRange, read_range};

/// Bytes of the shortest address, and of the longest.
const LEAST_BASE: usize = 8;

const MOST_BASE: usize = 200;

/// The last port.
const LAST_PORT: u64 = 65_535;

/// Bytes of a block of the store's file.
pub const BLOCK: u64 = 4096;

/// The most blocks of a store, and of each half of its journal. Like the other bounds below they are those of
/// the crate that the command calls, which the top ties to them.
pub const MOST_BLOCKS: u64 = 1_073_741_824;

pub const MOST_HALF: u64 = 65_536;

/// The most connections of a run.
pub const MOST_CONNECTIONS: u64 = 1_000_000_000;

/// The greatest number that requests are generated from, and how many objects they put at most.
pub const MOST_NUMBER: u64 = 1_000_000;

pub const MOST_COUNT: u64 = 1_000;

/// A command, with what its words say.
#[derive(Drop)]
pub enum Invocation {
    /// Makes an empty store of so many blocks, of which each half has so many, under an id.
    Format {
        path: Text,
        blocks: u64,
        half: u64,
        id: u128,
    },
    /// Reads the objects of a store, and counts what it keeps.
    Check {
        path: Text,
    },
    /// Moves a store of form 1 to the form in use, in place.
    Migrate {
        path: Text,
    },
    /// Makes turns until one changes nothing.
    Work {
        path: Text,
    },
    /// Sends the waiting events of each hook, in their order, until one isn't accepted.
    Deliver {
        path: Text,
    },
    /// Serves one connection, on standard input and output.
    Replay {
        path: Text,
        base: Text,
    },
    /// Serves so many connections, one after another, on a port of this machine.
    Serve {
        path: Text,
        port: u16,
        base: Text,
        connections: u64,
    },
    /// Says the playlist of a flow's whole objects within a range, behind a base of their addresses.
    Manifest {
        path: Text,
        base: Text,
        flow: u128,
        range: TimeRange,
    },
    /// Serves one connection with requests that are generated from two numbers, over a store in memory.
    Workload {
        number: u64,
        count: u64,
    },
}

/// What the program opens for its words.
#[derive(Drop)]
pub enum Wanted {
    /// Nothing, as the words are no command, or one that needs no file.
    Nothing,
    /// The file at this path.
    Plain(Text),
    /// The file at this path, with this length in bytes at least.
    Fresh(Text, u64),
    /// The file at this path, and a listener on this port.
    Listen(Text, u16),
    /// The file at this path, and connections that the program begins itself.
    Dial(Text),
}

/// What the program has to open before it runs these words.
pub fn devices(alloc: Global, words: &TextList) -> Result<Wanted, Memory>
    ensures { IfOk result (WantedFor words.now) }
{
    match read_words(alloc, words)? {
        Some(Invocation::Format { path, blocks, .. }) => Ok(Wanted::Fresh(path, BLOCK * blocks)),
        Some(Invocation::Check { path }) => Ok(Wanted::Plain(path)),
        Some(Invocation::Migrate { path }) => Ok(Wanted::Plain(path)),
        Some(Invocation::Work { path }) => Ok(Wanted::Plain(path)),
        Some(Invocation::Deliver { path }) => Ok(Wanted::Dial(path)),
        Some(Invocation::Replay { path, .. }) => Ok(Wanted::Plain(path)),
        Some(Invocation::Serve { path, port, .. }) => Ok(Wanted::Listen(path, port)),
        Some(Invocation::Manifest { path, .. }) => Ok(Wanted::Plain(path)),
        Some(Invocation::Workload { .. }) | None => Ok(Wanted::Nothing),
    }
}

/// The command that these words spell, if they are in the command set.
pub fn read_words(alloc: Global, words: &TextList) -> Result<Option<Invocation>, Memory>
    ensures found { IfOk result (λ c. IfSome c (IsCommand words.now)) }
    ensures none { IfOk result
        (λ c. IsNone c → (command : Invocation) → IsCommand words.now command → ⊥) }
{
    let Some(texts) = plain_texts(alloc, words.items())? else {
        return Ok(None);
    };
    read_texts(alloc, texts.as_slice())
}

/// The command that plain words spell.
fn read_texts(alloc: Global, words: &[&str]) -> Result<Option<Invocation>, Memory>
    requires plain { All IsPlainWord (map (λ w. w.now) words.now) }
    ensures { IfOk result (FormIs (map (λ w. w.now) words.now)) }
{
    let Some(name) = read_name(words) else {
        return Ok(None);
    };
    let Some(matches) = read_matches(alloc, words)? else {
        return Ok(None);
    };
    if words.len() != name.count() {
        return Ok(None);
    }
    let Some((_, values)) = matches.subcommand() else {
        return Ok(None);
    };
    read_values(alloc, name, values)
}

/// The command that the first word names.
fn read_name(words: &[&str]) -> Option<CommandName>
    ensures found { IfSome result (IsNamed (map (λ w. w.now) words.now)) }
    ensures none { IsNone result
        → (name : CommandName) → IsNamed (map (λ w. w.now) words.now) name → ⊥ }
{
    match words.first() {
        Some(word) => CommandName::read(word),
        None => None,
    }
}

/// What `clap` reads of these words, if it takes them.
fn read_matches<'a>(alloc: Global, words: &'a [&'a str]) -> Result<Option<ArgMatches<'a>>, Memory>
    ensures found { IfOk result (λ read. IfSome read (λ matches. subcommand_rows_of matches
        ≡ subcommand_of tams_app (map (λ w. w.now) words.now))) }
    ensures none { IfOk result (λ read. IsNone read
        → takes tams_app (map (λ w. w.now) words.now) ≡ true → ⊥) }
{
    match command_line(alloc)?.try_get_matches_from(words) {
        Ok(matches) => Ok(Some(matches)),
        Err(error) => match error.kind() {
            ErrorKind::OutOfMemory => Err(Memory),
            _ => Ok(None),
        },
    }
}

/// The command of this name that the values of its words spell by their forms.
fn read_values(
    alloc: Global,
    name: CommandName,
    values: &ArgMatches<'_>,
) -> Result<Option<Invocation>, Memory>
    ensures { IfOk result (FormIs (command_word name
        ∷ map (word_value (rows_of (found_of values.now))) (words_of name))) }
{
    match name {
        CommandName::Format => {
            let path = value(values, "PATH");
            let blocks = value(values, "BLOCKS");
            let half = value(values, "HALF");
            read_format(alloc, path, blocks, half, value(values, "STORE_ID"))
        }
        CommandName::Check => Ok(Some(Invocation::Check {
            path: text(alloc, value(values, "PATH"))?,
        })),
        CommandName::Migrate => Ok(Some(Invocation::Migrate {
            path: text(alloc, value(values, "PATH"))?,
        })),
        CommandName::Work => Ok(Some(Invocation::Work {
            path: text(alloc, value(values, "PATH"))?,
        })),
        CommandName::Deliver => Ok(Some(Invocation::Deliver {
            path: text(alloc, value(values, "PATH"))?,
        })),
        CommandName::Replay => read_replay(alloc, value(values, "PATH"), value(values, "BASE")),
        CommandName::Serve => {
            let path = value(values, "PATH");
            let port = value(values, "PORT");
            let base = value(values, "BASE");
            read_serve(alloc, path, port, base, value(values, "CONNECTIONS"))
        }
        CommandName::Manifest => {
            let path = value(values, "PATH");
            let base = value(values, "BASE");
            let flow = value(values, "FLOW");
            read_manifest(alloc, path, base, flow, value(values, "RANGE"))
        }
        CommandName::Workload => {
            Ok(read_workload(value(values, "NUMBER"), value(values, "COUNT")))
        }
    }
}

/// What was matched to this word of a command, and an empty text where nothing was.
fn value<'a>(values: &ArgMatches<'a>, id: &str) -> &'a str
    ensures { result.now ≡ word_value (rows_of (found_of values.now)) id.now }
{
    match values.get_str(id) {
        Some(text) => text,
        None => "",
    }
}

fn text(alloc: Global, word: &str) -> Result<Text, Memory>
    ensures { IfOk result (λ text. text ≡ word.now) }
{
    Text::from_bytes(alloc, word.as_bytes())
}

/// The command that the four words behind `format` spell by their forms.
fn read_format(
    alloc: Global,
    path: &str,
    blocks: &str,
    half: &str,
    id: &str,
) -> Result<Option<Invocation>, Memory>
    ensures { IfOk result
        (FormIs (codes "format" ∷ path.now ∷ blocks.now ∷ half.now ∷ id.now ∷ [])) }
{
    let Some(blocks) = read_number(blocks.as_bytes(), MOST_BLOCKS) else {
        return Ok(None);
    };
    let Some(half) = read_number(half.as_bytes(), MOST_HALF) else {
        return Ok(None);
    };
    let Some(id) = read_id(id.as_bytes()) else {
        return Ok(None);
    };
    let path = text(alloc, path)?;
    Ok(Some(Invocation::Format {
        path,
        blocks,
        half,
        id,
    }))
}

/// The command that the four words behind `serve` spell by their forms.
fn read_serve(
    alloc: Global,
    path: &str,
    port: &str,
    base: &str,
    connections: &str,
) -> Result<Option<Invocation>, Memory>
    ensures { IfOk result
        (FormIs (codes "serve" ∷ path.now ∷ port.now ∷ base.now ∷ connections.now ∷ [])) }
{
    let Some(port) = read_number(port.as_bytes(), LAST_PORT) else {
        return Ok(None);
    };
    let Some(connections) = read_number(connections.as_bytes(), MOST_CONNECTIONS) else {
        return Ok(None);
    };
    if !is_base(base.as_bytes()) {
        return Ok(None);
    }
    Ok(Some(Invocation::Serve {
        path: text(alloc, path)?,
        port: port as u16,
        base: text(alloc, base)?,
        connections,
    }))
}

/// The command that the two words behind `replay` spell by their forms.
fn read_replay(alloc: Global, path: &str, base: &str) -> Result<Option<Invocation>, Memory>
    ensures { IfOk result (FormIs (codes "replay" ∷ path.now ∷ base.now ∷ [])) }
{
    if !is_base(base.as_bytes()) {
        return Ok(None);
    }
    Ok(Some(Invocation::Replay {
        path: text(alloc, path)?,
        base: text(alloc, base)?,
    }))
}

/// The command that the four words behind `manifest` spell by their forms.
fn read_manifest(
    alloc: Global,
    path: &str,
    base: &str,
    flow: &str,
    range: &str,
) -> Result<Option<Invocation>, Memory>
    ensures { IfOk result
        (FormIs (codes "manifest" ∷ path.now ∷ base.now ∷ flow.now ∷ range.now ∷ [])) }
{
    let Some(flow) = read_id(flow.as_bytes()) else {
        return Ok(None);
    };
    let Ok(range) = read_range(range.as_bytes()) else {
        return Ok(None);
    };
    if !is_base(base.as_bytes()) {
        return Ok(None);
    }
    Ok(Some(Invocation::Manifest {
        path: text(alloc, path)?,
        base: text(alloc, base)?,
        flow,
        range,
    }))
}

/// The command that the two words behind `workload` spell by their forms.
fn read_workload(number: &str, count: &str) -> Option<Invocation>
    ensures { FormIs (codes "workload" ∷ number.now ∷ count.now ∷ []) result }
{
    let Some(number) = read_number_or_zero(number.as_bytes(), MOST_NUMBER) else {
        return None;
    };
    let Some(count) = read_number(count.as_bytes(), MOST_COUNT) else {
        return None;
    };
    Some(Invocation::Workload { number, count })
}

/// The words as texts, if each is one that is not empty and does not begin with `-`.
fn plain_texts<'a>(alloc: Global, words: &'a [Text]) -> Result<Option<Vec<&'a str>>, Memory>
    ensures same { IfOk result (λ found. IfSome found (λ texts.
        map (λ t. t.now) texts.items ≡ words.now)) }
    ensures plain { IfOk result (λ found. IfSome found (λ texts.
        All IsPlainWord (map (λ t. t.now) texts.items))) }
    ensures none { IfOk result (λ found. IsNone found → All IsPlainWord words.now → ⊥) }
{
    let mut texts = Vec::new(alloc);
    for word in words {
        let Some(text) = plain_text(word.bytes()) else {
            return Ok(None);
        };
        texts.push(text)?;
    }
    Ok(Some(texts))
}

fn plain_text(word: &[u8]) -> Option<&str>
    ensures same { IfSome result (λ text. text.now ≡ word.now) }
    ensures plain { IsSome result ↔ IsPlainWord word.now }
{
    if word.is_empty() || word[0] == b'-' {
        return None;
    }
    match str::from_utf8(word) {
        Ok(text) => Some(text),
        Err(_) => None,
    }
}

/// The number that a word is, if it is one from 1 to the most.
fn read_number(word: &[u8], most: u64) -> Option<u64>
    ensures found { IfSome result (IsNumber most word.now) }
    ensures none { IsNone result → (n : ℕ) → IsNumber most word.now n → ⊥ }
{
    // `parse` reads a leading `+` and leading zeros too, and all of them stand below `1`.
    if word.is_empty() || word[0] < b'1' {
        return None;
    }
    let Ok(text) = str::from_utf8(word) else {
        return None;
    };
    match text.parse::<u64>() {
        Ok(number) if number <= most => Some(number),
        _ => None,
    }
}

/// The number that a word is, if it is one from 0 to the most.
fn read_number_or_zero(word: &[u8], most: u64) -> Option<u64>
    ensures found { IfSome result (IsNumberOrZero most word.now) }
    ensures none { IsNone result → (n : ℕ) → IsNumberOrZero most word.now n → ⊥ }
{
    if same_bytes(word, b"0") {
        return Some(0);
    }
    read_number(word, most)
}

/// Whether a word is an address that paths can be put behind.
fn is_base(word: &[u8]) -> bool
    ensures { IsTrue result ↔ IsBase word.now }
{
    LEAST_BASE <= word.len()
        && word.len() <= MOST_BASE
        && word[word.len() - 1] != b'/'
        && has_scheme(word)
        && word.iter().all(|byte| is_base_byte(*byte))
}

fn has_scheme(word: &[u8]) -> bool
    ensures { IsTrue result ↔ HasScheme word.now }
{
    word.starts_with(b"http://") || word.starts_with(b"https://")
}

fn is_base_byte(byte: u8) -> bool
    ensures { IsTrue result ↔ IsBaseByte byte }
{
    (33..=126).contains(&byte) && byte != b'"' && byte != b'<' && byte != b'>'
}
