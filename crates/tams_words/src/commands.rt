//! The program's command line: its commands with their words, as `clap` reads them and as help shows them.
ghost use Rattle.std.specs.Prelude.{◌≡◌, ◌+◌, IfOk, IfSome, IsNone, codes, false, length, map};
ghost use Rattle.clap.specs.Words.{app_of, rule_of, with_subcommand};
ghost use Rattle.tams_words.specs.Commands.{word_rule, command_with, tams_app, command_word, words_of};
ghost use Rattle.tams_words.specs.declared.commands.CommandName.{CommandName};

use clap::{Arg, Command};
use std::alloc::{AllocError, Global};

/// The version of the program.
const VERSION: &str = "0.1.0";

/// The name of a command.
#[derive(Clone, Copy)]
pub(crate) enum CommandName {
    Format,
    Check,
    Migrate,
    Work,
    Deliver,
    Replay,
    Serve,
    Manifest,
    Workload,
}

impl CommandName {
    /// The command that a word names.
    pub(crate) fn read(word: &str) -> Option<CommandName>
        ensures found { IfSome result (λ name. word.now ≡ command_word name) }
        ensures none { IsNone result → (name : CommandName) → word.now ≡ command_word name → ⊥ }
    {
        match word {
            "format" => Some(CommandName::Format),
            "check" => Some(CommandName::Check),
            "migrate" => Some(CommandName::Migrate),
            "work" => Some(CommandName::Work),
            "deliver" => Some(CommandName::Deliver),
            "replay" => Some(CommandName::Replay),
            "serve" => Some(CommandName::Serve),
            "manifest" => Some(CommandName::Manifest),
            "workload" => Some(CommandName::Workload),
            _ => None,
        }
    }

    /// How many words it has with its name.
    pub(crate) fn count(self) -> usize
        ensures { result ≡ length (words_of self) + 1 }
    {
        match self {
            CommandName::Check | CommandName::Migrate | CommandName::Work | CommandName::Deliver =>
                2,
            CommandName::Replay | CommandName::Workload => 3,
            CommandName::Format | CommandName::Serve | CommandName::Manifest => 5,
        }
    }
}

/// A word of a command, and what it says.
type Word<'a> = (&'a str, &'a str);

const PATH: Word<'static> = ("PATH", "The store's file");

const BASE: Word<'static> = (
    "BASE",
    "The address under which clients see the store, http:// or https://, without / at its end",
);

/// The program's commands with their words.
pub fn command_line<'a>(alloc: Global) -> Result<Command<'a>, AllocError>
    ensures { IfOk result (λ c. app_of c ≡ tams_app) }
{
    let program = Command::new(alloc, "tams")
        .about("A store for time-addressable media, in one file, whose promises are proved")
        .version(VERSION)
        .no_binary_name(true)
        .disable_help_subcommand(true)
        .subcommand_required(true);
    let program = with_command(
        alloc,
        program,
        "format",
        "Makes an empty store",
        &[
            PATH,
            ("BLOCKS", "Blocks of 4,096 bytes in all, 1 to 1,073,741,824"),
            ("HALF", "Blocks of each half of the journal, 1 to 65,536"),
            ("STORE_ID", "The store's id, a UUID"),
        ],
    )?;
    let program = with_command(
        alloc,
        program,
        "check",
        "Reads the objects of a store, and counts what it keeps",
        &[PATH],
    )?;
    let program = with_command(
        alloc,
        program,
        "migrate",
        "Moves a store of form 1 to form 2, with digests of its objects",
        &[PATH],
    )?;
    let program = with_command(
        alloc,
        program,
        "work",
        "Deletes and sweeps what is due, step by step",
        &[PATH],
    )?;
    let program = with_command(
        alloc,
        program,
        "deliver",
        "Sends waiting events to their webhooks on this machine",
        &[PATH],
    )?;
    let program = with_command(
        alloc,
        program,
        "replay",
        "Serves the requests on standard input, and answers on standard output",
        &[PATH, BASE],
    )?;
    let program = with_command(
        alloc,
        program,
        "serve",
        "Serves connections on 127.0.0.1, one after another",
        &[
            PATH,
            ("PORT", "The port, 1 to 65,535"),
            BASE,
            ("CONNECTIONS", "How many connections, 1 to 1,000,000,000"),
        ],
    )?;
    let program = with_command(
        alloc,
        program,
        "manifest",
        "Says the playlist of a flow's whole objects within a range, for players (HLS)",
        &[
            PATH,
            BASE,
            ("FLOW", "The flow's id, a UUID"),
            ("RANGE", "The range, as [0:0_10:0) or _ for all"),
        ],
    )?;
    with_command(
        alloc,
        program,
        "workload",
        "Serves generated requests over a store in memory",
        &[
            ("NUMBER", "What they are generated from, 0 to 1,000,000"),
            ("COUNT", "How many objects they put, 1 to 1,000"),
        ],
    )
}

/// Adds a command with its words, each of which has to be there.
fn with_command<'a>(
    alloc: Global,
    program: Command<'a>,
    name: &'a str,
    about: &'a str,
    words: &[Word<'a>],
) -> Result<Command<'a>, AllocError>
    ensures { IfOk result (λ c. app_of c ≡ with_subcommand (app_of program.entry)
        (command_with name.now (map (λ word. word.0.now) words.now))) }
{
    let mut command = Command::new(alloc, name).about(about);
    for (name, help) in words {
        command = command.arg(required(alloc, name, help))?;
    }
    program.subcommand(command)
}

/// A word that has to be there.
fn required<'a>(alloc: Global, name: &'a str, help: &'a str) -> Arg<'a>
    ensures rule { rule_of result ≡ word_rule name.entry.now }
    ensures local { result.global ≡ false }
{
    Arg::new(alloc, name).required(true).help(help)
}
