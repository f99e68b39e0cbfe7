//! The words of the program's command line, and the commands that they spell.
#![tactic(auto)]

mod commands;
mod laws;
mod words;

pub use crate::commands::command_line;
pub use crate::laws::{bases_are_text, words_as_worked, words_spell_one_command};
pub use crate::words::{
    BLOCK, Invocation, MOST_BLOCKS, MOST_CONNECTIONS, MOST_COUNT, MOST_HALF, MOST_NUMBER, Wanted,
    devices, read_words,
};
