//! Laws between what requests ask for and what is answered, each the contract of a function with an empty
//! body: a command of a request is good for each library, and what is answered can be printed. Nothing here
//! runs.
#![tactic(auto)]

mod laws;

pub use crate::laws::{
    answers_have_texts, ask_refusals_have_texts, asks_are_good, media_answers_have_texts,
    media_puts_agree,
};
