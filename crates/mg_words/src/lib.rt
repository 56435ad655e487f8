//! What the words of a command line ask for: a command with its instruction and its files, or a text of the program's own.
//! Answers to `request_of` of `specs/Words.antt`.
#![tactic(auto)]

mod command_line;
mod help;
mod limits;
mod options;
mod words;

pub use help::{help_text, usage_text, version_text};
pub use limits::{MOST_FILES, MOST_WORKERS};
pub use words::{Instruction, Request, Verb, Way, request_of};
