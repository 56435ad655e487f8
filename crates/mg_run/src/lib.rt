//! The top calls of the program: from the words of the command line and the devices to the bytes that are written and the status.
//! `run_words` may call workers. `run_alone` is handed no runtime, so it returns.
//! Answers to the definitions of `specs/Headline.antt`, `specs/Call.antt` and `specs/Answer.antt`.
#![tactic(auto)]

mod action;
mod beginning;
mod call;
pub mod call_laws;
pub mod laws;
mod limited;
mod loop_ends;
mod outers;
mod stated;
mod tally;
mod way;

pub use call::{run_alone, run_words};
pub use loop_ends::{begin_loop, end_loop};
pub use mg_answer::{Status, note_out_of_memory};
pub use tally::tally_box;
