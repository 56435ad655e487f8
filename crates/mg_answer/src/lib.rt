//! Defines what a run of a graph answers: its output text or a summary, its notes with a report after them, and its status. They
//! are functions of the plan, of the input's bytes and of the solution. Also defines how the answer is written, set by set and then
//! the end. Has a run that computes its answer plainly. Answers to the definitions of `specs/Text.antt`, `specs/Summary.antt`,
//! `specs/Told.antt`, `specs/Notes.antt`, `specs/Report.antt`, `specs/Answer.antt`, `specs/Frozen.antt`, `specs/Outcomes.antt`,
//! `specs/Put.antt`, `specs/Wrote.antt` and `specs/Ran.antt`.
#![tactic(auto)]

mod block_text;
mod concluding;
mod devices;
mod failing;
pub mod laws;
mod notes;
mod outcomes;
mod output_summary;
mod output_text;
mod pieces;
mod reading;
mod report;
mod run;
mod set_lines;
mod shown;
mod solving;
mod status;
mod told;
mod total;
mod total_lines;
mod words;

pub use block_text::{BlockText, Puts};
pub use concluding::{conclude, conclude_frozen};
pub use devices::Devices;
pub use failing::{note_out_of_memory, note_write_fault};
pub use notes::{put_arrival, put_end};
pub use outcomes::Outcomes;
pub use output_summary::OutputSummary;
pub use output_text::OutputText;
pub use pieces::put_number;
pub use reading::{WholeInput, read_whole};
pub use run::{Reporting, Run};
pub use shown::put_shown;
pub use solving::solve_input;
pub use status::Status;
pub use told::{is_ended, ran_out};
