//! Recorded runs: the texts of the events that a net makes, and the packet lines of the job that it makes them for.
//! Answers to the definitions of `specs/Event.antt`, `specs/Job.antt` and `specs/Trace.antt`.
#![tactic(auto)]

mod event_reader;
mod event_text;
mod job_text;
pub mod laws;
mod line_values;

pub use event_reader::{event_of, read_event};
pub use event_text::{push_event, write_event};
pub use job_text::write_job;
