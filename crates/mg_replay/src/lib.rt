//! Makes recorded runs again: reads the lines of a recorded run, makes its events on a net one by one, and notes how that ended.
//! Answers to the definitions of `specs/Replay.antt`, `specs/Reading.antt` and `specs/Note.antt`.
#![tactic(auto)]

mod events;
pub mod laws;
mod noting;
mod opening;
mod packets;
mod replaying;
mod trace_end;

pub use events::replay_events;
pub use noting::note_end;
pub use opening::{Opened, read_job};
pub use replaying::replay_lines;
pub use trace_end::{TraceEnd, TraceFault};
