//! Drives a net over the batches of an input. After each batch it brings the net to rest, and tells the sets of the net's outputs as they
//! come. At the end it winds the nodes up and writes the notes. A step of a run is written once (`make_step`), over three small traits: the
//! net, where batches come from, and what tells the sets. A caller without a runtime only loops over the step. A caller with a runtime lets
//! workers run the net before each step. Answers to the definitions of `specs/OneRun.antt`, `specs/OneLive.antt`, `specs/Traced.antt`,
//! `specs/Over.antt` and `specs/Leaves.antt`, and, of what is written, to those of mg_answer.
#![tactic(auto)]

mod batches;
mod crew;
mod driven;
mod driving;
mod event_text;
mod finishing;
mod in_plan;
mod lines;
mod live;
mod live_running;
mod looked;
mod made;
mod many_threads;
mod moved;
mod net_ends;
mod nothing;
mod one_thread;
mod onward;
mod pieces;
mod readers;
mod recording;
mod running;
mod telling;
mod told_lines;
mod told_sums;
mod tracing;

pub use batches::{Batch, Batches, Closing, Onward};
pub use crew::Crew;
pub use driven::Driven;
pub use driving::{Step, drive, drive_alone, make_step, take_all};
pub use event_text::EventText;
pub use finishing::{finish, finish_frozen};
pub use lines::{run_lines, run_lines_alone};
pub use live::Live;
pub use live_running::{run_live_lines, run_live_lines_alone, run_live_made, run_live_made_alone};
pub use made::{run_made, run_made_alone};
pub use many_threads::ManyThreads;
pub use moved::Moved;
pub use net_ends::NetEnds;
pub use one_thread::OneThread;
pub use recording::record_run;
pub use running::{run_batches, run_batches_alone};
pub use telling::Telling;
pub use tracing::trace_lines;
