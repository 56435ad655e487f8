//! Loops over lists: what begins and ends them, and calculators of these two laws that a caller can supply.
//! Answers to the definitions of `specs/Batch.antt` and `specs/Told.antt` of mg_calc, and of `specs/Loop.antt`.
#![tactic(auto)]

mod batch_box;
mod begin_loop;
mod call_log;
mod copying;
mod end_loop;
pub mod laws;
mod loop_box;
mod nesting;
mod step;

pub use batch_box::BatchBox;
pub use call_log::CallLog;
pub use loop_box::{begin_loop_box, end_loop_box};
pub use step::{batch_step, batch_step_in};
