//! Helpers that the crates of tests that drive whole nets share. There is a net with its plan and its inputs, two user-supplied
//! calculators, and what comes out of a net. There are graphs with their outcomes, and graphs at random. A function owns a net while a way
//! of the tests drives it. Answers to `specs/Driven.antt`.
#![tactic(auto)]

mod boxes;
mod cases;
mod chance;
mod driver;
mod graphs;
mod outcome;
mod plans;
mod seeds;
mod shown;
mod ways;

pub use cases::{CASES, Case, added, case_of, summed, throttled, under};
pub use chance::Chance;
pub use driver::{Driver, act, driver_of, driver_over, held, sweep, trim};
pub use graphs::{adding, counting, merging, passing, stalling, summing};
pub use outcome::{all_taken, told};
pub use plans::plan_of;
pub use seeds::{Drawn, draw_graph, drawn_case};
pub use shown::{show_packets, show_report};
pub use ways::{Way, driven, driver_under, expect, swept};
