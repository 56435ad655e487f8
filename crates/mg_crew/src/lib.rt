//! Workers: threads that run a net side by side. Answers to the definitions of `specs/Leaves.antt`, and to those of `specs/Became.antt` of
//! mg_workers.
#![tactic(auto)]

mod board;
mod bringing;
mod calling;
mod chart;
mod commits;
mod crew;
mod gauge;
mod kinds;
mod leads;
mod marks;
mod putting;
mod rounds;
mod running;
mod serving;
mod shop;
mod throttle;
mod throttling;
mod waiting;
mod working;

pub use running::run_workers;
