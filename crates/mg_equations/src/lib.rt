//! The solution of a graph, computed in rounds as the definitions of mg_calc say. These stand in `specs/Laying.antt`,
//! `specs/Outcome.antt`, `specs/Equations.antt` and `specs/Meaning.antt`. But here each node goes on in a round from where it
//! stood (`specs/Code/Progress.antt`).
#![tactic(auto)]

mod laying;
mod node;
mod outcome;
mod output;
mod progress;
mod readers;
mod round;
mod round_nodes;
mod solving;

pub use solving::{Streams, solve};
