//! Validation of an expanded configuration. `check` returns its plan, by which it can be run, or its first refusal:
//! `check_of` of `specs/Check.antt`. The plan is valid by `IsValidWithFree` of mg_calc.
#![tactic(auto)]

mod checking;
mod choosing;
mod counting;
mod draft;
mod drafting;
mod edges;
mod fault;
mod fitting;
mod gathering;
mod groups;
mod inferred;
mod judging;
pub mod laws;
mod linking;
mod marks;
mod meeting;
mod names;
mod node_draft;
mod node_kind;
mod nodes;
mod ordering;
mod part;
mod plan_names;
mod planning;
mod port_texts;
mod readers;
mod sides;
mod streams;
mod taking;
mod waiting;
mod wiring;

pub use checking::check;
pub use fault::{CheckFault, Many};
