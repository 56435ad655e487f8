//! Configurations: what the fields of a graph file say. `read` returns the configuration of a file's fields or its
//! first fault (`config_of` of specs/), and `write` the fields of a configuration (`tree_of`).
#![tactic(auto)]

mod calculators;
mod check;
mod fault;
mod fields;
mod graph;
mod mark;
mod marks;
mod node;
mod nodes;
mod number;
mod options;
mod path;
mod ports;
mod schema;
mod value;
mod word;
mod writing;

pub use fault::ConfigFault;
pub use graph::{GraphConfig, NodeList, read};
pub use mark::Mark;
pub use node::{MarkList, NodeConfig};
pub use value::{long_number_in_value, truth_in_value};
pub use word::is;
pub use writing::write;
