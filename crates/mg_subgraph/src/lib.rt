//! Expansion of subgraphs: a node whose calculator is the type of a library file is replaced by the nodes of that file.
//! `expand` and `expand_own` return the expanded graph or its first refusal, `expansion_of` of specs/.
#![tactic(auto)]

mod copying;
mod expanding;
mod expansion;
mod fault;
mod index;
pub mod laws;
mod library;
mod links;
mod nodes;
mod renaming;
mod reserved;
mod shared;
mod size;
mod used;

pub use expansion::{expand, expand_own};
pub use fault::ExpandFault;
