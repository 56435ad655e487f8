//! The text form of protocol buffers, as graph files are written in it: `parse` reads a file, byte by byte, and
//! `print` writes the canonical text. What a text means is the grammar of `specs/Grammar.antt`.
#![tactic(auto)]

mod between;
mod class;
mod copying;
mod fault;
mod inside;
pub mod laws;
mod machine;
mod next;
pub mod parts;
mod plain;
mod printer;
mod reader;
mod state;
mod step;
mod table;
mod tree;

pub use fault::TextFault;
pub use printer::print;
pub use reader::parse;
pub use tree::{Field, FieldList, Scalar, Tree, TreeValue};
