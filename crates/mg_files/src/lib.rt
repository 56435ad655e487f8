//! The files of a command: they are loaded and read as graphs. The crate makes the notes of a file that couldn't be
//! loaded or is no graph, and of a graph that is refused. It also makes the texts that `check` and `expand` write of a
//! graph. Answers to the definitions of `specs/File.antt`, `specs/Files.antt`, `specs/Loads.antt`, `specs/Notes.antt`
//! and `specs/CheckNotes.antt`.
#![tactic(auto)]

mod check_notes;
mod expand_notes;
mod fault;
mod file_notes;
mod files;
mod free_notes;
pub mod laws;
mod load;
mod own_law_notes;
mod refusal;
mod text;

pub use check_notes::{check_note, check_text};
pub use expand_notes::expand_note;
pub use fault::Fault;
pub use files::graphs_of;
pub use free_notes::free_note;
pub use load::load_all;
pub use own_law_notes::own_law_note;
pub use text::graph_text;
