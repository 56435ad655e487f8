//! Names of a list, each with the place at which it stands first. The place is found without a search of the list. The
//! first name that stands again is kept, too. Answers to the definitions of `specs/Places.antt` and `Tables.antt`.
#![tactic(auto)]

mod name_table;

pub use name_table::NameTable;
