//! Ports as graph files spell them: `TAG:index:name`. `read_port` reads the text of one port, and `PortMap` the ports
//! of a list of texts, with the indexes that the texts leave out. `PortReader` reads them one text after another.
//! `print_port` writes the text of a port. What they return is `spelling_of`, `ports_of` and `text_of` of specs/.
#![tactic(auto)]

mod fault;
mod few;
mod grammar;
mod indexing;
pub mod laws;
mod numbering;
mod placed_fault;
mod places;
mod port;
mod port_map;
mod port_reader;
mod printing;
mod reading;
mod renaming;
mod spelling;
mod tag_index;

pub use fault::NameFault;
pub use placed_fault::PlacedFault;
pub use port::Port;
pub use port_map::PortMap;
pub use port_reader::PortReader;
pub use printing::print_port;
pub use reading::read_port;
pub use spelling::Spelling;
pub use tag_index::{print_tag_index, read_tag_index};
