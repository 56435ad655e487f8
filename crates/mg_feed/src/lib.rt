//! Reads packet lines into a graph's inputs, and writes the packets that a graph puts out as lines. The files `specs/Form.antt`,
//! `specs/Accepted.antt`, `specs/Output.antt`, `specs/Generated.antt` and `specs/Pieces.antt` define what lines mean and what is
//! written. The file `specs/Stands.antt` defines what a feed stands for. The files `specs/Came.antt` and `specs/Batch.antt` define
//! which of the bytes that a feed read it took as lines. The file `specs/Handed.antt` defines how `Lines` hands out the lines of an
//! input.
#![tactic(auto)]

mod all_or_nothing;
mod due;
mod feed;
mod feed_end;
mod feed_stream;
mod form;
mod generating;
mod generator;
mod graph;
mod input_buffer;
mod judge;
pub mod laws;
mod limits;
mod line_fault;
mod line_json;
mod line_writer;
mod lines;
mod packet_line;
mod payload_text;
mod places;
mod put;
mod reader;
mod sides;
mod standing;
mod streams;
mod taking;
mod times;
mod tokens;
mod whole;

pub use all_or_nothing::{push_bytes, whole_or_none};
pub use feed::Feed;
pub use feed_end::{BatchEnd, FeedEnd};
pub use generator::{Generator, generate};
pub use limits::{LONGEST_BLOCK, LONGEST_LINE, MOST_LINES};
pub use line_fault::LineFault;
pub use line_writer::{LineWriter, write_line};
pub use lines::{Lines, NextLine};
pub use places::{Placed, Places};
pub use put::put_all;
pub use standing::Standing;
