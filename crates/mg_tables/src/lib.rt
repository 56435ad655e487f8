//! What the crates of tests share: tables of rows, and timestamps and packets as texts. It answers to no definition of its own.
#![tactic(auto)]

mod packets;
mod table;

pub use packets::{packet_at, packet_of, show_packet_at, show_set_at, text_of, time_of};
pub use table::{Calls, assert_rows};
