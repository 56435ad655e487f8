//! Values: texts, lists, payloads with their kinds, packets, and the names of input policies. Answers to the definitions of
//! `specs/Plain.antt`, `specs/Payload.antt`, `specs/Packet.antt` and `specs/Kind.antt`.
#![tactic(auto)]

mod block_list;
mod kind;
mod packet;
mod payload;
mod payload_list;
mod policy;
mod record_list;
mod text;

pub use block_list::{BlockList, CountList, NumberList};
pub use kind::{Kind, has_kind};
pub use packet::{Packet, PacketList};
pub use payload::Payload;
pub use payload_list::PayloadList;
pub use policy::Policy;
pub use record_list::{Entry, RecordList};
pub use text::MgText;
