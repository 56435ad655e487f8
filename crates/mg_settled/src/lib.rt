//! Prefixes of streams, how far a stream has come, settled sets, the loopback's stream, and the plain programs of these.
//! Answers to the definitions of `specs/Prefix.antt`, `specs/Extension.antt`, `specs/Settled.antt`, `specs/FirstSet.antt`,
//! `specs/Left.antt`, `specs/Loopback.antt` and `specs/Ends.antt`.
#![tactic(auto)]

mod input_set;
pub mod laws;
mod look;
mod looping;
mod prefix;
mod reaching;
mod rest;
mod sets;
mod stream_end;
mod timed_set;

pub use input_set::InputSet;
pub use looping::{loopback, take_answers};
pub use prefix::{Prefix, PrefixList, are_prefixes};
pub use reaching::reach;
pub use rest::{Rest, rests_of};
pub use sets::{settled_sets, take_sets};
pub use stream_end::{StreamEnd, StreamEndList};
pub use timed_set::{TimedSet, TimedSetList};
