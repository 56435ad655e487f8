//! The calculators that hand packets on, and what holds a calculator of any kind.
//! Answers to the definitions of `specs/Law.antt`, `specs/Routing.antt` and `specs/Told.antt` of mg_calc.
#![tactic(auto)]

mod builtin;
mod cloner;
mod emissions;
mod holder;
mod in_place;
mod law_box;
mod laying;
mod route;
mod thin;

pub use builtin::Builtin;
pub use holder::Holder;
pub use in_place::{begin_in, outer_step_in};
pub use law_box::LawBox;
pub use laying::packets_fault;
pub use route::{route_step, route_step_in};
