//! The calculators that are built in: from a node's name, ports and options to its calculator's law and shape. Answers
//! to the table of `specs/Kinds.antt`, with a row for each calculator; those that compute numbers have theirs in mg_calc.
#![tactic(auto)]

mod kind;
mod law;
mod options;
mod payload;
mod port_order;
mod ports;
mod row;
mod said;
mod settings;
mod shape;
mod tag;
mod value;

pub use kind::{CalculatorKind, kind_at};
pub use port_order::in_order;
pub use ports::{Ports, has_just, kind_ports};
pub use settings::{Settings, has_no_options, kind_settings};
pub use shape::shape_of;
