//! Calculators: what they compute, and the plan of a graph that is made of them.
//! Answers to the definitions of `specs/Law.antt`, `specs/Shape.antt` and `specs/Plan.antt`.
#![tactic(auto)]

mod calculator;
mod call;
mod cause;
mod computations;
mod copy_plan;
mod edge;
mod emission;
mod event;
mod given;
mod handed;
mod inputs;
mod kinds;
mod law;
pub mod laws;
mod node_calculator;
mod node_fault;
mod numbers_in;
mod own;
mod own_laws;
mod plan;
mod plan_node;
mod plan_stream;
mod port_kind;
mod setting;
mod shape;
mod short_list;
mod side;
mod side_packets;
mod source;
mod state;
pub mod state_laws;
mod stated;
mod try_clone;

pub use calculator::Calculator;
pub use call::{Call, CallList};
pub use cause::{CalcFault, Cause};
pub use computations::int_map::MapOp;
pub use computations::{Computation, ComputationKind, Formula, Wiring, computation_named};
pub use edge::{Edge, EdgeList};
pub use emission::{
    Emission, EmissionList, Laid, LaidPackets, no_emission, one_number, one_output, one_packet,
};
pub use event::{Effect, Event};
pub use given::GivenList;
pub use handed::Handed;
pub use inputs::Inputs;
pub use kinds::has_wrong_kind;
pub use law::{Keep, Law, input_kind, is_stateless, offset_of};
pub use node_calculator::NodeCalculator;
pub use node_fault::{NodeFault, NodeFaultList, Phase};
pub use numbers_in::{narrowed, number_of_packet, total};
pub use own::{own_step, stays};
pub use own_laws::{NoLaws, OwnLaws};
pub use plan::Plan;
pub use plan_node::{PlanNode, PlanNodeList};
pub use plan_stream::{PlanStream, PlanStreamList, Producer};
pub use port_kind::{PortKind, PortKindList};
pub use setting::Setting;
pub use shape::{OuterShape, Shape};
pub use short_list::ShortList;
pub use side::{Side, SideList, SideValue};
pub use side_packets::node_sides;
pub use source::{own_begin, source_step};
pub use state::State;
pub use stated::ports;
pub use try_clone::TryClone;
