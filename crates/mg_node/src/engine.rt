ghost use Rattle.std.specs.Prelude.{◌≡◌, ◌<◌, ◌-◌, ◌^◌, length, min, is_some, ◌||◌, slice_index_or};
ghost use Rattle.mg_stream.specs.Pool.{empty_backlog};
ghost use Rattle.mg_node.specs.Outputs.{count_at, packets_kept};

mod advancing;
mod claiming;
mod committing;
mod delivering;
mod extending;
mod leaving;
mod looking;
mod making;
mod opening;
mod shelving;
mod showing;
mod winding;

use crate::counting::held_at;
use crate::entry::Entry;
use crate::{Context, Role};
use mg_calc::{NodeCalculator, NodeFault};
use mg_stream::Queue;
use mg_time::Timestamp;
use std::alloc::Global;
use std::collections::VecDeque;
use std::marker::Model;

/// What works at a node: its calculator, the works that were claimed, and what was laid at its outputs.
#[derive(Drop)]
pub struct Engine<C: NodeCalculator> {
    alloc: Global,
    role: Role,
    // The number of the node or of the graph input.
    node: u32,
    // The number of the first output's stream.
    first: u32,
    // The timestamp offset of the node, if it has one.
    offset: Option<i64>,
    // How many works may be claimed and not laid.
    in_flight: u32,
    // How many input ports the node has.
    inputs: u32,
    outputs: Vec<Queue>,
    // How many sets, calls or answers were laid, and how many were claimed.
    laid: u64,
    claimed: u64,
    // The works that are claimed and not laid, in order.
    window: VecDeque<Entry<C>>,
    // The contexts that no work has.
    idle: Vec<Context<C>>,
    begun: bool,
    closed: bool,
    fault: Option<NodeFault>,
}

impl<C: NodeCalculator> Model for Engine<C> {
    ghost use Rattle.std.specs.Prelude.{◌≡◌, ◌≤◌, ◌+◌, ◌<◌, ◌^◌, map, vec_len, vec_capacity};
    ghost use Rattle.std.specs.VecDeque.{deque_len, deque_capacity};
    ghost use Rattle.mg_stream.specs.Pool.{backlog_of};
    ghost use Rattle.mg_node.specs.Views.{EngineView};
    ghost use Rattle.mg_node.specs.Codes.{engine_code};

    ghost Value = { EngineView };

    ghost coded = { engine_code };

    ghost view = { λ e. record {
      role = e.role;
      node = e.node;
      first = e.first;
      offset = e.offset;
      in_flight = e.in_flight;
      inputs = e.inputs;
      outputs = map backlog_of e.outputs.items;
      laid = e.laid;
      claimed = e.claimed;
      window = e.window.items;
      idle = e.idle.items;
      begun = e.begun;
      closed = e.closed;
      fault = e.fault;
    } };

    ghost invariant = { λ e. (vec_len e.outputs < 2 ^ 32) × (vec_len e.idle + deque_len e.window ≡ e.in_flight)
        × (e.in_flight ≤ vec_capacity e.idle) × (e.in_flight ≤ deque_capacity e.window) };
}

impl<C: NodeCalculator> Engine<C> {
    /// Returns how many sets, calls or answers were laid. Close isn't counted.
    pub fn laid(&self) -> u64
        ensures { result ≡ self.now.laid }
    {
        self.laid
    }

    /// Returns how many sets, calls or answers were claimed. Close isn't counted.
    pub fn claimed(&self) -> u64
        ensures { result ≡ self.now.claimed }
    {
        self.claimed
    }

    /// Returns whether the node has failed, or closed.
    pub fn has_ended(&self) -> bool
        ensures { result ≡ (self.now.closed || is_some self.now.fault) }
    {
        self.closed || self.fault.is_some()
    }

    /// Returns the fault of the node, if it has failed.
    pub fn fault(&self) -> Option<NodeFault>
        ensures { result ≡ self.now.fault }
    {
        self.fault
    }

    /// Returns how many outputs there are.
    pub fn outputs(&self) -> u32
        ensures { result ≡ length self.now.outputs }
    {
        self.outputs.len() as u32
    }

    /// Returns how many packets were laid at an output, those that were given up included.
    pub fn count(&self, output: u32) -> u64
        requires { output < length self.now.outputs }
        ensures { result ≡ count_at self.now output }
    {
        self.outputs[output as usize].count()
    }

    /// Returns how many packets are kept at all outputs, at most `u64::MAX`.
    pub fn held(&self) -> u64
        ensures { result ≡ min (packets_kept self.now) (2 ^ 64 - 1) }
    {
        held_at(&self.outputs)
    }

    /// Returns the bound of an output: the lowest timestamp that a further packet may have there.
    pub fn bound(&self, output: u32) -> Timestamp
        requires { output < length self.now.outputs }
        ensures { result ≡ (slice_index_or self.now.outputs output empty_backlog).bound }
    {
        self.outputs[output as usize].bound()
    }
}
