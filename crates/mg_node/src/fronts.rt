//! Laying what is committed at the front of a window.
ghost use Rattle.std.specs.Prelude.{◌≡◌, ◌<◌, ◌≤◌, ◌+◌, ◌^◌, ◌||◌, None, true, map, length, IfOk, OnOk, is_some, vec_len, vec_capacity};
ghost use Rattle.std.specs.VecDeque.{deque_len, deque_capacity};
ghost use Rattle.mg_stream.specs.Pool.{backlog_of};
ghost use Rattle.mg_node.specs.Lawful.{is_close as is_close_phase};
ghost use Rattle.mg_node.specs.Commits.{calls_in_phase as counted_phase};
ghost use Rattle.mg_node.specs.Code.QueueLaying.{StandForSome, HasRoomFor, packets_by};
ghost use Rattle.mg_node.specs.Code.FrontLaying.{needed as needed_at, HasRoom, counted_in, front_end_of, IsFirstLaid, IsFrontLaid};
ghost use Rattle.mg_node.specs.Windows.{starts_ready};

use crate::Context;
use crate::entry::Entry;
use crate::laying::{lay, packets_in};
use crate::window::is_ready;
use mg_calc::{Cause, Emission, NodeCalculator, NodeFault, Phase};
use mg_stream::Queue;
use std::alloc::AllocError;
use std::collections::VecDeque;

/// What laying a front came to: how many sets or calls were laid, whether Close was, and the node's fault, if there is one.
#[derive(Clone, Copy, Debug, PartialEq, Eq)]
pub struct FrontEnd {
    pub laid: u32,
    pub closed: bool,
    pub fault: Option<NodeFault>,
}

impl FrontEnd {
    // Whether the node has failed or is closed.
    fn has_stopped(&self) -> bool
        ensures { result ≡ (self.now.closed || is_some self.now.fault) }
    {
        self.closed || self.fault.is_some()
    }
}

/// Makes room at each output for all that the entries which are ready at the front of a window have emitted there.
pub(crate) fn reserve<C: NodeCalculator>(
    outputs: &mut [Queue],
    window: &VecDeque<Entry<C>>,
) -> Result<(), AllocError>
    requires { length outputs.old < 2 ^ 32 }
    ensures same { map backlog_of outputs.new ≡ map backlog_of outputs.old }
    ensures room { OnOk result (HasRoom outputs.new window.now.items) }
{
    for i in 0..outputs.len() {
        let more = needed(window, i as u32)?;
        outputs[i].reserve(more)?;
    }
    Ok(())
}

/// Makes room at each output for all that an answer emits there.
#[inline(always)]
pub(crate) fn reserve_for(
    outputs: &mut [Queue],
    answer: &Result<Emission, Cause>,
) -> Result<(), AllocError>
    requires { length outputs.old < 2 ^ 32 }
    ensures same { map backlog_of outputs.new ≡ map backlog_of outputs.old }
    ensures room { OnOk result (HasRoomFor outputs.new answer.now) }
{
    if outputs.len() == 1 {
        return reserve_first(outputs, answer);
    }
    reserve_each(outputs, answer)
}

// Makes room at the single output for all that an answer emits there. Most nodes have one output.
#[inline(always)]
fn reserve_first(outputs: &mut [Queue], answer: &Result<Emission, Cause>) -> Result<(), AllocError>
    requires { length outputs.old ≡ 1 }
    ensures same { map backlog_of outputs.new ≡ map backlog_of outputs.old }
    ensures room { OnOk result (HasRoomFor outputs.new answer.now) }
{
    let more = packets_by(answer, 0);
    outputs[0].reserve(more)?;
    Ok(())
}

// Makes room at one output after the other for all that an answer emits there.
#[inline(never)]
fn reserve_each(outputs: &mut [Queue], answer: &Result<Emission, Cause>) -> Result<(), AllocError>
    requires { length outputs.old < 2 ^ 32 }
    ensures same { map backlog_of outputs.new ≡ map backlog_of outputs.old }
    ensures room { OnOk result (HasRoomFor outputs.new answer.now) }
{
    for i in 0..outputs.len() {
        let more = packets_by(answer, i as u32);
        outputs[i].reserve(more)?;
    }
    Ok(())
}

// How many packets an answer emits at an output.
fn packets_by(answer: &Result<Emission, Cause>, output: u32) -> u32
    ensures { result ≡ packets_by output answer.now }
{
    match answer {
        Ok(emission) => packets_in(emission, output),
        Err(_) => 0,
    }
}

// How many packets the entries that are ready at the front of a window have at an output. A number past 32 bits is an error, as if out of
// memory.
#[tactic(auto, using(crate::proofs::FrontSteps::needed_more, crate::proofs::FrontSteps::needed_end, crate::proofs::FrontSteps::needed_all))]
fn needed<C: NodeCalculator>(window: &VecDeque<Entry<C>>, output: u32) -> Result<u32, AllocError>
    ensures { IfOk result (λ n. n ≡ needed_at output window.now.items) }
{
    let mut sum: u32 = 0;
    for place in 0..window.len() {
        let entry = &window[place];
        if !entry.is_ready() {
            return Ok(sum);
        }
        let Some(more) = sum.checked_add(entry.packets_at(output)) else {
            return Err(AllocError);
        };
        sum = more;
    }
    Ok(sum)
}

/// Lays the entries that are ready at the front of a window, up to the one at which the node fails or closes. Their contexts are idle
/// afterwards. Takes no memory.
pub(crate) fn lay_front<C: NodeCalculator>(
    offset: Option<i64>,
    node: u32,
    outputs: &mut [Queue],
    window: &mut VecDeque<Entry<C>>,
    idle: &mut Vec<Context<C>>,
) -> FrontEnd
    requires stands { StandForSome outputs.old }
    requires room { HasRoom outputs.old window.old.items }
    requires contexts { vec_len idle.old + deque_len window.old ≤ vec_capacity idle.old }
    requires few { deque_len window.old < 2 ^ 32 }
    ensures front { IsFrontLaid offset node outputs.old outputs.new window.old.items window.new.items idle.old.items idle.new.items result }
    ensures count { result.laid + counted_in window.new.items ≡ counted_in window.old.items }
    ensures contexts { vec_len idle.new + deque_len window.new ≡ vec_len idle.old + deque_len window.old }
    ensures idle { vec_capacity idle.new ≡ vec_capacity idle.old }
    ensures window { deque_capacity window.new ≡ deque_capacity window.old }
{
    let mut laid = 0;
    while is_ready(window) {
        let end = lay_first(offset, node, outputs, window, idle);
        laid += end.laid;
        if end.has_stopped() {
            return FrontEnd {
                laid,
                closed: end.closed,
                fault: end.fault,
            };
        }
    }
    FrontEnd {
        laid,
        closed: false,
        fault: None,
    }
}

// Lays the first entry of a window, which must be ready.
fn lay_first<C: NodeCalculator>(
    offset: Option<i64>,
    node: u32,
    outputs: &mut [Queue],
    window: &mut VecDeque<Entry<C>>,
    idle: &mut Vec<Context<C>>,
) -> FrontEnd
    requires stands { StandForSome outputs.old }
    requires room { HasRoom outputs.old window.old.items }
    requires ready { starts_ready window.old.items ≡ true }
    requires context { vec_len idle.old < vec_capacity idle.old }
    ensures first { IsFirstLaid offset node outputs.old outputs.new window.old.items window.new.items idle.old.items idle.new.items result }
    ensures gone { deque_len window.new + 1 ≡ deque_len window.old }
    ensures window { deque_capacity window.new ≡ deque_capacity window.old }
    ensures more { vec_len idle.new ≡ vec_len idle.old + 1 }
    ensures idle { vec_capacity idle.new ≡ vec_capacity idle.old }
{
    let Some(entry) = window.pop_front() else {
        unreachable!()
    };
    let phase = entry.phase();
    let (work, answer) = entry.into_performed().into_parts();
    let cause = lay(offset, &phase, outputs, answer);
    idle.push_reserved(work.into_context());
    end(node, &phase, cause)
}

// The result of laying an entry of a phase; `cause` is why the entry couldn't be laid, if it couldn't.
fn end(node: u32, phase: &Phase, cause: Option<Cause>) -> FrontEnd
    ensures { result ≡ front_end_of node phase.now cause }
{
    FrontEnd {
        laid: counted(phase),
        closed: is_close(phase),
        fault: fault_of(node, phase, cause),
    }
}

/// Returns the fault of a node, where `cause` is why an entry of a phase couldn't be laid, or `None` if there is no cause.
pub(crate) fn fault_of(node: u32, phase: &Phase, cause: Option<Cause>) -> Option<NodeFault>
    ensures { result ≡ (front_end_of node phase.now cause).fault }
{
    match cause {
        Some(cause) => Some(NodeFault {
            node,
            phase: *phase,
            cause,
        }),
        None => None,
    }
}

/// Writes the fault of a node that had none, where `cause` is why an entry of a phase couldn't be laid.
#[inline(always)]
pub(crate) fn note_fault(
    fault: &mut Option<NodeFault>,
    node: u32,
    phase: &Phase,
    cause: Option<Cause>,
)
    requires { fault.old ≡ None }
    ensures { fault.new ≡ (front_end_of node phase.now cause).fault }
{
    if cause.is_some() {
        *fault = fault_of(node, phase, cause);
    }
}

// How many sets or calls a phase has: Open and Close aren't counted.
fn counted(phase: &Phase) -> u32
    ensures { result ≡ counted_phase phase.now }
{
    match phase {
        Phase::Open => 0,
        Phase::Call(_) => 1,
        Phase::Process(_) => 1,
        Phase::Close => 0,
    }
}

fn is_close(phase: &Phase) -> bool
    ensures { result ≡ is_close_phase phase.now }
{
    match phase {
        Phase::Open => false,
        Phase::Call(_) => false,
        Phase::Process(_) => false,
        Phase::Close => true,
    }
}
