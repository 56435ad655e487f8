//! Making engines.
ghost use Rattle.std.specs.Prelude.{◌≡◌, ◌<◌, ℕ, true, List, IfErr, length, slice_get, Some, slice_index_or, IfOk};
ghost use Rattle.mg_route.specs.HolderView.{HolderView, holder_view};
ghost use Rattle.mg_value.specs.Payload.{Plain};
ghost use Rattle.mg_settled.specs.Prefix.{StreamPrefix, IsPrefix, empty_prefix};
ghost use Rattle.mg_node.specs.Job.{LoggedJob, Solves};
ghost use Rattle.mg_node.specs.Lawful.{of_input, LawfulEngine};
ghost use Rattle.mg_node.specs.Outputs.{input_engine};
ghost use Rattle.mg_node.specs.declared.role.Role as Role;
ghost use Rattle.mg_node.specs.Fresh.{fresh_engine};
ghost use Rattle.mg_node.specs.Begun.{IsHanded, LawfulUnbegun};
ghost use Rattle.mg_calc.specs.Plan.{IsValid};
ghost use Rattle.mg_calc.specs.declared.plan_node.PlanNode as PlanNode;

use super::Engine;
use crate::laid::queue_of;
use crate::parts::{empty_outputs, first_of, own_contexts, role_of};
use crate::{Context, Role};
use mg_calc::{NodeCalculator, Plan, PlanNode};
use mg_route::Holder;
use mg_settled::{InputSet, Prefix};
use std::alloc::{AllocError, Global};
use std::collections::VecDeque;

impl<C: NodeCalculator> Engine<C> {
    /// Makes the engine of a node of a plan, with the calculator in `holder`, not begun. If several sets may be worked on at once, makes
    /// the further calculators itself. Out of memory: hands the calculator back.
    pub fn new(
        alloc: Global,
        plan: &Plan,
        node: u32,
        holder: Holder<C>,
    ) -> Result<Engine<C>, Holder<C>>
        requires valid { IsValid plan.now }
        requires node { node < length plan.now.nodes }
        ensures engine { (planned : PlanNode) → slice_get plan.now.nodes node ≡ Some planned → IfOk result (λ e. e ≡ fresh_engine planned node holder) }
        ensures returned { IfErr result (λ h. h ≡ holder) }

        // The engine isn't begun, and as such it is lawful for every job that has such a calculator for this node.
        ensures lawful { (job : LoggedJob C.laws) (planned : PlanNode) → job.job.plan ≡ plan.now → IsHanded job node planned holder
            → IfOk result (λ e. LawfulUnbegun job node e) }
    {
        let planned = &plan.nodes.as_slice()[node as usize];
        let Ok(outputs) = empty_outputs(alloc, planned.outputs.len()) else {
            return Err(holder);
        };
        let Ok(window) = VecDeque::with_capacity(alloc, planned.in_flight as usize) else {
            return Err(holder);
        };
        let Ok(set) = InputSet::new(alloc, planned.inputs.len()) else {
            return Err(holder);
        };
        let Ok(mut idle) = own_contexts(alloc, planned, planned.in_flight - 1) else {
            return Err(holder);
        };
        let context = Context::new(alloc, holder, set)?;
        idle.push_reserved(context);
        Ok(Engine {
            alloc,
            role: role_of(&planned.law),
            node,
            first: first_of(&planned.outputs),
            offset: planned.shape.offset,
            in_flight: planned.in_flight,
            inputs: planned.inputs.len(),
            outputs,
            laid: 0,
            claimed: 0,
            window,
            idle,
            begun: false,
            closed: false,
            fault: None,
        })
    }

    /// Puts a user-supplied calculator into an engine that was made with another calculator and isn't begun. Takes no memory.
    pub fn hand_in(&mut self, calculator: C)
        ensures { (planned : PlanNode) (number : ℕ) (told : HolderView) → self.old ≡ fresh_engine planned number told
            → self.new ≡ fresh_engine planned number (holder_view true (C.told calculator)) }
    {
        let Some(context) = self.idle.pop() else {
            return;
        };
        self.idle.push_reserved(context.with(calculator));
    }

    /// Makes the engine of a graph input: its one output has what is known of the input's stream, whose payloads are shared.
    pub fn of_input(
        alloc: Global,
        plan: &Plan,
        input: u32,
        prefix: &Prefix,
    ) -> Result<Engine<C>, AllocError>
        requires input { input < length plan.now.inputs }
        requires prefix { IsPrefix prefix.now }
        ensures engine { IfOk result (λ e. e ≡ input_engine input (slice_index_or plan.now.inputs input 0) prefix.now) }

        // The engine is lawful for every job that has this input.
        ensures lawful { (job : LoggedJob C.laws) (streams : List (StreamPrefix Plain)) → job.job.plan ≡ plan.now → Solves job streams → slice_index_or streams input empty_prefix ≡ prefix.now
            → IfOk result (λ e. LawfulEngine job (of_input input) e) }
    {
        let first = plan.inputs.as_slice()[input as usize];
        let outputs = vec![in alloc; queue_of(alloc, prefix)?]?;
        Ok(Engine {
            alloc,
            role: Role::Input,
            node: input,
            first,
            offset: None,
            in_flight: 0,
            inputs: 0,
            outputs,
            laid: 0,
            claimed: 0,
            window: VecDeque::new(alloc),
            idle: Vec::new(alloc),
            begun: true,
            closed: false,
            fault: None,
        })
    }
}
