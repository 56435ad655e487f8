//! The cell of a plan's first node, and making it.
ghost use Rattle.std.specs.Prelude.{◌≡◌, ◌<◌, ◌≤◌, length, slice_get, Some, None, IfOk, OnOk, [], true, All};
ghost use Rattle.mg_calc.specs.Shape.{IsOuter, IsServed, ParametersFit, IsShapeOf};
ghost use Rattle.mg_calc.specs.Plan.{IsValid};
ghost use Rattle.mg_calc.specs.Equations.{IsJob};
ghost use Rattle.mg_calc.specs.declared.plan_node.PlanNode.{PlanNode};
ghost use Rattle.mg_check.specs.Check.{IsOuterShape};
ghost use Rattle.mg_route.specs.TableLaws.{table_laws};
ghost use Rattle.mg_node.specs.Fresh.{fresh_engine};
ghost use Rattle.mg_node.specs.Lawful.{LawfulEngine, LawfulIntake, of_node};
ghost use Rattle.mg_test_cells.specs.Cell.{IsCell, KeepsAll, job_of, held_of};

use mg_calc::{GivenList, Inputs, Law, OuterShape, Plan, PlanNode, TryClone};
use mg_node::{Engine, Intake};
use mg_plans::{do_fit, inputs_of, plan_of};
use mg_route::{Builtin, Holder, LawBox};
use std::alloc::Global;
use std::test::Fail;

/// The first node of a plan, with what waits there and what works there. It has the intake of the collector too, which reads
/// the node's outputs.
#[derive(Drop)]
pub(crate) struct Cell {
    pub(crate) plan: Plan,
    pub(crate) inputs: Inputs,
    pub(crate) engine: Engine<LawBox>,
    pub(crate) intake: Intake,
    pub(crate) sink: Intake,
}

// Returns whether a calculator of a law may be user-supplied.
fn is_outer(law: &Law) -> bool
    ensures { result ≡ true → IsOuter law.now }
{
    match law {
        Law::Count { .. } => false,
        Law::SideOnce { .. } => false,
        Law::Constants => false,
        Law::Loopback => false,
        _ => true,
    }
}

// Returns a box that works by the law of a node.
fn box_of(alloc: Global, node: &PlanNode) -> Result<LawBox, Fail>
    requires ranges { ParametersFit node.now.law }
    requires of_law { IsShapeOf node.now.law node.now.shape }
    requires served { IsServed node.now.law }
    ensures { IfOk result (λ b. b ≡ record { law = node.now.law; shape = node.now.shape; state = []; log = None }) }
{
    if !is_outer(&node.law) {
        return Err(Fail::from("no calculator that is handed in has this law"));
    }
    let outer = OuterShape {
        shape: node.shape.try_clone(alloc)?,
        law: node.law.try_clone(alloc)?,
    };
    Ok(LawBox::new(alloc, outer, false)?)
}

// Returns a calculator for a node. If the node's calculator is user-supplied, it is a box that keeps no log. Else it is
// a calculator by the node's law.
fn calculator_of(alloc: Global, node: &PlanNode) -> Result<Holder<LawBox>, Fail>
    requires ranges { ParametersFit node.now.law }
    requires of_law { IsShapeOf node.now.law node.now.shape }
    requires served { IsServed node.now.law }
    ensures { IfOk result (λ h. h ≡ held_of node.now) }
{
    if node.box_number.is_some() {
        return Ok(Holder::outer(box_of(alloc, node)?));
    }
    Ok(Holder::own(Builtin::new(alloc, &node.law, &node.shape)?))
}

// Returns a calculator for a plan's first node.
fn holder_of(alloc: Global, plan: &Plan) -> Result<Holder<LawBox>, Fail>
    requires { IsValid plan.now }
    ensures told { IfOk result (λ h. (node : PlanNode) → slice_get plan.now.nodes 0 ≡ Some node → h ≡ held_of node) }
    ensures there { OnOk result (0 < length plan.now.nodes) }
{
    let node = plan.nodes.get(0).ok_or("no node")?;
    calculator_of(alloc, node)
}

// Returns the engine of a plan's first node, not begun, or an error if the node has side packets.
fn unbegun(alloc: Global, plan: &Plan) -> Result<Engine<LawBox>, Fail>
    requires { IsValid plan.now }
    ensures fresh { IfOk result (λ e. (node : PlanNode) → slice_get plan.now.nodes 0 ≡ Some node → (node.sides ≡ []) × (e ≡ fresh_engine node 0 (held_of node))) }
    ensures there { OnOk result (0 < length plan.now.nodes) }
{
    let node = plan.nodes.get(0).ok_or("no node")?;
    if !node.sides.is_empty() {
        return Err(Fail::from("a node with side packets"));
    }
    let holder = holder_of(alloc, plan)?;
    match Engine::new(alloc, plan, 0, holder) {
        Ok(engine) => Ok(engine),
        Err(_) => Err(Fail::from("no memory")),
    }
}

// Returns an empty list of side packets.
fn no_sides(alloc: Global) -> Result<GivenList, Fail>
    ensures { IfOk result (λ sides. sides ≡ []) }
{
    Ok(GivenList::from_vec(Vec::new(alloc))?)
}

// Returns the engine of a plan's first node, begun.
fn engine_of(alloc: Global, plan: &Plan, inputs: &Inputs) -> Result<Engine<LawBox>, Fail>
    requires { IsJob (record { plan = plan.now; inputs = inputs.now; laws = table_laws }) }
    ensures lawful { IfOk result (λ e. LawfulEngine (job_of table_laws plan.now inputs.now) (of_node 0) e) }
    ensures none { IfOk result (λ e. e.claimed ≡ 0) }
    ensures keeps { IfOk result (λ e. KeepsAll e) }
{
    let sides = no_sides(alloc)?;
    let mut engine = unbegun(alloc, plan)?;
    match engine.begin(&sides) {
        Ok(()) => Ok(engine),
        Err(_) => {
            drop(engine);
            Err(Fail::from("no memory"))
        }
    }
}

// Returns the intake of a consumer, to which nothing came.
fn intake_of(alloc: Global, plan: &Plan, inputs: &Inputs, consumer: u32) -> Result<Intake, Fail>
    requires job { IsJob (record { plan = plan.now; inputs = inputs.now; laws = table_laws }) }
    requires consumer { consumer ≤ length plan.now.nodes }
    ensures lawful { IfOk result (λ i. LawfulIntake (job_of table_laws plan.now inputs.now) consumer i) }
    ensures none { IfOk result (λ i. i.claimed ≡ 0) }
{
    Ok(Intake::new(alloc, plan, consumer)?)
}

// Returns the intakes of a plan's first node and of the collector, to which nothing came.
fn intakes_of(alloc: Global, plan: &Plan, inputs: &Inputs) -> Result<(Intake, Intake), Fail>
    requires { IsJob (record { plan = plan.now; inputs = inputs.now; laws = table_laws }) }
    ensures lawful { IfOk result (λ i. LawfulIntake (job_of table_laws plan.now inputs.now) 0 i.0) }
    ensures none { IfOk result (λ i. i.0.claimed ≡ 0) }
    ensures sink { IfOk result (λ i. LawfulIntake (job_of table_laws plan.now inputs.now) (length plan.now.nodes) i.1) }
{
    let intake = intake_of(alloc, plan, inputs, 0)?;
    match intake_of(alloc, plan, inputs, plan.nodes.len()) {
        Ok(sink) => Ok((intake, sink)),
        Err(fail) => {
            drop(intake);
            Err(fail)
        }
    }
}

// Returns the engine and the intake of a plan's first node, and the intake of the collector.
fn parts_of(
    alloc: Global,
    plan: &Plan,
    inputs: &Inputs,
) -> Result<(Engine<LawBox>, Intake, Intake), Fail>
    requires { IsValid plan.now }
    ensures { IfOk result (λ p. IsCell table_laws plan.now inputs.now p.0 p.1 p.2) }
{
    if !do_fit(plan, inputs) {
        return Err(Fail::from("inputs don't fit"));
    }
    let engine = engine_of(alloc, plan, inputs)?;
    match intakes_of(alloc, plan, inputs) {
        Ok((intake, sink)) => Ok((engine, intake, sink)),
        Err(fail) => {
            drop(engine);
            Err(fail)
        }
    }
}

// Returns the cell of a plan's first node. The node is begun, and no packet was delivered to it.
fn cell_over(alloc: Global, plan: Plan, inputs: Inputs) -> Result<Cell, Fail>
    requires { IsValid plan }
    ensures { IfOk result (λ c. IsCell table_laws c.plan c.inputs c.engine c.intake c.sink) }
{
    match parts_of(alloc, &plan, &inputs) {
        Ok((engine, intake, sink)) => Ok(Cell {
            plan,
            inputs,
            engine,
            intake,
            sink,
        }),
        Err(fail) => {
            drop(plan);
            drop(inputs);
            Err(fail)
        }
    }
}

/// A graph over packet lines, which are the whole input or its first lines.
#[derive(Clone, Copy)]
pub(crate) struct Given {
    pub(crate) graph: &'static str,
    pub(crate) lines: &'static str,
    pub(crate) ended: bool,
}

/// Returns the cell of a graph's first node, with the user-supplied calculators.
pub(crate) fn cell_of(alloc: Global, given: Given, outers: &[OuterShape]) -> Result<Cell, Fail>
    requires { All IsOuterShape outers.now }
    ensures { IfOk result (λ c. IsCell table_laws c.plan c.inputs c.engine c.intake c.sink) }
{
    let plan = plan_of(alloc, given.graph, outers)?;
    match inputs_of(alloc, &plan, given.lines, given.ended) {
        Ok(inputs) => cell_over(alloc, plan, inputs),
        Err(fail) => {
            drop(plan);
            Err(fail)
        }
    }
}

/// Returns the cell of a graph's first node, which has no user-supplied calculator.
pub(crate) fn own_cell(alloc: Global, given: Given) -> Result<Cell, Fail>
    ensures { IfOk result (λ c. IsCell table_laws c.plan c.inputs c.engine c.intake c.sink) }
{
    let outers: &[OuterShape] = &[];
    let cell = cell_of(alloc, given, outers)?;
    Ok(cell)
}

/// Drops a cell, and returns whether a user-supplied calculator came back.
pub(crate) fn gives_back(cell: Cell) -> bool {
    let Cell {
        plan,
        inputs,
        engine,
        intake,
        sink,
    } = cell;
    drop(plan);
    drop(inputs);
    drop(intake);
    drop(sink);
    match engine.into_calculator() {
        Some(calculator) => {
            drop(calculator);
            true
        }
        None => false,
    }
}
