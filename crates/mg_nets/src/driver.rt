//! A net with its plan and its inputs.
ghost use Rattle.std.specs.Prelude.{◌≡◌, true, IfOk};
ghost use Rattle.mg_calc.specs.Plan.{IsValid, OutersFit};
ghost use Rattle.mg_calc.specs.Equations.{IsJob};
ghost use Rattle.mg_route.specs.TableLaws.{table_laws};
ghost use Rattle.mg_sched.specs.Views.{NetView};
ghost use Rattle.mg_sched.specs.Acts.{IsEventOf};
ghost use Rattle.mg_nets.specs.Driven.{IsDriven, StandsOver};
ghost use Rattle.mg_nets.specs.Handed.{two_outers};

use crate::boxes::tallies;
use crate::plans::plan_of;
use mg_calc::{Effect, Event, Inputs, Plan};
use mg_edge::{Gate, StillGate};
use mg_plans::{do_fit, inputs_of};
use mg_route::LawBox;
use mg_sched::{Hears, Net, Report};
use mg_settled::InputSet;
use std::alloc::Global;
use std::test::Fail;

/// A net whose nodes are begun, its plan, and the inputs that it was given.
#[derive(Drop)]
pub struct Driver {
    pub plan: Plan,
    pub inputs: Inputs,
    pub net: Net<LawBox>,
}

// Makes the net of a plan over inputs, with two user-supplied calculators. No node is begun.
fn net_of(alloc: Global, plan: &Plan, inputs: &Inputs) -> Result<Net<LawBox>, Fail>
    requires job { IsJob (record { plan = plan.now; inputs = inputs.now; laws = table_laws }) }
    requires fit { OutersFit plan.now two_outers }
    ensures of_plan { IfOk result (λ n. n.plan ≡ plan.now) }
    ensures stands { IfOk result (λ n. StandsOver table_laws plan.now inputs.now n) }
{
    let boxes = tallies(alloc)?;
    match Net::new(alloc, plan, inputs, boxes) {
        Ok(net) => Ok(net),
        Err(_) => Err(Fail::from("no memory")),
    }
}

// Makes the net of a plan over inputs, and begins its nodes.
fn begun(alloc: Global, plan: &Plan, inputs: &Inputs) -> Result<Net<LawBox>, Fail>
    requires job { IsJob (record { plan = plan.now; inputs = inputs.now; laws = table_laws }) }
    requires fit { OutersFit plan.now two_outers }
    ensures { IfOk result (λ n. IsDriven table_laws plan.now inputs.now n) }
{
    let mut net = net_of(alloc, plan, inputs)?;
    match net.begin() {
        Ok(()) => Ok(net),
        Err(_) => {
            drop(net);
            Err(Fail::from("no memory"))
        }
    }
}

// Makes the net of a plan over inputs, and begins its nodes. Inputs that don't fit the plan are an error.
fn net_over(alloc: Global, plan: &Plan, inputs: &Inputs) -> Result<Net<LawBox>, Fail>
    requires valid { IsValid plan.now }
    requires fit { OutersFit plan.now two_outers }
    ensures { IfOk result (λ n. IsDriven table_laws plan.now inputs.now n) }
{
    if !do_fit(plan, inputs) {
        return Err(Fail::from("inputs don't fit"));
    }
    begun(alloc, plan, inputs)
}

/// Makes the net of a plan over inputs, and begins its nodes. Inputs that don't fit the plan are an error.
pub fn driver_over(alloc: Global, plan: Plan, inputs: Inputs) -> Result<Driver, Fail>
    requires valid { IsValid plan }
    requires fit { OutersFit plan two_outers }
    ensures { IfOk result (λ d. IsDriven table_laws d.plan d.inputs d.net) }
{
    match net_over(alloc, &plan, &inputs) {
        Ok(net) => Ok(Driver { plan, inputs, net }),
        Err(fail) => {
            drop(plan);
            drop(inputs);
            Err(fail)
        }
    }
}

/// Makes the net of a graph over packet lines, and begins its nodes.
pub fn driver_of(alloc: Global, graph: &str, lines: &str) -> Result<Driver, Fail>
    ensures { IfOk result (λ d. IsDriven table_laws d.plan d.inputs d.net) }
{
    let plan = plan_of(alloc, graph)?;
    match inputs_of(alloc, &plan, lines, true) {
        Ok(inputs) => driver_over(alloc, plan, inputs),
        Err(fail) => {
            drop(plan);
            Err(fail)
        }
    }
}

/// Drops a net with its plan and its inputs.
pub(crate) fn let_go(driver: Driver) {
    drop(driver);
}

// Returns whether an event's node or edge is of a plan.
fn is_event_of(plan: &Plan, event: Event) -> bool
    ensures { (net : NetView) → net.plan ≡ plan.now → result ≡ true → IsEventOf net event }
{
    match event {
        Event::Deliver { edge } => edge < plan.edges.len(),
        Event::Advance { node } => node < plan.nodes.len(),
        Event::Claim { node } => node < plan.nodes.len(),
        Event::Perform { node, .. } => node < plan.nodes.len(),
        Event::Commit { node, .. } => node < plan.nodes.len(),
        Event::Relax => true,
    }
}

/// Makes a step, and returns its effect. An event of a node or an edge that isn't there is an error.
pub fn act(driver: &mut Driver, event: Event) -> Result<Effect, Fail>
    requires { IsDriven table_laws driver.old.plan driver.old.inputs driver.old.net }
    ensures { IsDriven table_laws driver.new.plan driver.new.inputs driver.new.net }
{
    if !is_event_of(&driver.plan, event) {
        return Err(Fail::from("no such node or edge"));
    }
    Ok(driver.net.act(event, &StillGate))
}

/// Makes steps until none would do anything, each Process call through a gate. The hearer hears of each step that does something.
pub fn sweep<G: Gate, H: Hears>(driver: &mut Driver, gate: &G, hearer: &mut H) -> Result<(), Fail>
    requires { IsDriven table_laws driver.old.plan driver.old.inputs driver.old.net }
    ensures { IsDriven table_laws driver.new.plan driver.new.inputs driver.new.net }
{
    match driver.net.sweep(gate, hearer) {
        Ok(()) => Ok(()),
        Err(_) => Err(Fail::from("no memory")),
    }
}

/// Takes the next set of the graph's outputs, if there is one.
pub(crate) fn take_out(alloc: Global, driver: &mut Driver) -> Result<Option<InputSet>, Fail>
    requires { IsDriven table_laws driver.old.plan driver.old.inputs driver.old.net }
    ensures { IsDriven table_laws driver.new.plan driver.new.inputs driver.new.net }
{
    let mut set = InputSet::new(alloc, driver.plan.outputs.len())?;
    if driver.net.take_out(&mut set) {
        return Ok(Some(set));
    }
    Ok(None)
}

/// Gives up the packets that have come along all edges of their streams.
pub fn trim(driver: &mut Driver)
    requires { IsDriven table_laws driver.old.plan driver.old.inputs driver.old.net }
    ensures { IsDriven table_laws driver.new.plan driver.new.inputs driver.new.net }
{
    driver.net.trim();
}

/// Returns how many packets are in the net.
pub fn held(driver: &Driver) -> u64 {
    driver.net.held()
}

/// Returns how far the net has come.
pub(crate) fn report(alloc: Global, driver: &Driver) -> Result<Report, Fail> {
    Ok(driver.net.report(alloc)?)
}

/// Winds the net up.
pub(crate) fn wind_up(driver: &mut Driver) -> Result<(), Fail>
    requires { IsDriven table_laws driver.old.plan driver.old.inputs driver.old.net }
{
    Ok(driver.net.wind_up()?)
}
