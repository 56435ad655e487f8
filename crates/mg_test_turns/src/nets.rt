//! Sharing the nets of the tests, and taking what comes out of them at the end.
ghost use Rattle.std.specs.Prelude.{◌≡◌, ◌^◌, [], IfOk};
ghost use Rattle.mg_calc.specs.Plan.{IsValid, OutersFit};
ghost use Rattle.mg_route.specs.TableLaws.{table_laws};
ghost use Rattle.mg_sched.specs.StandsFor.{IsRunning};
ghost use Rattle.mg_turns.specs.Calls.{key_of, view_of};
ghost use Rattle.mg_workers.specs.Shared.{IsShared};
ghost use Rattle.mg_seats.specs.Held.{HasOutputs, CameOf};

use mg_calc::{Inputs, OuterShape, Plan};
use mg_edge::StillGate;
use mg_plans::{do_fit, inputs_of, plan_of};
use mg_route::LawBox;
use mg_sched::{Deaf, Net};
use mg_seats::{Shared, begun, shared_net, take_next};
use mg_settled::InputSet;
use mg_tables::show_set_at;
use mg_turns::{NetSeat, SharedNet};
use mg_workers::Kept;
use std::alloc::Global;
use std::test::Fail;

// Returns the net of a plan with one output over inputs, shared before anything came or was laid.
fn shared_over(alloc: Global, plan: &Plan, inputs: &Inputs) -> Result<Shared, Fail>
    requires valid { IsValid plan.now }
    requires none { OutersFit plan.now [] }
    ensures shared { IfOk result (λ r. IsShared table_laws r.net r.seat) }
    ensures whole { IfOk result (λ r. (view_of r.seat).portion ≡ 2 ^ 32) }
    ensures kept { IfOk result (λ r. CameOf table_laws 1 (key_of r.net) r.kept) }
{
    if !do_fit(plan, inputs) {
        return Err(Fail::from("inputs don't fit"));
    }
    if plan.outputs.len() != 1 {
        return Err(Fail::from("not one output"));
    }
    let net = begun(alloc, plan, inputs)?;
    let shared = shared_net(alloc, net)?;
    Ok(shared)
}

// Returns the net of a plan with one output over packet lines, shared before anything came or was laid.
fn shared_by(alloc: Global, plan: &Plan, lines: &str) -> Result<Shared, Fail>
    requires valid { IsValid plan.now }
    requires none { OutersFit plan.now [] }
    ensures shared { IfOk result (λ r. IsShared table_laws r.net r.seat) }
    ensures whole { IfOk result (λ r. (view_of r.seat).portion ≡ 2 ^ 32) }
    ensures kept { IfOk result (λ r. CameOf table_laws 1 (key_of r.net) r.kept) }
{
    let inputs = inputs_of(alloc, plan, lines, true)?;
    let shared = shared_over(alloc, plan, &inputs);
    drop(inputs);
    shared
}

/// Returns the net of a graph with one output over packet lines, shared before anything came or was laid.
pub(crate) fn shared_of(alloc: Global, graph: &str, lines: &str) -> Result<Shared, Fail>
    ensures shared { IfOk result (λ r. IsShared table_laws r.net r.seat) }
    ensures whole { IfOk result (λ r. (view_of r.seat).portion ≡ 2 ^ 32) }
    ensures kept { IfOk result (λ r. CameOf table_laws 1 (key_of r.net) r.kept) }
{
    let outers: &[OuterShape] = &[];
    let plan = plan_of(alloc, graph, outers)?;
    let shared = shared_by(alloc, &plan, lines);
    drop(plan);
    shared
}

// Takes all sets that come out of a net, and returns the last one as a text. There have to be `count` sets.
fn last_taken(alloc: Global, net: &mut Net<LawBox>, count: u32) -> Result<String, Fail>
    requires { HasOutputs table_laws 1 net.old }
{
    let mut set = InputSet::new(alloc, 1)?;
    for _ in 0..count {
        if !take_next(net, &mut set) {
            return Err(Fail::from("a set is missing"));
        }
    }
    if take_next(net, &mut set) {
        return Err(Fail::from("a set too many"));
    }
    show_set_at(alloc, &set)
}

// Sweeps a net, takes all sets that come out, and returns the last one as a text. There have to be `count` sets.
fn last_swept(alloc: Global, net: &mut Net<LawBox>, count: u32) -> Result<String, Fail>
    requires running { IsRunning net.old }
    requires outputs { HasOutputs table_laws 1 net.old }
{
    net.sweep(&StillGate, &mut Deaf)?;
    last_taken(alloc, net, count)
}

/// Sweeps a net, and checks that `count` sets come out, and the last one is `wanted`.
pub(crate) fn expect_last(
    alloc: Global,
    net: Net<LawBox>,
    count: u32,
    wanted: &str,
) -> Result<(), Fail>
    requires running { IsRunning net }
    requires outputs { HasOutputs table_laws 1 net }
{
    let mut net = net;
    let last = last_swept(alloc, &mut net, count);
    drop(net);
    let last = last?;
    if last.as_str() == wanted {
        return Ok(());
    }
    Err(Fail::new(format_args!("{last} is the last")))
}

/// Drops a shared net with its seat.
pub(crate) fn let_go(net: SharedNet<LawBox>, seat: NetSeat<LawBox>, kept: Kept<LawBox>) {
    drop(net);
    drop(seat);
    drop(kept);
}
