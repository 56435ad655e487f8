//! How a net is made, shared, and put together again.
ghost use Rattle.std.specs.Prelude.{◌≡◌, ℕ, ◌^◌, [], IfOk, length};
ghost use Rattle.mg_calc.specs.Plan.{OutersFit};
ghost use Rattle.mg_calc.specs.Equations.{IsJob};
ghost use Rattle.mg_route.specs.TableLaws.{table_laws};
ghost use Rattle.mg_sched.specs.StandsFor.{IsRunning, StandsForSome};
ghost use Rattle.mg_turns.specs.Calls.{key_of, view_of};
ghost use Rattle.mg_workers.specs.Shared.{IsShared};
ghost use Rattle.mg_seats.specs.Held.{HasOutputs, CameOf};

use mg_calc::{Inputs, Plan};
use mg_route::LawBox;
use mg_sched::Net;
use mg_settled::InputSet;
use mg_turns::{NetSeat, SharedNet};
use mg_workers::{Kept, share, unshare};
use std::alloc::{AllocError, Global};

/// A shared net, its first seat, and what stays aside while it is shared.
#[derive(Drop)]
pub struct Shared {
    pub net: SharedNet<LawBox>,
    pub seat: NetSeat<LawBox>,
    pub kept: Kept<LawBox>,
}

// Returns an empty list of calculators.
fn no_boxes(alloc: Global) -> Vec<LawBox>
    ensures { result.items ≡ [] }
{
    Vec::new(alloc)
}

// Makes the net of a plan without user-supplied calculators.
fn net_of(alloc: Global, plan: &Plan, inputs: &Inputs) -> Result<Net<LawBox>, AllocError>
    requires job { IsJob (record { plan = plan.now; inputs = inputs.now; laws = table_laws }) }
    requires none { OutersFit plan.now [] }
    ensures of { IfOk result (λ n. n.plan ≡ plan.now) }
    ensures outputs { IfOk result (λ n. HasOutputs table_laws (length plan.now.outputs) n) }
{
    match Net::new(alloc, plan, inputs, no_boxes(alloc)) {
        Ok(net) => Ok(net),
        Err(_) => Err(AllocError),
    }
}

/// Makes the net of a plan without user-supplied calculators, and begins its nodes.
pub fn begun(alloc: Global, plan: &Plan, inputs: &Inputs) -> Result<Net<LawBox>, AllocError>
    requires job { IsJob (record { plan = plan.now; inputs = inputs.now; laws = table_laws }) }
    requires none { OutersFit plan.now [] }
    ensures running { IfOk result (λ n. IsRunning n) }
    ensures stands { IfOk result (λ n. StandsForSome table_laws n) }
    ensures of { IfOk result (λ n. n.plan ≡ plan.now) }
    ensures outputs { IfOk result (λ n. HasOutputs table_laws (length plan.now.outputs) n) }
{
    let mut net = net_of(alloc, plan, inputs)?;
    net.begin()?;
    Ok(net)
}

/// Shares a net. Its first seat has the whole portion, 2^32. Out of memory: the net is dropped.
pub fn shared_net(alloc: Global, net: Net<LawBox>) -> Result<Shared, AllocError>
    requires running { IsRunning net }
    requires stands { StandsForSome table_laws net }
    ensures shared { IfOk result (λ r. IsShared table_laws r.net r.seat) }
    ensures whole { IfOk result (λ r. (view_of r.seat).portion ≡ 2 ^ 32) }
    ensures kept { IfOk result (λ r. (count : ℕ) → HasOutputs table_laws count net → CameOf table_laws count (key_of r.net) r.kept) }
{
    match share(alloc, net) {
        Ok((net, seat, kept)) => Ok(Shared { net, seat, kept }),
        Err(_) => Err(AllocError),
    }
}

/// Puts a shared net together again, by a seat that has the whole portion.
pub fn together(net: SharedNet<LawBox>, seat: NetSeat<LawBox>, kept: Kept<LawBox>) -> Net<LawBox>
    requires shared { IsShared table_laws net seat }
    requires whole { (view_of seat).portion ≡ 2 ^ 32 }
    requires kept { (count : ℕ) × CameOf table_laws count (key_of net) kept }
    ensures running { IsRunning result }
    ensures outputs { (count : ℕ) → CameOf table_laws count (key_of net) kept → HasOutputs table_laws count result }
{
    let net = unshare(net, seat, kept);
    net
}

/// Takes the next set of a net with one output, and returns whether there was one. If `set` hasn't exactly one place, no set is
/// taken.
pub fn take_next(net: &mut Net<LawBox>, set: &mut InputSet) -> bool
    requires outputs { HasOutputs table_laws 1 net.old }
    ensures outputs { HasOutputs table_laws 1 net.new }
{
    if set.len() != 1 {
        return false;
    }
    let took = net.take_out(set);
    took
}
