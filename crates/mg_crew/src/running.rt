//! Runs a net by workers.
ghost use Rattle.std.specs.Prelude.{◌≡◌, ◌^◌};
ghost use Rattle.mg_calc.specs.Plan.{IsValid};
ghost use Rattle.mg_sched.specs.StandsFor.{StandsForSome, IsRunning};
ghost use Rattle.mg_turns.specs.Calls.{key_of, view_of};
ghost use Rattle.mg_workers.specs.Shared.{IsShared, StaysShared};
ghost use Rattle.mg_workers.specs.Became.{Became};
ghost use Rattle.mg_crew.specs.Leaves.{Leaves};

use crate::crew::crew;
use crate::putting::Place;
use crate::shop::{Shop, tools_of};
use mg_calc::{NodeCalculator, Plan};
use mg_edge::Gate;
use mg_sched::Net;
use mg_turns::{NetSeat, SharedNet};
use mg_workers::{share, unshare};
use std::alloc::Global;
use std::sync::Wait;
use std::thread::Threads;

// How a net is run: by how many workers, and through which gate each Process call goes.
#[derive(Drop)]
struct Executor<'a, G: Gate> {
    alloc: Global,
    workers: u32,
    gate: &'a G,
}

// Runs a shared net by at least one worker. Returns a seat with all portions, and how many turns were in vain. If there is no
// memory for what workers need, nothing is done.
fn run_shared<C: NodeCalculator + Send, R: Threads + Wait + Sync, G: Gate + Sync>(
    rt: &R,
    executor: &Executor<'_, G>,
    net: &SharedNet<C>,
    seat: NetSeat<C>,
    plan: &Plan,
) -> (NetSeat<C>, u64)
    requires shared { IsShared C.laws net.now seat }
    requires whole { (view_of seat).portion ≡ 2 ^ 32 }
    requires valid { IsValid plan.now }
    requires plan { plan.now ≡ (key_of net.now).plan }
    ensures { StaysShared C.laws net.now seat result.0 }
{
    match tools_of(executor.alloc, plan) {
        Ok((tools, place)) => {
            let shop = Shop {
                alloc: executor.alloc,
                net,
                tools: &tools,
                gate: executor.gate,
            };
            let seat = crew(rt, &shop, seat, Place::new(place), executor.workers);
            (seat, tools.board.vain())
        }
        Err(_) => (seat, 0),
    }
}

/// Lets workers run a net whose nodes are begun, side by side, until none of them finds anything to do (MediaPipe's
/// documentation, Synchronization). While queues are full, feeders are held back, until nothing else can be done (Real-time
/// Streams). What workers leave undone, for instance when out of memory, is left to a sweep. Nothing says how far the workers
/// come: without memory for sharing the net, or with no workers, nothing is done. Returns the net, and how many turns were in
/// vain: a worker found them with another worker, or took them and did nothing. Tests and measurements read that count, and no
/// answer depends on it.
pub fn run_workers<C: NodeCalculator + Send, R: Threads + Wait + Sync, G: Gate + Sync>(
    rt: &R,
    alloc: Global,
    net: Net<C>,
    workers: u32,
    gate: &G,
) -> (Net<C>, u64)
    requires running { IsRunning net }
    requires stands { StandsForSome C.laws net }
    ensures running { IsRunning result.0 }
    ensures became { Became C.laws net result.0 }

    // The net is as it was; or its claimed works stand in their windows again; or each of its parts only grew.
    ensures left { Leaves C.laws net result.0 }
{
    if workers == 0 {
        return (net, 0);
    }
    match share(alloc, net) {
        Ok((shared, seat, kept)) => {
            let executor = Executor {
                alloc,
                workers,
                gate,
            };
            let (seat, vain) = run_shared(rt, &executor, &shared, seat, kept.plan());
            (unshare(shared, seat, kept), vain)
        }
        Err(net) => (net, 0),
    }
}
