//! Threads on one net, whose answers add up.
ghost use Rattle.mg_route.specs.TableLaws.{table_laws};
ghost use Rattle.std.specs.Prelude.{◌≡◌, ◌≤◌, ◌+◌, ◌^◌};
ghost use Rattle.std.specs.Thread.{IsSync};
ghost use Rattle.mg_turns.specs.Calls.{view_of};
ghost use Rattle.mg_workers.specs.Shared.{IsShared, StaysShared};

use crate::nets::{expect_last, let_go, shared_of};
use mg_route::LawBox;
use mg_seats::{Shared, append, run, together};
use mg_turns::{NetSeat, SharedNet};
use std::alloc::Global;
use std::test::Fail;
use std::thread::{Threads, join};

/// What a thread gives back: its seat, how many works it has committed, and how many packets it has brought along edges.
#[derive(Drop)]
struct Worked {
    seat: NetSeat<LawBox>,
    done: u64,
    brought: u64,
}

// Works at each node once, at most three works under one pair of turns, and returns how many are committed.
fn run_all(alloc: Global, net: &SharedNet<LawBox>, seat: &mut NetSeat<LawBox>) -> u64
    requires { IsShared table_laws net.now seat.old }
    ensures { StaysShared table_laws net.now seat.old seat.new }
{
    let mut done = 0_u64;
    for node in 0..net.nodes() {
        let more = run(alloc, net, seat, node, 3);
        done = done.saturating_add(u64::from(more));
    }
    done
}

// Brings packets along each of the two edges once, and returns how many.
fn bring_all(net: &SharedNet<LawBox>, seat: &mut NetSeat<LawBox>) -> u64
    requires { IsShared table_laws net.now seat.old }
    ensures { StaysShared table_laws net.now seat.old seat.new }
{
    let mut brought = 0_u64;
    for edge in 0..2 {
        if let Some((packets, _)) = append(net, seat, edge) {
            brought = brought.saturating_add(u64::from(packets));
        }
    }
    brought
}

// Works at all nodes and brings packets along all edges, `rounds` times over.
fn work(alloc: Global, net: &SharedNet<LawBox>, seat: NetSeat<LawBox>, rounds: u32) -> Worked
    requires { IsShared table_laws net.now seat }
    ensures { StaysShared table_laws net.now seat result.seat }
{
    let mut seat = seat;
    let mut done = 0_u64;
    let mut brought = 0_u64;
    for _ in 0..rounds {
        done = done.saturating_add(run_all(alloc, net, &mut seat));
        brought = brought.saturating_add(bring_all(net, &mut seat));
    }
    Worked {
        seat,
        done,
        brought,
    }
}

// Joins the seats and the counts that two threads give back.
fn both(net: &SharedNet<LawBox>, one: Worked, other: Worked) -> Worked
    requires shared { IsShared table_laws net.now one.seat × IsShared table_laws net.now other.seat }
    requires portions { (view_of one.seat).portion + (view_of other.seat).portion ≤ 2 ^ 32 }
    ensures shared { IsShared table_laws net.now result.seat }
    ensures portion { (view_of result.seat).portion ≡ (view_of one.seat).portion + (view_of other.seat).portion }
{
    let mut seat = one.seat;
    seat.join(net, other.seat);
    Worked {
        seat,
        done: one.done.saturating_add(other.done),
        brought: one.brought.saturating_add(other.brought),
    }
}

// Lets `threads` threads work side by side, at least one. The seats of all are joined to the seat that comes back.
#[cycle(many)]
fn many<R: Threads + Sync>(
    rt: &R,
    alloc: Global,
    net: &SharedNet<LawBox>,
    seat: NetSeat<LawBox>,
    threads: u32,
    rounds: u32,
) -> Worked
    requires bounds { IsSync R.row }
    requires shared { IsShared table_laws net.now seat }
    requires portion { (threads ≤ (view_of seat).portion) × ((view_of seat).portion ≤ 2 ^ 32) }
    ensures { StaysShared table_laws net.now seat result.seat }
{
    if threads <= 1 {
        return work(alloc, net, seat, rounds);
    }
    let mut mine = seat;
    let theirs = mine.split(net, 1);
    let others = threads - 1;
    let most = move || -> Worked
        requires { IsSync R.row × IsShared table_laws net.now mine × (others ≤ (view_of mine).portion) × ((view_of mine).portion ≤ 2 ^ 32) }
        ensures { StaysShared table_laws net.entry.now mine result.seat }
    { many(rt, alloc, net, mine, others, rounds) };
    let last = move || -> Worked
        requires { IsShared table_laws net.now theirs }
        ensures { StaysShared table_laws net.entry.now theirs result.seat }
    { work(alloc, net, theirs, rounds) };
    let (all, other) = join(rt, most, last);
    both(net, all, other)
}

// Returns the graph of a source of 1,000 packets, and a node through which they go. The source has 1,000 calls, the
// node has 1,000 sets, and each has Close.
fn counting() -> &'static str {
    r#"output_stream: "out"
node { calculator: "CountingSourceCalculator" output_stream: "in"
  node_options: { [type.googleapis.com/mediapipe.CountingSourceCalculatorOptions] { count: 1000 } } }
node { calculator: "PassThroughCalculator" input_stream: "in" output_stream: "out" }"#
}

// Lets some threads work, and then lets one thread do the works that they left.
fn all_work<R: Threads + Sync>(
    rt: &R,
    alloc: Global,
    net: &SharedNet<LawBox>,
    seat: NetSeat<LawBox>,
    threads: u32,
) -> Worked
    requires shared { IsShared table_laws net.now seat }
    requires portion { (threads ≤ (view_of seat).portion) × ((view_of seat).portion ≡ 2 ^ 32) }
    ensures { StaysShared table_laws net.now seat result.seat }
{
    let most = many(rt, alloc, net, seat, threads, 40);
    let rest = work(alloc, net, most.seat, 400);
    Worked {
        seat: rest.seat,
        done: most.done.saturating_add(rest.done),
        brought: most.brought.saturating_add(rest.brought),
    }
}

// Checks that what some threads answer adds up: as many works are committed as there are, and as many packets are brought.
fn add_up<R: Threads + Sync>(rt: &R, alloc: Global, threads: u32) -> Result<(), Fail> {
    let Shared { net, seat, kept } = shared_of(alloc, counting(), "")?;
    let Worked {
        seat,
        done,
        brought,
    } = all_work(rt, alloc, &net, seat, threads);
    if done != 2002 || brought != 2000 {
        let_go(net, seat, kept);
        return Err(Fail::new(format_args!("{done} works, {brought} packets")));
    }
    expect_last(alloc, together(net, seat, kept), 1000, "999@999")
}

#[test]
fn the_answers_of_two_threads_add_up(rt: HostRuntime) -> Result<(), Fail> {
    add_up(&rt, rt.alloc(), 2)
}

#[test]
fn the_answers_of_four_threads_add_up(rt: HostRuntime) -> Result<(), Fail> {
    add_up(&rt, rt.alloc(), 4)
}
