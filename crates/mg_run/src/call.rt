ghost use Rattle.std.specs.Prelude.{◌≡◌, ◌≢◌, All, IfSome, length, map};
ghost use Rattle.mg_edge.specs.Edge.{StoreTold};
ghost use Rattle.mg_words.specs.Words.{request_of, command_of};
ghost use Rattle.mg_run.specs.Boxes.{outers_told, MayBeHandedIn};
ghost use Rattle.mg_run.specs.Invocation.{invocation};
ghost use Rattle.mg_run.specs.Devices.{Device, device, with_run, told_at, told_apart, told_by, SameDevices, NoneFailed};
ghost use Rattle.mg_run.specs.Headline.{RunsGraph, ran_statuses, RanGraph};
ghost use Rattle.mg_run.specs.Call.{CallEnded, UsedGraph, IsAnswered, IsOneOf};
ghost use Rattle.mg_run.specs.Code.Action.{use_action, CanBeDone};

use crate::action::Use;
use crate::beginning::{Begun, begin_words};
use mg_answer::{Devices, Run, Status, solve_input};
use mg_calc::NodeCalculator;
use mg_drive::{
    Crew, run_lines, run_lines_alone, run_live_lines, run_live_lines_alone, run_live_made,
    run_live_made_alone, run_made, run_made_alone, trace_lines,
};
use mg_edge::{Gate, Sink, Source, Store};
use mg_replay::replay_lines;
use mg_value::MgText;
use std::alloc::Global;
use std::sync::Wait;
use std::thread::Threads;

/// Does what the words of a command line ask for, and returns the status to exit with. A `run` and a `generate` may call workers, each in a
/// thread of its own. The most that they call is the number of the option `--workers`, or, without the option, the graph's `num_threads`.
/// Without workers the call waits for nobody, and does what `run_alone` does. The number of workers changes nothing of what the call
/// answers.
pub fn run_words<
    R: Threads + Wait + Sync,
    S: Source,
    K: Sink,
    E: Sink,
    T: Store,
    G: Gate + Sync,
    C: NodeCalculator + Send,
>(
    rt: &R,
    alloc: Global,
    words: &[MgText],
    store: &mut T,
    input: &mut S,
    output: &mut K,
    notes: &mut E,
    boxes: &mut Vec<C>,
    gate: &G,
) -> Status
    // What the call came to, by what its words ask for. `what_a_call_came_to` says what follows from that: the cause of each status, what
    // was done to the devices, and which calculators had a call.
    ensures came { CallEnded C.laws (outers_told (map C.told boxes.old.items)) (request_of words.now) result
        (told_apart T.told S.told K.told E.told C.told store.old store.new input.old input.new output.old output.new notes.old notes.new boxes.old boxes.new) }

    // A `run` or a `generate` that reached its graph is one thing. There is one content of each file, one graph and its plan, one reading
    // of the input and one solution. The output, the notes, the status and the calls of every box belong to these. If a node is free, there
    // are also logs, and the notes tell these. The free nodes' rounds over the batches of the input give the logs. Neither the limit of
    // queues nor the number of workers has a part in it.
    ensures headline { IfSome (command_of words.now) (λ command. RunsGraph command.instruction.verb → IsOneOf result ran_statuses
        → RanGraph C.laws (invocation command (outers_told (map C.told boxes.old.items))) result
        (told_apart T.told S.told K.told E.told C.told store.old store.new input.old input.new output.old output.new notes.old notes.new boxes.old boxes.new)) }

    // If no device failed and memory didn't run out, the call gave the answer to the bytes of the files and of the input. The output's
    // text, the notes and the status are those of this answer.
    ensures answered { IfSome (command_of words.now) (λ command.
        NoneFailed (told_apart T.told S.told K.told E.told C.told store.old store.new input.old input.new output.old output.new notes.old notes.new boxes.old boxes.new)
        → result ≢ Status.OutOfMemory
        → IsAnswered C.laws result (invocation command (outers_told (map C.told boxes.old.items)))
        (told_apart T.told S.told K.told E.told C.told store.old store.new input.old input.new output.old output.new notes.old notes.new boxes.old boxes.new)) }
    ensures boxes { length boxes.new.items ≡ length boxes.old.items }
{
    let mut devices = Devices {
        input,
        output,
        notes,
    };
    do_words(alloc, words, &Crew { rt, gate }, boxes, store, &mut devices)
}

/// Does what `run_words` does, in the calling thread. It is handed no runtime, so it waits for nobody, and it returns, whatever the devices
/// give. The number of workers in the words, or in the graph, is taken as 0.
pub fn run_alone<S: Source, K: Sink, E: Sink, T: Store, G: Gate, C: NodeCalculator>(
    alloc: Global,
    words: &[MgText],
    store: &mut T,
    input: &mut S,
    output: &mut K,
    notes: &mut E,
    boxes: &mut Vec<C>,
    gate: &G,
) -> Status
    // What the call came to, by what its words ask for. `what_a_call_came_to` says what follows from that: the cause of each status, what
    // was done to the devices, and which calculators had a call.
    ensures came { CallEnded C.laws (outers_told (map C.told boxes.old.items)) (request_of words.now) result
        (told_apart T.told S.told K.told E.told C.told store.old store.new input.old input.new output.old output.new notes.old notes.new boxes.old boxes.new) }

    // A `run` or a `generate` that reached its graph is one thing. There is one content of each file, one graph and its plan, one reading
    // of the input and one solution. The output, the notes, the status and the calls of every box belong to these. If a node is free, there
    // are also logs, and the notes tell these. The free nodes' rounds over the batches of the input give the logs. Neither the limit of
    // queues nor the number of workers has a part in it.
    ensures headline { IfSome (command_of words.now) (λ command. RunsGraph command.instruction.verb → IsOneOf result ran_statuses
        → RanGraph C.laws (invocation command (outers_told (map C.told boxes.old.items))) result
        (told_apart T.told S.told K.told E.told C.told store.old store.new input.old input.new output.old output.new notes.old notes.new boxes.old boxes.new)) }

    // If no device failed and memory didn't run out, the call gave the answer to the bytes of the files and of the input. The output's
    // text, the notes and the status are those of this answer.
    ensures answered { IfSome (command_of words.now) (λ command.
        NoneFailed (told_apart T.told S.told K.told E.told C.told store.old store.new input.old input.new output.old output.new notes.old notes.new boxes.old boxes.new)
        → result ≢ Status.OutOfMemory
        → IsAnswered C.laws result (invocation command (outers_told (map C.told boxes.old.items)))
        (told_apart T.told S.told K.told E.told C.told store.old store.new input.old input.new output.old output.new notes.old notes.new boxes.old boxes.new)) }
    ensures boxes { length boxes.new.items ≡ length boxes.old.items }
{
    let mut devices = Devices {
        input,
        output,
        notes,
    };
    do_words_alone(alloc, words, gate, boxes, store, &mut devices)
}

// Does what the words ask for. Workers may have a part in it only if the graph of a plan is run.
fn do_words<
    R: Threads + Wait + Sync,
    G: Gate + Sync,
    C: NodeCalculator + Send,
    S: Source,
    K: Sink,
    E: Sink,
    T: Store,
>(
    alloc: Global,
    words: &[MgText],
    crew: &Crew<'_, R, G>,
    boxes: &mut Vec<C>,
    store: &mut T,
    devices: &mut Devices<'_, '_, '_, S, K, E>,
) -> Status
    ensures came { CallEnded C.laws (outers_told (map C.told boxes.old.items)) (request_of words.now) result
        (told_at T.told S.told K.told E.told C.told store.old store.new devices.old devices.new boxes.old boxes.new) }
    ensures same { SameDevices devices.old devices.new }
{
    match begin_words(alloc, words, boxes, store, devices) {
        Begun::Ended(status) => status,
        Begun::Left(used, report, plan) => {
            let run = Run {
                alloc,
                plan: &plan,
                report,
            };
            use_plan(used, &run, crew, boxes, devices)
        }
    }
}

fn do_words_alone<G: Gate, C: NodeCalculator, S: Source, K: Sink, E: Sink, T: Store>(
    alloc: Global,
    words: &[MgText],
    gate: &G,
    boxes: &mut Vec<C>,
    store: &mut T,
    devices: &mut Devices<'_, '_, '_, S, K, E>,
) -> Status
    ensures came { CallEnded C.laws (outers_told (map C.told boxes.old.items)) (request_of words.now) result
        (told_at T.told S.told K.told E.told C.told store.old store.new devices.old devices.new boxes.old boxes.new) }
    ensures same { SameDevices devices.old devices.new }
{
    match begin_words(alloc, words, boxes, store, devices) {
        Begun::Ended(status) => status,
        Begun::Left(used, report, plan) => {
            let run = Run {
                alloc,
                plan: &plan,
                report,
            };
            use_plan_alone(used, &run, gate, boxes, devices)
        }
    }
}

// Runs or solves the graph of a plan, in the way that `used` says.
fn use_plan<
    R: Threads + Wait + Sync,
    G: Gate + Sync,
    C: NodeCalculator + Send,
    S: Source,
    K: Sink,
    E: Sink,
>(
    used: Use,
    run: &Run<'_>,
    crew: &Crew<'_, R, G>,
    boxes: &mut Vec<C>,
    devices: &mut Devices<'_, '_, '_, S, K, E>,
) -> Status
    requires can { CanBeDone (outers_told (map C.told boxes.old.items)) (use_action used run.now.report run.now.plan.now) }
    requires lawful { All MayBeHandedIn (outers_told (map C.told boxes.old.items)) }
    ensures did { (store : Device StoreTold) → UsedGraph C.laws (use_action used run.now.report run.now.plan.now) result
        (with_run store (told_by S.told K.told E.told devices.old devices.new) (device (map C.told boxes.old.items) (map C.told boxes.new.items))) }
    ensures same { SameDevices devices.old devices.new }
{
    match used {
        Use::Run => run_lines(run, crew, boxes, devices),
        Use::RunLive(early) => run_live_lines(run, early, crew, boxes, devices),
        Use::Solve => solve_input(run, devices),
        Use::Generate(number) => run_made(run, number, crew, boxes, devices),
        Use::GenerateLive(number) => run_live_made(run, number, crew, boxes, devices),
        Use::Trace => trace_lines(run, crew.gate, boxes, devices),
        Use::Replay => replay_lines(run, crew.gate, boxes, devices),
    }
}

// As `use_plan`, without workers.
fn use_plan_alone<G: Gate, C: NodeCalculator, S: Source, K: Sink, E: Sink>(
    used: Use,
    run: &Run<'_>,
    gate: &G,
    boxes: &mut Vec<C>,
    devices: &mut Devices<'_, '_, '_, S, K, E>,
) -> Status
    requires can { CanBeDone (outers_told (map C.told boxes.old.items)) (use_action used run.now.report run.now.plan.now) }
    requires lawful { All MayBeHandedIn (outers_told (map C.told boxes.old.items)) }
    ensures did { (store : Device StoreTold) → UsedGraph C.laws (use_action used run.now.report run.now.plan.now) result
        (with_run store (told_by S.told K.told E.told devices.old devices.new) (device (map C.told boxes.old.items) (map C.told boxes.new.items))) }
    ensures same { SameDevices devices.old devices.new }
{
    match used {
        Use::Run => run_lines_alone(run, gate, boxes, devices),
        Use::RunLive(early) => run_live_lines_alone(run, early, gate, boxes, devices),
        Use::Solve => solve_input(run, devices),
        Use::Generate(number) => run_made_alone(run, number, gate, boxes, devices),
        Use::GenerateLive(number) => run_live_made_alone(run, number, gate, boxes, devices),
        Use::Trace => trace_lines(run, gate, boxes, devices),
        Use::Replay => replay_lines(run, gate, boxes, devices),
    }
}
