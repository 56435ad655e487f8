//! A run that computes its answer plainly: the whole input is read, and then its solution is written.
ghost use Rattle.std.specs.Prelude.{◌≡◌, ◌≢◌, ◌<◌, ◌⊎◌, ◌∷◌, [], All, length, map, MatchResult, IfOk, OnErr};
ghost use Rattle.mg_settled.specs.Prefix.{IsPrefix};
ghost use Rattle.mg_settled.specs.Ends.{end_of};
ghost use Rattle.mg_calc.specs.Plan.{IsValid, InputsFit};
ghost use Rattle.mg_calc.specs.Rules.{Laws};
ghost use Rattle.mg_calc.specs.Shape.{IsStated};
ghost use Rattle.mg_feed.specs.Ran.{EndCame};
ghost use Rattle.mg_answer.specs.Text.{sets_text, output_text_of};
ghost use Rattle.mg_answer.specs.Put.{nothing_put, HasPut};
ghost use Rattle.mg_answer.specs.Wrote.{Wrote};
ghost use Rattle.mg_answer.specs.Devices.{device, HasRisen, NoneFailed, TookFront};
ghost use Rattle.mg_answer.specs.Held.{told_by, SameDevices};
ghost use Rattle.mg_answer.specs.Status.{IsOneOf};
ghost use Rattle.mg_answer.specs.Ran.{Ran, RanOut, CameTo, ReadSome, IsAnswered};
ghost use Rattle.mg_answer.specs.Code.Answered.{WroteSome};
ghost use Rattle.mg_feed.specs.Graph.{inputs_of};
ghost use Rattle.mg_answer.specs.Answer.{Read, by_lines};

use crate::concluding::conclude;
use crate::failing::note_out_of_memory;
use crate::reading::read_whole;
use crate::{Devices, Outcomes, OutputText, Run, Status};
use mg_calc::{Inputs, Plan};
use mg_edge::{Sink, Source};
use mg_equations::solve;
use mg_feed::FeedEnd;
use mg_settled::{Prefix, PrefixList, StreamEnd, TimedSet, settled_sets};
use mg_value::Policy;
use std::alloc::{AllocError, Global};

/// Reads packet lines to the input's end, its first fault or its first line that isn't good. Solves the graph's equations for what
/// the lines give. Writes the output text, then the notes, and then the report if it is asked for. No user-supplied calculator is
/// called.
///
/// Once a write to the output has failed nothing more is written to it. The notes are written all the same, and say so.
pub fn solve_input<S: Source, K: Sink, E: Sink>(
    run: &Run<'_>,
    devices: &mut Devices<'_, '_, '_, S, K, E>,
) -> Status
    requires plan { IsValid run.now.plan.now }
    requires unstated { All (λ node. IsStated node.law → ⊥) run.now.plan.now.nodes }
    // What each status means: the answer was written, or a write failed, or memory ran out. This holds whatever the stated laws
    // are, since no node of the graph has a stated law.
    ensures ran { (laws : Laws) → Ran laws run.now.report run.now.plan.now result (told_by S.told K.told E.told devices.old devices.new) }

    // Unless memory ran out, the input was read to its end, its first line that isn't good, or its first fault. In any case it was
    // read once, and no further.
    ensures read { result ≢ Status.OutOfMemory → (read : Read) × CameTo (inputs_of run.now.plan.now) (told_by S.told K.told E.told devices.old devices.new).input read }
    ensures once { ReadSome (inputs_of run.now.plan.now) (told_by S.told K.told E.told devices.old devices.new).input }

    // A run that went well, or in which a node failed or a stream never closed, met the input's end.
    ensures ended { IsOneOf result (Status.Good ∷ Status.NodeFault ∷ Status.Stalled ∷ []) → EndCame (S.told devices.old.input.now) (S.told devices.new.input.now) }

    // If no device failed and memory sufficed, the output's text, the notes and the status are those of the answer to the input's
    // bytes.
    ensures answered { NoneFailed (told_by S.told K.told E.told devices.old devices.new) → result ≢ Status.OutOfMemory
        → (laws : Laws) → IsAnswered laws run.now.report run.now.plan.now result (told_by S.told K.told E.told devices.old devices.new) }

    // Another status never hides a fault of a device.
    ensures read_rose { HasRisen (S.told devices.old.input.now).faults (S.told devices.new.input.now).faults
        → IsOneOf result (Status.ReadFault ∷ Status.WriteFault ∷ Status.OutOfMemory ∷ []) }
    ensures write_rose { HasRisen (K.told devices.old.output.now).faults (K.told devices.new.output.now).faults
        ⊎ HasRisen (E.told devices.old.notes.now).faults (E.told devices.new.notes.now).faults
        → IsOneOf result (Status.WriteFault ∷ Status.OutOfMemory ∷ []) }
    ensures same { SameDevices devices.old devices.new }
{
    solve_whole(run, devices)
}

// Reads the whole input, solves the graph and writes the answer. If memory runs out it notes that alone.
fn solve_whole<S: Source, K: Sink, E: Sink>(
    run: &Run<'_>,
    devices: &mut Devices<'_, '_, '_, S, K, E>,
) -> Status
    requires plan { IsValid run.now.plan.now }
    requires unstated { All (λ node. IsStated node.law → ⊥) run.now.plan.now.nodes }
    ensures ran { (laws : Laws) → Ran laws run.now.report run.now.plan.now result (told_by S.told K.told E.told devices.old devices.new) }
    ensures same { SameDevices devices.old devices.new }
{
    match solve_read(run, devices) {
        Ok(status) => status,
        Err(_) => note_out_of_memory(devices.notes),
    }
}

// Reads the whole input, solves the graph and writes the answer. If memory runs out (`Err`) no note is written.
fn solve_read<S: Source, K: Sink, E: Sink>(
    run: &Run<'_>,
    devices: &mut Devices<'_, '_, '_, S, K, E>,
) -> Result<Status, AllocError>
    requires plan { IsValid run.now.plan.now }
    requires unstated { All (λ node. IsStated node.law → ⊥) run.now.plan.now.nodes }
    ensures ran { IfOk result (λ status. (laws : Laws) → Ran laws run.now.report run.now.plan.now status (told_by S.told K.told E.told devices.old devices.new)) }
    ensures read { OnErr result (ReadSome (inputs_of run.now.plan.now) (told_by S.told K.told E.told devices.old devices.new).input) }
    ensures short { OnErr result ((laws : Laws) → RanOut laws run.now.plan.now (told_by S.told K.told E.told devices.old devices.new)) }
    ensures unnoted { OnErr result (E.told devices.new.notes.now ≡ E.told devices.old.notes.now) }
    ensures same { SameDevices devices.old devices.new }
{
    let whole = read_whole(run.alloc, run.plan, devices.input)?;
    let status = answer(run, &whole.inputs, whole.end, devices.output, devices.notes)?;
    Ok(status)
}

// Solves the job of a plan over inputs, and writes its answer. `end` tells how the input ended.
fn answer<K: Sink, E: Sink>(
    run: &Run<'_>,
    inputs: &Inputs,
    end: FeedEnd,
    output: &mut K,
    notes: &mut E,
) -> Result<Status, AllocError>
    requires plan { IsValid run.now.plan.now }
    requires inputs { InputsFit run.now.plan.now inputs.now }
    requires unstated { All (λ node. IsStated node.law → ⊥) run.now.plan.now.nodes }
    ensures wrote { MatchResult result
        (λ status. (laws : Laws) → Wrote (by_lines run.now.report) (record { plan = run.now.plan.now; inputs = inputs.now; laws = laws }) end status (device (K.told output.old) (K.told output.new)) (device (E.told notes.old) (E.told notes.new)))
        (λ _. (laws : Laws) → WroteSome (record { plan = run.now.plan.now; inputs = inputs.now; laws = laws }) (device (K.told output.old) (K.told output.new))) }
    ensures unnoted { OnErr result (E.told notes.new ≡ E.told notes.old) }
{
    let solved = solve(run.alloc, run.plan, inputs)?;
    let ends = ends_of(run.alloc, solved.prefixes.as_slice())?;
    let text = write_output(run.alloc, run.plan, &solved.prefixes, output)?;
    let outcomes = Outcomes {
        faults: solved.faults,
        sets: solved.sets,
        ends,
        arrivals: Vec::new(run.alloc),
    };
    let status = conclude(run, end, &outcomes, text, output, notes)?;
    Ok(status)
}

// Puts the output text that the streams of a plan make, and writes its whole blocks. Fewer bytes than a block may be left to write.
fn write_output<K: Sink>(
    alloc: Global,
    plan: &Plan,
    streams: &PrefixList,
    output: &mut K,
) -> Result<OutputText, AllocError>
    requires streams { All IsPrefix streams.now }
    requires many { length streams.now ≡ length plan.now.streams }
    requires shown { All (λ s. s < length plan.now.streams) plan.now.outputs }
    ensures { MatchResult result (λ text. HasPut (K.told output.old) (K.told output.new) text (output_text_of plan.now streams.now))
        (λ _. TookFront (device (K.told output.old) (K.told output.new)) (output_text_of plan.now streams.now)) }
{
    let sets = settled_sets(alloc, Policy::Default, streams, &plan.outputs)?;
    let mut text = OutputText::new(alloc, plan)?;
    put_sets(&mut text, sets.as_slice(), output)?;
    Ok(text)
}

// Puts the lines of sets into a new text.
fn put_sets<K: Sink>(
    text: &mut OutputText,
    sets: &[TimedSet],
    output: &mut K,
) -> Result<(), AllocError>
    requires { text.old ≡ nothing_put text.old.names }
    ensures { MatchResult result (λ _. HasPut (K.told output.old) (K.told output.new) text.new (sets_text text.old.names sets.now))
        (λ _. TookFront (device (K.told output.old) (K.told output.new)) (sets_text text.old.names sets.now)) }
{
    for timed in sets {
        text.put_set(&timed.set, output)?;
    }
    Ok(())
}

// Returns how far each stream has come.
fn ends_of(alloc: Global, streams: &[Prefix]) -> Result<Vec<StreamEnd>, AllocError>
    ensures { IfOk result (λ ends. ends.items ≡ map end_of streams.now) }
{
    let mut ends = Vec::with_capacity(alloc, streams.len())?;
    for stream in streams {
        ends.push(stream_end(stream))?;
    }
    Ok(ends)
}

// Returns how far a stream has come.
fn stream_end(stream: &Prefix) -> StreamEnd
    ensures { result ≡ end_of stream.now }
{
    StreamEnd {
        packets: u64::from(stream.packets.len()),
        bound: stream.bound,
    }
}
