//! How the events of a recorded run are made on a net.
ghost use Rattle.std.specs.Prelude.{◌≡◌, ◌+◌, ◌<◌, ◌^◌, List, None, Some, IfOk};
ghost use Rattle.mg_edge.specs.Edge.{SourceTold};
ghost use Rattle.mg_calc.specs.declared.inputs.Inputs.{Inputs};
ghost use Rattle.mg_calc.specs.Told.{BoxTold};
ghost use Rattle.mg_feed.specs.LinesSeen.{reading, line_of, number_of};
ghost use Rattle.mg_sched.specs.StandsFor.{StandsForSome, IsRunning};
ghost use Rattle.mg_sched.specs.Acts.{IsEventOf};
ghost use Rattle.mg_sched.specs.AtRest.{IsAtRest};
ghost use Rattle.mg_sched.specs.Sweeps.{Becomes};
ghost use Rattle.mg_sched.specs.Code.Left.{left_in};
ghost use Rattle.mg_answer.specs.Devices.{device};
ghost use Rattle.mg_replay.specs.Replay.{WasRead};
ghost use Rattle.mg_replay.specs.Reading.{BeginsWithJob, IsMaking};
ghost use Rattle.mg_replay.specs.Code.Reading.{ComesBehind, MakesOn, MakesEvent, MakesLine, TakesEvent, StopsBehind, EndsRun};

use crate::opening::stopped_at;
use crate::{TraceEnd, TraceFault};
use mg_calc::{Effect, Event, NodeCalculator, Plan};
use mg_edge::{Gate, Source};
use mg_feed::{LONGEST_LINE, Lines, NextLine};
use mg_sched::Net;
use mg_trace::event_of;
use std::alloc::AllocError;

/// Makes the events of a recorded run on a net of its plan, one by one, each Process call through the gate. The lines of the run's job were
/// read before, and the net was made for that job and begun.
///
/// Returns how the reading ended. The run is accepted if each line is that of an event that moves the net, and the line `end`
/// follows these lines. The net has to be at rest then, and nothing may stand after `end`. Otherwise the first line that isn't so
/// is refused, with its number among all lines of the source; or a read failed.
///
/// It leaves the net where the events so far led it. If `end` came too early, the function may have made one event of its own. That
/// event performs no work. An event that does nothing leaves the net as it was. If memory runs out, the net is somewhere on its
/// way.
pub fn replay_events<G: Gate, C: NodeCalculator, S: Source>(
    plan: &Plan,
    net: &mut Net<C>,
    gate: &G,
    lines: &mut Lines,
    input: &mut S,
) -> Result<TraceEnd, AllocError>
    requires plan { net.old.plan ≡ plan.now }
    requires running { IsRunning net.old }
    requires stands { StandsForSome C.laws net.old }
    ensures read { IfOk result (λ end. (boxes : List BoxTold) (inputs : Inputs) (first : SourceTold) → IsMaking C.laws plan.now boxes inputs first (S.told input.old) (reading lines.old) (number_of lines.old) net.old
        → WasRead C.laws plan.now boxes (device first (S.told input.new)) (Some inputs) end) }
    ensures rests { IfOk result (λ end. end ≡ TraceEnd.Accepted → IsAtRest C.laws net.new) }
    ensures opened { (boxes : List BoxTold) (inputs : Inputs) (first : SourceTold) → IsMaking C.laws plan.now boxes inputs first (S.told input.old) (reading lines.old) (number_of lines.old) net.old
        → BeginsWithJob plan.now (device first (S.told input.new)) inputs }
    ensures becomes { Becomes C.laws net.old net.new }
{
    'events: loop {
        let stop = next_event(plan, net, gate, lines, input)?;
        match stop {
            Some(end) => return Ok(end),
            None => {}
        }
    }
}

// Reads the next line, and makes its event. Returns how the reading ended, if it did.
fn next_event<G: Gate, C: NodeCalculator, S: Source>(
    plan: &Plan,
    net: &mut Net<C>,
    gate: &G,
    lines: &mut Lines,
    input: &mut S,
) -> Result<Option<TraceEnd>, AllocError>
    requires plan { net.old.plan ≡ plan.now }
    requires running { IsRunning net.old }
    requires stands { StandsForSome C.laws net.old }
    ensures makes { IfOk result (λ stop. (boxes : List BoxTold) (inputs : Inputs) (first : SourceTold) → IsMaking C.laws plan.now boxes inputs first (S.told input.old) (reading lines.old) (number_of lines.old) net.old
        → MakesOn C.laws stop plan.now boxes inputs first (S.told input.new) (reading lines.new) (number_of lines.new) net.new) }
    ensures rests { IfOk result (λ stop. stop ≡ Some TraceEnd.Accepted → IsAtRest C.laws net.new) }
    ensures opened { (boxes : List BoxTold) (inputs : Inputs) (first : SourceTold) → IsMaking C.laws plan.now boxes inputs first (S.told input.old) (reading lines.old) (number_of lines.old) net.old
        → BeginsWithJob plan.now (device first (S.told input.new)) inputs }
    ensures less { IfOk result (λ stop. stop ≡ None → left_in net.new < left_in net.old) }
    ensures becomes { Becomes C.laws net.old net.new }
{
    let before = lines.number();
    let next = lines.next(input, LONGEST_LINE)?;
    match stopped_at(next, before) {
        Some(end) => Ok(Some(end)),
        None => {
            let stop = take_event(plan, net, gate, lines, input)?;
            Ok(stop)
        }
    }
}

// Makes the event of the line that was handed out last, or ends the run if that line is `end`.
fn take_event<G: Gate, C: NodeCalculator, S: Source>(
    plan: &Plan,
    net: &mut Net<C>,
    gate: &G,
    lines: &mut Lines,
    input: &mut S,
) -> Result<Option<TraceEnd>, AllocError>
    requires plan { net.old.plan ≡ plan.now }
    requires running { IsRunning net.old }
    requires stands { StandsForSome C.laws net.old }
    ensures takes { IfOk result (λ stop. TakesEvent C.laws stop plan.now (line_of lines.old) (number_of lines.old) (S.told input.old) (S.told input.new) (reading lines.old) (reading lines.new) (number_of lines.new) net.old net.new) }
    ensures behind { ComesBehind (S.told input.old) (S.told input.new) (reading lines.old) (reading lines.new) }
    ensures becomes { Becomes C.laws net.old net.new }
{
    if lines.line() == b"end".as_slice() {
        let end = end_run(net, lines, input)?;
        return Ok(Some(end));
    }
    let stop = make_line(plan, net, gate, lines.line(), lines.number())?;
    Ok(stop)
}

// Makes the event of a line, which has this number, or refuses the line.
fn make_line<G: Gate, C: NodeCalculator>(
    plan: &Plan,
    net: &mut Net<C>,
    gate: &G,
    line: &[u8],
    number: u64,
) -> Result<Option<TraceEnd>, AllocError>
    requires plan { net.old.plan ≡ plan.now }
    requires running { IsRunning net.old }
    requires stands { StandsForSome C.laws net.old }
    ensures makes { IfOk result (λ stop. MakesLine C.laws stop plan.now line.now number net.old net.new) }
    ensures becomes { Becomes C.laws net.old net.new }
{
    match event_of(line, plan) {
        Some(event) => {
            let stop = make_event(net, gate, event, number)?;
            Ok(stop)
        }
        None => Ok(Some(TraceEnd::Refused {
            line: number,
            cause: TraceFault::BadEvent,
        })),
    }
}

// Makes an event, or refuses its line if the event does nothing. `number` is the number of the line.
fn make_event<G: Gate, C: NodeCalculator>(
    net: &mut Net<C>,
    gate: &G,
    event: Event,
    number: u64,
) -> Result<Option<TraceEnd>, AllocError>
    requires event { IsEventOf net.old event }
    requires running { IsRunning net.old }
    requires stands { StandsForSome C.laws net.old }
    ensures makes { IfOk result (λ stop. MakesEvent C.laws stop event number net.old net.new) }
    ensures becomes { Becomes C.laws net.old net.new }
{
    match net.act(event, gate) {
        Effect::Did => Ok(None),
        Effect::Idle => Ok(Some(TraceEnd::Refused {
            line: number,
            cause: TraceFault::IdleEvent,
        })),
        Effect::OutOfMemory => Err(AllocError),
    }
}

// Ends a run at its last line: the net has to be at rest, and nothing may stand after that line.
fn end_run<C: NodeCalculator, S: Source>(
    net: &mut Net<C>,
    lines: &mut Lines,
    input: &mut S,
) -> Result<TraceEnd, AllocError>
    requires running { IsRunning net.old }
    requires stands { StandsForSome C.laws net.old }
    ensures ends { IfOk result (λ end. EndsRun C.laws end (S.told input.old) (S.told input.new) (reading lines.old) (reading lines.new) (number_of lines.old) net.old net.new) }
    ensures behind { ComesBehind (S.told input.old) (S.told input.new) (reading lines.old) (reading lines.new) }
    ensures becomes { Becomes C.laws net.old net.new }
{
    let number = lines.number();
    let rests = net.rests()?;
    if !rests {
        return Ok(TraceEnd::Refused {
            line: number,
            cause: TraceFault::NotAtRest,
        });
    }
    let next = lines.next(input, LONGEST_LINE)?;
    Ok(behind_end(next, number))
}

// Returns how the reading ends, by what comes after the last line of a run, which has this number.
fn behind_end(next: NextLine, number: u64) -> TraceEnd
    requires { number + 1 < 2 ^ 64 }
    ensures { StopsBehind next number result }
{
    match next {
        NextLine::Line => TraceEnd::Refused {
            line: number + 1,
            cause: TraceFault::AfterEnd,
        },
        NextLine::TooLong => TraceEnd::Refused {
            line: number + 1,
            cause: TraceFault::AfterEnd,
        },
        NextLine::Ended => TraceEnd::Accepted,
        NextLine::Failed => TraceEnd::Failed { lines: number },
    }
}
