//! Writes the events of a net while it runs to rest.
ghost use Rattle.std.specs.Prelude.{◌≡◌, false, codes, ℕ, List, [], OnOk, IfOk, OnErr};
ghost use Rattle.mg_edge.specs.Edge.{SinkTold};
ghost use Rattle.mg_node.specs.Job.{LoggedJob};
ghost use Rattle.mg_answer.specs.Put.{HasPutIn};
ghost use Rattle.mg_sched.specs.StandsFor.{StandsFor, StandsForSome, IsRunning};
ghost use Rattle.mg_sched.specs.AtRest.{IsAtRest};
ghost use Rattle.mg_drive.specs.Nets.{Keeps};
ghost use Rattle.mg_drive.specs.Code.Tracing.{HasRecorded, HasRecordedSome};

use crate::{EventText, OneThread};
use mg_answer::{BlockText, OutputText, Puts};
use mg_calc::NodeCalculator;
use mg_edge::{Gate, Sink};
use std::alloc::{AllocError, Global};

// The last line of a trace.
#[derive(Drop)]
struct LastLine;

impl Puts for LastLine {
    ghost use Rattle.std.specs.Prelude.{codes};

    ghost says = { λ line. codes "end\n" };

    fn put_at(&self, text: &mut Vec<u8>) -> Result<(), AllocError> {
        text.extend_from_slice(b"end\n")?;
        Ok(())
    }
}

/// Runs a net to rest, and appends the line of each event that it makes to a text. Then it appends the last line of a trace. If there is no
/// memory for a line, no more lines are put. The net still runs to rest if memory suffices for that.
pub fn record_run<G: Gate, C: NodeCalculator, K: Sink>(
    alloc: Global,
    net: &mut OneThread<'_, C, G>,
    blocks: BlockText,
    output: &mut K,
) -> Result<OutputText, AllocError>
    requires running { IsRunning net.old.net }
    requires stands { StandsForSome C.laws net.old.net }
    ensures rest { OnOk result (IsAtRest C.laws net.new.net) }
    ensures running { IsRunning net.new.net }
    ensures stands { (job : LoggedJob C.laws) → StandsFor job net.old.net → StandsFor job net.new.net }
    ensures keeps { Keeps net.old.net net.new.net }
    ensures recorded { IfOk result (λ text. (first : SinkTold) (lines : List ℕ) → HasPutIn first (K.told output.old) blocks lines
        → HasRecorded C.laws first (K.told output.new) (record { kept = text.kept; failed = text.failed }) lines (codes "end\n") net.old.net net.new.net) }
    ensures short { OnErr result ((first : SinkTold) (lines : List ℕ) → HasPutIn first (K.told output.old) blocks lines
        → HasRecordedSome C.laws first (K.told output.new) lines net.old.net) }
{
    let mut blocks = blocks;
    record_events(net, &mut blocks, output)?;
    blocks.put(&LastLine, output)?;
    Ok(OutputText::of_blocks(alloc, blocks))
}

// Runs a net to rest, and appends the line of each event to a text.
fn record_events<G: Gate, C: NodeCalculator, K: Sink>(
    net: &mut OneThread<'_, C, G>,
    blocks: &mut BlockText,
    output: &mut K,
) -> Result<(), AllocError>
    requires running { IsRunning net.old.net }
    requires stands { StandsForSome C.laws net.old.net }
    ensures rest { OnOk result (IsAtRest C.laws net.new.net) }
    ensures running { IsRunning net.new.net }
    ensures stands { (job : LoggedJob C.laws) → StandsFor job net.old.net → StandsFor job net.new.net }
    ensures keeps { Keeps net.old.net net.new.net }
    ensures recorded { OnOk result ((first : SinkTold) (lines : List ℕ) → HasPutIn first (K.told output.old) blocks.old lines
        → HasRecorded C.laws first (K.told output.new) blocks.new lines [] net.old.net net.new.net) }
    ensures short { OnErr result ((first : SinkTold) (lines : List ℕ) → HasPutIn first (K.told output.old) blocks.old lines
        → HasRecordedSome C.laws first (K.told output.new) lines net.old.net) }
{
    let mut events = EventText {
        blocks,
        output,
        out_of_memory: false,
    };
    hear_run(net, &mut events)
}

// Runs a net to rest, and lets a text that has all lines so far hear its events.
fn hear_run<G: Gate, C: NodeCalculator, K: Sink>(
    net: &mut OneThread<'_, C, G>,
    events: &mut EventText<'_, '_, K>,
) -> Result<(), AllocError>
    requires running { IsRunning net.old.net }
    requires stands { StandsForSome C.laws net.old.net }
    requires memory { events.old.out_of_memory ≡ false }
    ensures rest { OnOk result (IsAtRest C.laws net.new.net) }
    ensures running { IsRunning net.new.net }
    ensures stands { (job : LoggedJob C.laws) → StandsFor job net.old.net → StandsFor job net.new.net }
    ensures keeps { Keeps net.old.net net.new.net }
    ensures same { (events.new.blocks.ghost_name ≡ events.old.blocks.ghost_name) × (events.new.output.ghost_name ≡ events.old.output.ghost_name) }
    ensures recorded { OnOk result ((first : SinkTold) (lines : List ℕ) → HasPutIn first (K.told events.old.output.now) events.old.blocks.now lines
        → HasRecorded C.laws first (K.told events.new.output.now) events.new.blocks.now lines [] net.old.net net.new.net) }
    ensures short { OnErr result ((first : SinkTold) (lines : List ℕ) → HasPutIn first (K.told events.old.output.now) events.old.blocks.now lines
        → HasRecordedSome C.laws first (K.told events.new.output.now) lines net.old.net) }
{
    net.net.sweep(net.gate, events)?;
    if events.out_of_memory {
        return Err(AllocError);
    }
    Ok(())
}
