//! The whole input of a run, which is read at once.
ghost use Rattle.std.specs.Prelude.{◌≡◌, ◌≢◌, [], false, IfOk, OnErr};
ghost use Rattle.mg_calc.specs.Plan.{IsValid, InputsFit};
ghost use Rattle.mg_feed.specs.Graph.{inputs_of};
ghost use Rattle.mg_feed.specs.Stands.{HasAccepted, nothing_taken};
ghost use Rattle.mg_feed.specs.FeedSeen.{seen, fed};
ghost use Rattle.mg_answer.specs.Devices.{device};
ghost use Rattle.mg_answer.specs.Gathered.{GatheredInputs};
ghost use Rattle.mg_answer.specs.Ran.{ReadSome};

use crate::told::{is_ended, ran_out};
use mg_calc::{Inputs, Plan};
use mg_edge::Source;
use mg_feed::{Feed, FeedEnd};
use std::alloc::{AllocError, Global};

/// A whole input: how it ended, and what its lines give a graph.
#[derive(Drop)]
pub struct WholeInput {
    pub end: FeedEnd,
    pub inputs: Inputs,
}

/// Reads packet lines for a plan to the input's end, its first fault or its first line that isn't good. An `Err` means that memory
/// ran out: some of the input may have been read.
pub fn read_whole<S: Source>(
    alloc: Global,
    plan: &Plan,
    input: &mut S,
) -> Result<WholeInput, AllocError>
    requires { IsValid plan.now }
    ensures gathered { IfOk result (λ whole. GatheredInputs (inputs_of plan.now) (device (S.told input.old) (S.told input.new)) whole.end whole.inputs) }
    ensures short { OnErr result (ReadSome (inputs_of plan.now) (device (S.told input.old) (S.told input.new))) }
    ensures fits { IfOk result (λ whole. InputsFit plan.now whole.inputs) }
{
    let feed = Feed::new(alloc, plan)?;
    let whole = read_feed(feed, input);
    if ran_out(whole.end) {
        return Err(AllocError);
    }
    Ok(whole)
}

// Reads the input into a feed that has read nothing yet.
fn read_feed<S: Source>(mut feed: Feed, input: &mut S) -> WholeInput
    requires stands { HasAccepted [] (nothing_taken (seen feed).graph) (seen feed) }
    requires unread { (fed feed).read ≡ record { kept = []; ended = false } }
    ensures read { ReadSome (seen feed).graph (device (S.told input.old) (S.told input.new)) }
    ensures gathered { result.end ≢ FeedEnd.OutOfMemory → GatheredInputs (seen feed).graph (device (S.told input.old) (S.told input.new)) result.end result.inputs }
{
    let end = feed.read_all(input);
    let inputs = feed.into_inputs(is_ended(end));
    WholeInput { end, inputs }
}
