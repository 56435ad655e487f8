//! How far a node has come, and how it goes on once its input streams have grown.
ghost use Rattle.std.specs.Prelude.{◌≡◌, ◌<◌, ◌≤◌, ◌+◌, ◌^◌, ◌==◌, ◌∷◌, [], All, length, replicate, slice_index_or, IfOk, OnOk};
ghost use Rattle.std.specs.List.{fold};
ghost use Rattle.mg_time.specs.Time.{pre_stream, done};
ghost use Rattle.mg_settled.specs.Prefix.{IsPrefix};
ghost use Rattle.mg_settled.specs.Settled.{settled_sets, port_of, inputs_of as inputs_at};
ghost use Rattle.mg_settled.specs.Left.{without_first, gone_of};
ghost use Rattle.mg_calc.specs.Shape.{IsServed, IsOuter, IsShapeOf};
ghost use Rattle.mg_calc.specs.Plan.{HasNumbers};
ghost use Rattle.mg_calc.specs.Law.{table_rules};
ghost use Rattle.mg_calc.specs.Outcome.{shown};
ghost use Rattle.mg_equations.specs.Code.Seen.{seen};
ghost use Rattle.mg_equations.specs.Code.Progress.{AreWithin, CanGoOn, ShowsMore, AnswersMore, NodeGoesOn};

use crate::outcome::Outcome;
use crate::output::Output;
use mg_calc::{Law, PlanNode};
use mg_settled::{Rest, TimedSet, reach, take_answers, take_sets};
use mg_time::Timestamp;
use mg_value::NumberList;
use std::alloc::{AllocError, Global};

/// What is kept of a node from round to round.
#[derive(Debug, Drop)]
pub struct Progress {
    /// What has become of the node.
    pub outcome: Outcome,
    /// How many packets the node has read, at each of its input ports.
    pub read: Vec<usize>,
    /// How far the sets reach that the node was shown: a further one stands there or above.
    pub reached: Timestamp,
}

impl Progress {
    /// Returns the progress of a node that has read nothing.
    pub fn begun(alloc: Global, node: &PlanNode, outcome: Outcome) -> Result<Progress, AllocError>
        ensures outcome { IfOk result (λ progress. progress.outcome ≡ outcome) }
        ensures read { IfOk result (λ progress. progress.read.items ≡ replicate (length node.now.inputs) 0) }
        ensures reached { IfOk result (λ progress. progress.reached ≡ pre_stream) }
    {
        Ok(Progress {
            outcome,
            read: nothing_read(alloc, node.inputs.len())?,
            reached: Timestamp::PRE_STREAM,
        })
    }

    /// Lets the node go on with input streams that have grown. A source has ended and stays, and a loopback answers further
    /// packets of MAIN. Every other node is shown its further settled sets.
    pub fn go_on(
        &mut self,
        alloc: Global,
        node: &PlanNode,
        streams: &[Output],
    ) -> Result<(), AllocError>
        requires streams { All IsPrefix streams.now }
        requires known { All (λ i. i < length streams.now) node.now.inputs }
        requires ports { HasNumbers node.now }
        requires shape { IsShapeOf node.now.law node.now.shape }
        requires served { IsServed node.now.law }
        requires can { CanGoOn node.now (inputs_at streams.now node.now.inputs) self.old }
        ensures { OnOk result (NodeGoesOn node.now.law node.now (inputs_at streams.now node.now.inputs) self.old self.new) }
    {
        match &node.law {
            Law::Count { .. } | Law::SideOnce { .. } | Law::Constants => Ok(()),
            Law::Loopback => {
                let (main, back) = (port(streams, node, 1), port(streams, node, 0));
                self.answer(alloc, main, back)
            }
            _ => self.show(alloc, node, streams),
        }
    }

    // Shows the node its further settled sets. If the sets before reached Done, there are no further ones.
    fn show(&mut self, alloc: Global, node: &PlanNode, streams: &[Output]) -> Result<(), AllocError>
        requires law { IsOuter node.now.law }
        requires served { IsServed node.now.law }
        requires streams { All IsPrefix streams.now }
        requires known { All (λ i. i < length streams.now) node.now.inputs }
        requires within { AreWithin self.old.read.items (inputs_at streams.now node.now.inputs) }
        requires room { self.old.outcome.taken + length (settled_sets node.now.policy (without_first self.old.read.items (inputs_at streams.now node.now.inputs))) < 2 ^ 64 }
        ensures { OnOk result (ShowsMore (self.old.reached == done) node.now (inputs_at streams.now node.now.inputs) self.old self.new) }
    {
        if self.reached == Timestamp::DONE {
            return Ok(());
        }
        let mut rests = rests_at(alloc, streams, &node.inputs, &self.read)?;
        let reached = reach(node.policy, rests.as_slice());
        let sets = take_sets(alloc, node.policy, rests.as_mut_slice())?;
        show_all(alloc, &mut self.outcome, node, sets.as_slice())?;
        self.outcome.end(&node.law, node.shape.offset, reached)?;
        self.read = read_at(alloc, streams, &node.inputs, rests.as_slice())?;
        self.reached = reached;
        Ok(())
    }

    // Lets the node, a loopback, answer further packets of MAIN.
    fn answer(&mut self, alloc: Global, main: &Output, back: &Output) -> Result<(), AllocError>
        requires main { IsPrefix main.now }
        requires back { IsPrefix back.now }
        requires ports { length self.old.read.items ≡ 2 }
        requires turns { slice_index_or self.old.read.items 1 0 ≤ length main.now.packets }
        requires heard { slice_index_or self.old.read.items 0 0 ≤ length back.now.packets }
        requires output { length self.old.outcome.outputs.items ≡ 1 }
        ensures { OnOk result (AnswersMore main.now back.now self.old self.new) }
    {
        let read = self.read.as_slice();
        let (heard_before, answered_before) = (read[0], read[1]);
        let previous = main.last_time(answered_before);
        let (mut turns, mut heard) = (main.rest(answered_before), back.rest(heard_before));
        let packets = take_answers(alloc, previous, &mut turns, &mut heard)?;
        let answered = main.len().saturating_sub(turns.len());
        self.read = both(alloc, back.len().saturating_sub(heard.len()), answered)?;
        self.outcome
            .answer(&packets, turns.read_up_to(), answered as u64)
    }
}

// Returns the numbers of packets that are read at two ports, as a list.
fn both(alloc: Global, first: usize, second: usize) -> Result<Vec<usize>, AllocError>
    ensures { IfOk result (λ read. read.items ≡ first ∷ second ∷ []) }
{
    let mut read = Vec::with_capacity(alloc, 2)?;
    read.push(first)?;
    read.push(second)?;
    Ok(read)
}

// Returns a list of `count` zeros: nothing is read at any port.
fn nothing_read(alloc: Global, count: u32) -> Result<Vec<usize>, AllocError>
    ensures { IfOk result (λ read. read.items ≡ replicate count 0) }
{
    let mut read = Vec::with_capacity(alloc, count as usize)?;
    for _ in 0..count {
        read.push(0)?;
    }
    Ok(read)
}

// Returns the stream at a port of a node.
fn port<'a>(streams: &'a [Output], node: &PlanNode, port: usize) -> &'a Output
    requires known { All (λ i. i < length streams.now) node.now.inputs }
    requires there { port < length node.now.inputs }
    ensures { result.now ≡ port_of (inputs_at streams.now node.now.inputs) port }
{
    &streams[node.inputs.as_slice()[port] as usize]
}

// Shows a node sets, one after the other.
fn show_all(
    alloc: Global,
    outcome: &mut Outcome,
    node: &PlanNode,
    sets: &[TimedSet],
) -> Result<(), AllocError>
    requires law { IsOuter node.now.law }
    requires served { IsServed node.now.law }
    requires room { outcome.old.taken + length sets.now < 2 ^ 64 }
    ensures { OnOk result (seen outcome.new ≡ fold (shown (table_rules node.now.law) node.now.shape.offset) (seen outcome.old) sets.now) }
{
    for timed in sets {
        outcome.show(alloc, &node.law, node.shape.offset, timed)?;
    }
    Ok(())
}

// Returns what is left of the streams at the ports of a node, by how many packets have been read at each.
fn rests_at<'a>(
    alloc: Global,
    streams: &'a [Output],
    ports: &NumberList,
    read: &[usize],
) -> Result<Vec<Rest<'a>>, AllocError>
    requires known { All (λ i. i < length streams.now) ports.now }
    requires within { AreWithin read.now (inputs_at streams.now ports.now) }
    ensures rests { IfOk result (λ rests. rests.items ≡ without_first read.now (inputs_at streams.now ports.now)) }
    ensures few { IfOk result (λ rests. length rests.items < 2 ^ 32) }
{
    let count = ports.len() as usize;
    let mut rests = Vec::with_capacity(alloc, count)?;
    for i in 0..count {
        rests.push(streams[ports.as_slice()[i] as usize].rest(read[i]))?;
    }
    Ok(rests)
}

// Returns how many packets have been read at each port of a node: all but those that are left.
fn read_at(
    alloc: Global,
    streams: &[Output],
    ports: &NumberList,
    rests: &[Rest<'_>],
) -> Result<Vec<usize>, AllocError>
    requires known { All (λ i. i < length streams.now) ports.now }
    requires many { length rests.now ≡ length ports.now }
    ensures { IfOk result (λ read. read.items ≡ gone_of (inputs_at streams.now ports.now) rests.now) }
{
    let mut read = Vec::with_capacity(alloc, rests.len())?;
    for (i, rest) in rests.iter().enumerate() {
        let stream = &streams[ports.as_slice()[i] as usize];
        read.push(stream.len().saturating_sub(rest.len()))?;
    }
    Ok(read)
}
