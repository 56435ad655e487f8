//! Batches of the core of a graph with free nodes: between two batches of the input the free nodes have their rounds.
ghost use Rattle.std.specs.Prelude.{◌≡◌, ◌+◌, ◌++◌, true, None, map, replicate, IfOk};
ghost use Rattle.mg_settled.specs.Prefix.{empty_prefix};
ghost use Rattle.mg_drive.specs.Code.LiveRunning.{ReadsWhere, IsWidened};
ghost use Rattle.mg_drive.specs.Code.Readers.{AreReaders, KnowsIdle};
ghost use Rattle.mg_drive.specs.Code.Live.{IsFreshLive, LiveGives, LiveCame, LiveWrote, wanted_by, rounds_left, ended_of, batches_left};

use crate::in_plan::InPlan;
use crate::looked::Looked;
use crate::readers::Readers;
use crate::{Batch, Batches, Closing, Driven, Moved, Onward};
use mg_answer::{Outcomes, Run, Status, conclude};
use mg_calc::Inputs;
use mg_edge::{Sink, Source};
use mg_feed::{BatchEnd, FeedEnd};
use mg_live::{Due, LiveNodes};
use mg_settled::{Prefix, PrefixList};
use mg_time::Timestamp;
use mg_value::{NumberList, PacketList};
use std::alloc::{AllocError, Global};

/// What gives the batches of a core: those of a graph with free nodes. Between two of these it gives what the free nodes lay in a round.
#[derive(Drop)]
pub struct Live<'p, B> {
    /// The batches of the plan with free nodes.
    pub batches: B,
    /// The free nodes of the plan, with what they have taken.
    pub nodes: LiveNodes,
    // Which of the free nodes are due.
    pub(crate) due: Due,
    // For each engine of the core the free nodes that read what it lays.
    pub(crate) readers: Readers,
    /// The plan with free nodes, and the numbers of its core.
    pub whole: InPlan<'p>,
    pub alloc: Global,
    /// How the input ended, once it has.
    pub end: Option<FeedEnd>,
    /// Whether a round has done nothing since the last batch came. Only contracts use it.
    pub rested: bool,
}

// Returns how the input ended with a batch, if it did.
fn ended_by(end: BatchEnd) -> Option<FeedEnd>
    ensures { result ≡ ended_of end }
{
    match end {
        BatchEnd::More => None,
        BatchEnd::End(end) => Some(end),
    }
}

// Returns the number of the graph input that stands `place` places after `first`.
fn input_at(first: u32, place: u32) -> Result<u32, AllocError>
    ensures { IfOk result (λ input. input ≡ first + place) }
{
    first.checked_add(place).ok_or(AllocError)
}

// Returns the numbers of a core's graph inputs that take the outputs of some free nodes. `first` is the first graph input that takes the
// output of a free node.
fn inputs_at(alloc: Global, first: u32, places: &[u32]) -> Result<NumberList, AllocError>
    ensures { IfOk result (λ inputs. inputs ≡ map (λ place. first + place) places.now) }
{
    let mut inputs = Vec::with_capacity(alloc, places.len())?;
    for place in places {
        inputs.push(input_at(first, *place)?)?;
    }
    Ok(NumberList::from_vec(inputs)?)
}

// Appends `count` streams to some streams. Nothing is known of the new streams.
fn opened(alloc: Global, streams: Vec<Prefix>, count: usize) -> Result<Vec<Prefix>, AllocError>
    ensures { IfOk result (λ opened. opened.items ≡ streams.items ++ replicate count empty_prefix) }
{
    let mut opened = streams;
    for place in 0..count {
        let _ = place;
        opened.push(Prefix {
            packets: PacketList::from_vec(Vec::new(alloc))?,
            bound: Timestamp::PRE_STREAM,
        })?;
    }
    Ok(opened)
}

// Returns what a core gets with a batch: the batch at the plan's own inputs, and nothing at the outputs of its `count` free nodes.
fn with_open(alloc: Global, inputs: Inputs, count: usize) -> Result<Inputs, AllocError>
    ensures { IfOk result (λ more. IsWidened inputs more count) }
{
    let Inputs {
        streams,
        sides,
        ended,
    } = inputs;
    let streams = opened(alloc, streams.into_vec(), count)?;
    let streams = PrefixList::from_vec(streams)?;
    Ok(Inputs {
        streams,
        sides,
        ended,
    })
}

impl<'p, B: Batches> Batches for Live<'p, B> {
    ghost is_fresh = { λ l core. IsFreshLive B.is_fresh B.is_due core (record { batches = l.batches; plan = l.whole.plan.now; whole = l.whole.plan.now; nodes = l.whole.nodes.now; streams = l.whole.streams.now; ended = l.end; rested = l.rested; frees = l.nodes.free; takers = l.nodes.takers.items }) × AreReaders core l.nodes.free l.readers };

    ghost gives = { λ laws began l core first now end inputs. LiveGives laws (B.gives laws) (B.came laws) B.is_due began.batches (record { batches = l.batches; plan = began.whole.plan.now; whole = l.whole.plan.now; nodes = l.whole.nodes.now; streams = l.whole.streams.now; ended = l.end; rested = l.rested; frees = l.nodes.free; takers = l.nodes.takers.items }) core first now end inputs };

    ghost came = { λ laws began l core first now end history. LiveCame laws (B.gives laws) (B.came laws) B.is_due began.batches (record { batches = l.batches; plan = began.whole.plan.now; whole = l.whole.plan.now; nodes = l.whole.nodes.now; streams = l.whole.streams.now; ended = l.end; rested = l.rested; frees = l.nodes.free; takers = l.nodes.takers.items }) core first now end history };

    ghost is_due = { λ l core inputs. (l.end ≡ None) × (l.rested ≡ true) };

    ghost wants = { λ l. wanted_by l.nodes.free l.nodes.takers.items };

    ghost knows = { λ laws l net. KnowsIdle laws l.readers l.nodes.free l.due l.nodes.takers.items net };

    ghost reads_on = { λ l core first at now. (l.end ≡ None) × ReadsWhere B.is_fresh B.is_due B.reads_on l.batches l.whole.plan.now first at now };

    ghost left = { λ l. batches_left l.end (B.left l.batches) + rounds_left l.nodes.takers.items };

    ghost reads = { B.reads };

    ghost wrote = { λ l form report job end status output notes. LiveWrote l.whole.plan.now l.nodes.free l.nodes.takers.items form report job end status output notes };

    fn next<S: Source>(&mut self, input: &mut S) -> Result<Batch, AllocError> {
        let batch = self.batches.next(input)?;
        let count = self.nodes.len();
        let inputs = with_open(self.alloc, batch.inputs, count)?;
        self.end = ended_by(batch.end);
        self.rested = false;
        self.due.wake_all();
        Ok(Batch {
            end: BatchEnd::More,
            inputs,
        })
    }

    fn onward<N: Driven>(
        &mut self,
        last: BatchEnd,
        net: &N,
        moved: &mut Moved,
    ) -> Result<Onward, AllocError> {
        match last {
            BatchEnd::End(end) => return Ok(Onward::End(end)),
            BatchEnd::More => {}
        }
        self.readers.wake(&mut self.due, moved);
        moved.clear();
        let places = self
            .nodes
            .round(self.alloc, &mut self.due, &Looked { net })?;
        let none = places.is_empty();
        self.rested = none;
        let did = !none;
        if did {
            let did_at = places.as_slice();
            let first = self.whole.plan.inputs.len();
            let inputs = inputs_at(self.alloc, first, did_at)?;
            moved.note_inputs(self.readers.first, inputs.as_slice());
            let pieces = self.nodes.hand_on(self.alloc, did_at)?;
            return Ok(Onward::Round(inputs, pieces));
        }
        match self.end {
            Some(end) => Ok(Onward::End(end)),
            None => Ok(Onward::Next),
        }
    }

    fn conclude<K: Sink, E: Sink>(
        &self,
        run: &Run<'_>,
        closing: Closing,
        outcomes: Outcomes,
        output: &mut K,
        notes: &mut E,
    ) -> Result<Status, AllocError> {
        let outcomes = self
            .whole
            .outcomes(run.alloc, run.report, &outcomes, &self.nodes)?;
        let whole = Run {
            alloc: run.alloc,
            plan: self.whole.plan,
            report: run.report,
        };
        let status = conclude(&whole, closing.end, &outcomes, closing.text, output, notes)?;
        Ok(status)
    }
}
