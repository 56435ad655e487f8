//! Packets that are made while a run goes on.
ghost use Rattle.std.specs.Prelude.{◌≡◌, ◌<◌, ◌≤◌, [], false, IfOk};
ghost use Rattle.mg_feed.specs.GeneratorSeen.{making};
ghost use Rattle.mg_answer.specs.Wrote.{Wrote};
ghost use Rattle.mg_drive.specs.Code.InPieces.{piece_end, AreToCome, WereMade, HaveComeInPieces, packets_left};

use crate::onward::plain_onward;
use crate::{Batch, Batches, Closing, Driven, Moved, Onward};
use mg_answer::{Outcomes, Run, Status, conclude};
use mg_calc::Plan;
use mg_edge::{Sink, Source};
use mg_feed::{BatchEnd, FeedEnd, Generator};
use std::alloc::{AllocError, Global};

// The size of a piece follows from this number of packets. If a whole piece waits at each port of a graph's nodes, so many packets wait at
// all ports together. If a whole piece is kept of each of its streams, so many packets are kept of all streams together. If nothing waits,
// a net holds a piece and not much more. So what it holds doesn't grow with the number of all packets, nor with that of its nodes and
// edges.
const MOST_HELD: u32 = 1 << 16;

/// Packets that are made piece by piece; each piece is a batch.
#[derive(Drop)]
pub struct Pieces {
    generator: Generator,
    // How many packets each piece but the last has.
    most: u32,
    ghost some: { 0 < most },
}

impl Pieces {
    /// Returns `number` packets that are to be made for a plan. None is made yet.
    pub fn new(alloc: Global, plan: &Plan, number: u32) -> Result<Pieces, AllocError>
        ensures { IfOk result (λ pieces. AreToCome plan.now number (making pieces.generator)) }
    {
        let generator = Generator::new(alloc, plan, number)?;
        let most = piece_for(plan);
        Ok(Pieces { generator, most })
    }

    /// Returns `number` packets that are to be made for a plan in one piece. None is made yet. What arrives at free nodes depends on how
    /// packets are split into batches.
    pub fn at_once(alloc: Global, plan: &Plan, number: u32) -> Result<Pieces, AllocError>
        ensures packets { IfOk result (λ pieces. AreToCome plan.now number (making pieces.generator)) }
        ensures most { IfOk result (λ pieces. number ≤ pieces.most) }
    {
        let generator = Generator::new(alloc, plan, number)?;
        let most = u32::MAX;
        Ok(Pieces { generator, most })
    }
}

// Returns how many packets a piece has for a plan. A piece has at least one packet for each input. The reason: the packets go to the inputs
// in turn, and the net is looked over for each piece. A graph without inputs gets all packets at once: there are none.
fn piece_for(plan: &Plan) -> u32
    ensures { 0 < result }
{
    if plan.inputs.is_empty() {
        return u32::MAX;
    }
    let most = plan.edges.len().max(plan.streams.len()).max(1);
    (MOST_HELD / most).max(plan.inputs.len()).max(1)
}

// Returns how a piece ends: `ended` says whether it is the last.
fn end_by(ended: bool) -> BatchEnd
    ensures { result ≡ piece_end ended }
{
    if ended {
        BatchEnd::End(FeedEnd::Ended)
    } else {
        BatchEnd::More
    }
}

impl Batches for Pieces {
    ghost is_fresh = { λ p plan. AreToCome plan (making p.generator).number (making p.generator) };

    ghost gives = { λ laws began p plan first now end inputs. WereMade plan (making began.generator).number (making p.generator) end inputs };

    ghost came = { λ laws began p plan first now end history. HaveComeInPieces plan (making began.generator).number began.most p.most (making p.generator) end history };

    ghost is_due = { λ p plan so_far. Unit {0} };

    ghost wants = { λ p. [] };

    ghost knows = { λ laws p net. Unit {0} };

    ghost reads_on = { λ p plan first at now. now ≡ at };

    ghost left = { λ p. packets_left (making p.generator) };

    ghost reads = { false };

    ghost wrote = { λ p form report job end status output notes. Wrote (record { form = form; report = report }) job end status output notes };

    fn next<S: Source>(&mut self, input: &mut S) -> Result<Batch, AllocError> {
        let _ = input;
        let inputs = self.generator.next_piece(self.most)?;
        let end = end_by(inputs.ended);
        Ok(Batch { end, inputs })
    }

    fn onward<N: Driven>(
        &mut self,
        last: BatchEnd,
        net: &N,
        moved: &mut Moved,
    ) -> Result<Onward, AllocError> {
        let _ = net;
        let _ = moved.all;
        Ok(plain_onward(last))
    }

    fn conclude<K: Sink, E: Sink>(
        &self,
        run: &Run<'_>,
        closing: Closing,
        outcomes: Outcomes,
        output: &mut K,
        notes: &mut E,
    ) -> Result<Status, AllocError> {
        let status = conclude(run, closing.end, &outcomes, closing.text, output, notes)?;
        Ok(status)
    }
}
