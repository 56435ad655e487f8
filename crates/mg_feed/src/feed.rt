ghost use Rattle.std.specs.Prelude.{◌≤◌, length};
ghost use Rattle.mg_feed.specs.Accepted.{longest_line};

use crate::feed_end::Step;
use crate::input_buffer::InputBuffer;
use crate::limits::LONGEST_LINE;
use crate::reader::Reader;
use crate::{BatchEnd, FeedEnd, LineFault};
use json::Scratch;
use mg_calc::{Inputs, Plan};
use mg_edge::{Got, Source};
use std::alloc::{AllocError, Global};

mod recorded;

/// Reads the packet lines of an input, judges them, and keeps what they give a graph's inputs until it is taken.
pub struct Feed {
    alloc: Global,
    input_buffer: InputBuffer,
    reader: Reader,
    // Room for reading the JSON of a line.
    scratch: Scratch,
    ghost short: { length reader.cut.items ≤ longest_line },
}

// Written out, so that a proof about code that drops a feed needn't open it.
impl Drop for Feed {
    fn drop(self) {
        let Feed {
            alloc: _,
            input_buffer,
            reader,
            scratch,
        } = self;
        drop(input_buffer);
        drop(reader);
        drop(scratch);
    }
}

impl Feed {
    ghost use Rattle.std.specs.Prelude.{◌≡◌, ◌≢◌, ◌≤◌, [], ◌∷◌, ◌++◌, false, ℕ, List, None, Some, OnOk, OnErr, IfOk, IfErr, MatchOption, length};
    ghost use Rattle.mg_value.specs.Payload.{Plain};
    ghost use Rattle.mg_value.specs.Packet.{Stamped};
    ghost use Rattle.mg_feed.specs.Graph.{inputs_of};
    ghost use Rattle.mg_feed.specs.Accepted.{refusal};
    ghost use Rattle.mg_feed.specs.Given.{ended_streams};
    ghost use Rattle.mg_feed.specs.Stands.{HasAccepted, nothing_taken, taken_with};
    ghost use Rattle.mg_feed.specs.FeedSeen.{seen, fed};
    ghost use Rattle.mg_feed.specs.Ran.{MetEnd, late, Spends, FailedBy};
    ghost use Rattle.mg_feed.specs.Batch.{HasRead, HasReadBatch, most_kept, HasCause, BatchHasCause, BatchFailedBy, idle_by};
    ghost use Rattle.mg_feed.specs.Accepted.{most_lines};
    ghost use Rattle.mg_feed.specs.Lines.{NoFeed};
    ghost use Rattle.mg_feed.specs.Code.LineEnd.{EndsLine};
    ghost use Rattle.mg_feed.specs.Code.Readers.{left_of};
    ghost use Rattle.mg_feed.specs.Code.Moves.{TookNext, Stepped, SteppedLine, StopsBy};

    /// Makes a feed for the inputs of a plan's graph. It has accepted no line yet.
    pub fn new(alloc: Global, plan: &Plan) -> Result<Feed, AllocError>
        ensures graph { IfOk result (λ feed. (seen feed).graph ≡ inputs_of plan.now) }
        ensures stands { IfOk result (λ feed. HasAccepted [] (nothing_taken (inputs_of plan.now)) (seen feed)) }
        ensures unread { IfOk result (λ feed. (fed feed).read ≡ record { kept = []; ended = false }) }
    {
        let input_buffer = InputBuffer::new(alloc, plan)?;
        let reader = Reader::new(alloc)?;
        Ok(Feed {
            alloc,
            input_buffer,
            reader,
            scratch: Scratch::new(alloc),
        })
    }

    /// Takes the next line, without its line feed, or returns why it isn't good. A line that isn't taken leaves the feed as it was.
    pub fn line(&mut self, text: &[u8]) -> Result<(), LineFault>
        ensures good { OnOk result ((lines : List (List ℕ)) (gone : List (List (Stamped Plain))) → HasAccepted lines gone (seen self.old)
            → (refusal (seen self.old).graph lines text.now ≡ None) × HasAccepted (lines ++ text.now ∷ []) gone (seen self.new)) }
        ensures refused { IfErr result (λ fault. fault ≢ LineFault.OutOfMemory → (lines : List (List ℕ)) (gone : List (List (Stamped Plain)))
            → HasAccepted lines gone (seen self.old) → refusal (seen self.old).graph lines text.now ≡ Some fault) }
        ensures unchanged { OnErr result (seen self.new ≡ seen self.old) }
        ensures graph { (seen self.new).graph ≡ (seen self.old).graph }
        ensures read { (fed self.new).read ≡ (fed self.old).read }
    {
        self.input_buffer.line(self.alloc, &mut self.scratch, text)?;
        Ok(())
    }

    /// Takes what the lines gave since the last taking. For each stream this is its further packets and its bound as it is now, or
    /// Done if the input ended well. All side packets are returned too. If memory runs out, nothing was taken.
    pub fn take_inputs(&mut self, ended: bool) -> Result<Inputs, AllocError>
        ensures streams { IfOk result (λ inputs. inputs.streams ≡ ended_streams ended (seen self.old).given.streams) }
        ensures sides { IfOk result (λ inputs. inputs.sides ≡ (seen self.old).given.sides) }
        ensures ended { IfOk result (λ inputs. inputs.ended ≡ ended) }
        ensures stands { OnOk result ((lines : List (List ℕ)) (gone : List (List (Stamped Plain))) → HasAccepted lines gone (seen self.old)
            → HasAccepted lines (taken_with gone (seen self.old).given.streams) (seen self.new)) }
        ensures unchanged { OnErr result (seen self.new ≡ seen self.old) }
        ensures graph { (seen self.new).graph ≡ (seen self.old).graph }
        ensures read { (fed self.new).read ≡ (fed self.old).read }
    {
        let inputs = self.input_buffer.take_inputs(self.alloc, ended)?;
        Ok(inputs)
    }

    /// Takes what the lines gave since the last taking, as `take_inputs` does, and ends the feed. It takes no memory.
    pub fn into_inputs(self, ended: bool) -> Inputs
        ensures streams { result.streams ≡ ended_streams ended (seen self).given.streams }
        ensures sides { result.sides ≡ (seen self).given.sides }
        ensures ended { result.ended ≡ ended }
    {
        let Feed {
            alloc,
            input_buffer,
            reader,
            scratch,
        } = self;
        drop(reader);
        drop(scratch);
        input_buffer.into_inputs(alloc, ended)
    }

    /// Reads a source to its end, its first fault or the first line that isn't good, and takes the lines. No block is read after
    /// the block in which that line ends, even if memory runs out.
    pub fn read_all<S: Source>(&mut self, source: &mut S) -> FeedEnd
        ensures read { HasRead result (S.told source.old) (S.told source.new) (fed self.old) (fed self.new) }
        ensures end { MetEnd (fed self.old).read.ended (fed self.new).read.ended (S.told source.old) (S.told source.new) }
        ensures fault { FailedBy result (S.told source.old) (S.told source.new) }
        ensures cause { HasCause result }
        ensures reads { Spends (late (fed self.old).read.ended) 1 (S.told source.old).left (S.told source.new).left (S.told source.old).reads (S.told source.new).reads }
        ensures few { (seen self.new).lines ≤ most_lines }
        ensures small { length (fed self.new).read.kept ≤ most_kept }
        ensures graph { (seen self.new).graph ≡ (seen self.old).graph }
    {
        match self.read_batch(source, u32::MAX, false) {
            BatchEnd::More => unreachable!(),
            BatchEnd::End(end) => end,
        }
    }

    /// Reads a source until `most` lines that name a stream were taken. Stops earlier at the source's end, at its first fault, or
    /// at the first line that isn't good. Keeps the bytes that were read after the last of these lines for the next call. Once the
    /// source answered `End` it isn't read again.
    ///
    /// With `early` the batch also ends if the last read gave fewer bytes than were asked for: the source then has nothing more for
    /// now. The batch ends so after its last whole line, and only if it has a line that names a stream.
    pub fn read_batch<S: Source>(&mut self, source: &mut S, most: u32, early: bool) -> BatchEnd
        ensures read { HasReadBatch early most result (S.told source.old) (S.told source.new) (fed self.old) (fed self.new) }
        ensures end { MetEnd (fed self.old).read.ended (fed self.new).read.ended (S.told source.old) (S.told source.new) }
        ensures fault { BatchFailedBy result (S.told source.old) (S.told source.new) }
        ensures cause { BatchHasCause result }
        ensures reads { Spends (late (fed self.old).read.ended) (idle_by result (fed self.new).read.ended) (S.told source.old).left (S.told source.new).left (S.told source.old).reads (S.told source.new).reads }
        ensures few { (seen self.new).lines ≤ most_lines }
        ensures small { length (fed self.new).read.kept ≤ most_kept }
        ensures graph { (seen self.new).graph ≡ (seen self.old).graph }
    {
        let mut naming = 0;
        'lines: while naming < most {
            let end = self.reader.line_end();
            if early && naming > 0 && end.is_none() && self.reader.is_drained() {
                return BatchEnd::More;
            }
            match self.step(source, end) {
                Step::Line(named) => naming += u32::from(named),
                Step::Read => {}
                Step::Stop(end) => return BatchEnd::End(end),
            }
        }
        BatchEnd::More
    }

    // Takes the next line of what was read, or reads on if `end` is None. `end` is the place of the next line feed in what is left
    // of the block.
    fn step<S: Source>(&mut self, source: &mut S, end: Option<usize>) -> Step
        requires { MatchOption end (NoFeed (left_of self.old.reader)) (EndsLine (left_of self.old.reader)) }
        ensures { Stepped result (S.told source.old) (S.told source.new) (fed self.old) (fed self.new) }
    {
        match end {
            Some(end) => self.next_line(end),
            None => self.read_on(source),
        }
    }

    // Takes the next line, whose line feed is at `end` in what is left of the block.
    fn next_line(&mut self, end: usize) -> Step
        requires { EndsLine (left_of self.old.reader) end }
        ensures { SteppedLine result (fed self.old) (fed self.new) }
    {
        match self.take_line(end) {
            Ok(named) => Step::Line(named),
            Err(fault) => Step::Stop(self.stop_by(fault)),
        }
    }

    // Takes the next line, and returns whether it names a stream.
    fn take_line(&mut self, end: usize) -> Result<bool, LineFault>
        requires { EndsLine (left_of self.old.reader) end }
        ensures { TookNext result (fed self.old) (fed self.new) }
    {
        if self.reader.has_cut() {
            self.cut_line(end)
        } else {
            self.whole_line(end)
        }
    }

    // Takes the next line, which lies whole in the block.
    fn whole_line(&mut self, end: usize) -> Result<bool, LineFault>
        requires whole { self.old.reader.cut.items ≡ [] }
        requires end { EndsLine (left_of self.old.reader) end }
        ensures { TookNext result (fed self.old) (fed self.new) }
    {
        let named = self
            .input_buffer
            .line(self.alloc, &mut self.scratch, self.reader.front(end))?;
        self.reader.pass(end + 1);
        Ok(named)
    }

    // Takes the next line, whose beginning is held.
    fn cut_line(&mut self, end: usize) -> Result<bool, LineFault>
        requires { EndsLine (left_of self.old.reader) end }
        ensures { TookNext result (fed self.old) (fed self.new) }
    {
        self.reader.hold(end, LONGEST_LINE)?;
        let named = self
            .input_buffer
            .line(self.alloc, &mut self.scratch, &self.reader.cut)?;
        self.reader.pass_cut();
        Ok(named)
    }

    // Holds what is left of the block, which has no line feed, and reads the next block.
    fn read_on<S: Source>(&mut self, source: &mut S) -> Step
        requires { NoFeed (left_of self.old.reader) }
        ensures { Stepped result (S.told source.old) (S.told source.new) (fed self.old) (fed self.new) }
    {
        if self.reader.ended {
            return Step::Stop(FeedEnd::Ended);
        }
        match self.reader.hold_rest(LONGEST_LINE) {
            Ok(()) => self.fill(source),
            Err(fault) => Step::Stop(self.stop_by(fault)),
        }
    }

    // Reads the next block.
    fn fill<S: Source>(&mut self, source: &mut S) -> Step
        requires passed { left_of self.old.reader ≡ [] }
        requires open { self.old.reader.ended ≡ false }
        ensures { Stepped result (S.told source.old) (S.told source.new) (fed self.old) (fed self.new) }
    {
        match self.reader.fill(source) {
            Got::Bytes(_) => Step::Read,
            Got::End => Step::Read,
            Got::Failed => Step::Stop(FeedEnd::Failed {
                lines: self.input_buffer.lines,
            }),
        }
    }

    // Returns how the reading ends if the next line wasn't taken for this cause.
    fn stop_by(&self, fault: LineFault) -> FeedEnd
        ensures { StopsBy fault (seen self.now).lines result }
    {
        if fault == LineFault::OutOfMemory {
            FeedEnd::OutOfMemory
        } else {
            FeedEnd::Refused {
                line: self.input_buffer.lines + 1,
                cause: fault,
            }
        }
    }
}
