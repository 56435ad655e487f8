ghost use Rattle.std.specs.Prelude.{◌≡◌, ◌≢◌, IfOk};

use crate::LineFault;
use crate::reader::Reader;
use mg_edge::{Got, Source};
use std::alloc::{AllocError, Global};

/// The result of a call of `Lines::next`.
#[derive(Clone, Copy)]
pub enum NextLine {
    /// A line, which is kept until the next one is asked for.
    Line,
    /// A line that is longer than it may be. It isn't kept, and nothing is read after it.
    TooLong,
    /// The source answered `End`, and no line is left.
    Ended,
    /// A read failed, and no line is left that was whole before it.
    Failed,
}

// The result of a search for the end of the next line.
#[derive(Clone, Copy)]
enum Found {
    /// The line feed is at this place, counted in the bytes of the block that weren't passed yet.
    At(usize),
    /// The search stopped before a line feed was found, for this reason.
    Stop(NextLine),
}

/// Hands out the lines of an input one after the other, whatever they say, and counts them.
#[derive(Drop)]
pub struct Lines {
    reader: Reader,
    line: Vec<u8>,
    number: u64,
}

// Returns `TooLong` for a line that can't be held, or an error if memory ran out.
fn too_long(fault: LineFault) -> Result<NextLine, AllocError>
    ensures { IfOk result (λ next. (next ≡ NextLine.TooLong) × (fault ≢ LineFault.OutOfMemory)) }
{
    if fault == LineFault::OutOfMemory {
        Err(AllocError)
    } else {
        Ok(NextLine::TooLong)
    }
}

impl Lines {
    ghost use Rattle.std.specs.Prelude.{◌≡◌, ◌≢◌, ◌+◌, ◌-◌, ◌<◌, ◌^◌, ℕ, [], false, IfOk, OnErr};
    ghost use Rattle.mg_feed.specs.Lines.{NoFeed};
    ghost use Rattle.mg_feed.specs.Handed.{NextComes, counted_with, MovesOn};
    ghost use Rattle.mg_feed.specs.LinesSeen.{line_of, number_of, reading};
    ghost use Rattle.mg_feed.specs.Code.LineEnd.{EndsLine};
    ghost use Rattle.mg_feed.specs.Code.Readers.{left_of, reading_of};
    ghost use Rattle.mg_feed.specs.Code.Handing.{Finds, StepsOn, HandsOutLine, counted_by};

    /// Makes a `Lines` that has read nothing yet.
    pub fn new(alloc: Global) -> Result<Lines, AllocError>
        ensures unread { IfOk result (λ lines. reading lines ≡ record { kept = []; ended = false }) }
        ensures none { IfOk result (λ lines. number_of lines ≡ 0) }
    {
        let reader = Reader::new(alloc)?;
        Ok(Lines {
            reader,
            line: Vec::new(alloc),
            number: 0,
        })
    }

    /// Returns the line that was handed out last, without its line feed.
    pub fn line(&self) -> &[u8]
        ensures { result.now ≡ line_of self.now }
    {
        self.line.as_slice()
    }

    /// Returns how many lines were handed out.
    pub fn number(&self) -> u64
        ensures { result ≡ number_of self.now }
    {
        self.number
    }

    /// Hands out the next line, or returns why there is none. The line may have up to `longest` bytes without its line feed. If
    /// `longest` is `usize::MAX`, no line is too long. Once the source answered `End` it isn't read again. Returns an error if memory
    /// runs out, and after 2^64 - 1 lines. An error leaves all bytes that were read kept.
    pub fn next<S: Source>(
        &mut self,
        source: &mut S,
        longest: usize,
    ) -> Result<NextLine, AllocError>
        ensures comes { IfOk result (λ next. NextComes longest next (line_of self.new) (S.told source.old) (S.told source.new) (reading self.old) (reading self.new)) }
        ensures number { IfOk result (λ next. number_of self.new ≡ counted_with next (number_of self.old)) }
        ensures few { IfOk result (λ next. number_of self.old + 1 < 2 ^ 64) }
        ensures any { IfOk result (λ next. longest ≡ 2 ^ 64 - 1 → next ≢ NextLine.TooLong) }
        ensures kept { OnErr result (MovesOn (S.told source.old) (S.told source.new) (reading self.old) (reading self.new)) }
    {
        let Some(number) = self.number.checked_add(1) else {
            return Err(AllocError);
        };
        let found = self.find(source, longest)?;
        match found {
            Found::At(end) => {
                let next = self.take(end, number, longest)?;
                Ok(next)
            }
            Found::Stop(next) => Ok(next),
        }
    }

    // Reads until the line feed of the next line is in the block, or there is no next line.
    fn find<S: Source>(&mut self, source: &mut S, longest: usize) -> Result<Found, AllocError>
        ensures finds { IfOk result (λ found. Finds longest found (left_of self.new.reader) (S.told source.old) (S.told source.new) (reading_of self.old.reader) (reading_of self.new.reader)) }
        ensures kept { OnErr result (MovesOn (S.told source.old) (S.told source.new) (reading_of self.old.reader) (reading_of self.new.reader)) }
        ensures number { self.new.number ≡ self.old.number }
    {
        'reads: loop {
            if let Some(end) = self.reader.line_end() {
                return Ok(Found::At(end));
            }
            let step = self.read_on(source, longest)?;
            match step {
                Some(next) => return Ok(Found::Stop(next)),
                None => {}
            }
        }
    }

    // Holds what is left of the block, which has no line feed, and reads the next block. Returns why there is no line, if there is
    // none.
    fn read_on<S: Source>(
        &mut self,
        source: &mut S,
        longest: usize,
    ) -> Result<Option<NextLine>, AllocError>
        requires { NoFeed (left_of self.old.reader) }
        ensures steps { IfOk result (λ next. StepsOn longest next (S.told source.old) (S.told source.new) (reading_of self.old.reader) (reading_of self.new.reader)) }
        ensures kept { OnErr result (reading_of self.new.reader ≡ reading_of self.old.reader) }
        ensures same { OnErr result (S.told source.new ≡ S.told source.old) }
        ensures number { self.new.number ≡ self.old.number }
    {
        if self.reader.ended {
            return Ok(Some(NextLine::Ended));
        }
        if let Err(fault) = self.reader.hold_rest(longest) {
            let next = too_long(fault)?;
            return Ok(Some(next));
        }
        Ok(self.fill(source))
    }

    // Reads the next block. Returns `Failed` if the read failed.
    fn fill<S: Source>(&mut self, source: &mut S) -> Option<NextLine>
        requires passed { left_of self.old.reader ≡ [] }
        requires open { self.old.reader.ended ≡ false }
        ensures steps { (longest : ℕ) → StepsOn longest result (S.told source.old) (S.told source.new) (reading_of self.old.reader) (reading_of self.new.reader) }
        ensures number { self.new.number ≡ self.old.number }
    {
        match self.reader.fill(source) {
            Got::Bytes(_) => None,
            Got::End => None,
            Got::Failed => Some(NextLine::Failed),
        }
    }

    // Hands out the line whose line feed is at `end` in what is left of the block, as line `number`, or returns `TooLong`.
    fn take(&mut self, end: usize, number: u64, longest: usize) -> Result<NextLine, AllocError>
        requires { EndsLine (left_of self.old.reader) end }
        ensures takes { IfOk result (λ next. HandsOutLine longest next self.new.line.items (reading_of self.old.reader) (reading_of self.new.reader)) }
        ensures kept { OnErr result (reading_of self.new.reader ≡ reading_of self.old.reader) }
        ensures number { IfOk result (λ next. self.new.number ≡ counted_by next self.old.number number) }
    {
        match self.reader.hold(end, longest) {
            Ok(()) => {
                self.reader.hand_over(&mut self.line);
                self.number = number;
                Ok(NextLine::Line)
            }
            Err(fault) => {
                let next = too_long(fault)?;
                Ok(next)
            }
        }
    }
}
