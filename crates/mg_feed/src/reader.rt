ghost use Rattle.std.specs.Prelude.{◌≡◌, ◌<◌, ◌≤◌, false, vec_len, IfOk, MatchOption};
ghost use Rattle.mg_feed.specs.Lines.{NoFeed};
ghost use Rattle.mg_feed.specs.Code.LineEnd.{EndsLine, has_feed};
ghost use Rattle.mg_feed.specs.declared.limits.TheConstants.{LONGEST_BLOCK};

use crate::LineFault;
use crate::limits::LONGEST_BLOCK;
use memchr::memchr;
use mg_edge::{Got, Source};
use std::alloc::{AllocError, Global};
use std::mem;

/// Reads a source in blocks, and finds the ends of the lines. A line that lies whole in a block can be read there.
#[derive(Drop)]
pub struct Reader {
    // The block that was read last. Of its bytes those from `at` up to `filled` weren't passed yet.
    pub block: Vec<u8>,
    pub at: usize,
    pub filled: usize,
    // The beginning of the next line, as far as it is held: from earlier blocks, or passed in this one. It has no line feed.
    pub cut: Vec<u8>,
    // Whether the source answered `End`.
    pub ended: bool,
    ghost room: { 0 < vec_len block },
    ghost small: { vec_len block ≤ LONGEST_BLOCK },
    ghost ahead: { at ≤ filled },
    ghost within: { filled ≤ vec_len block },
    ghost none: { has_feed cut.items ≡ false },
}

impl Reader {
    ghost use Rattle.std.specs.Prelude.{◌≡◌, ◌≢◌, ◌<◌, ◌≤◌, ◌+◌, ◌++◌, [], true, false, IfOk, IfErr, OnOk, OnErr, MatchOption, length, take, drop};
    ghost use Rattle.mg_feed.specs.Lines.{NoFeed, with_feed};
    ghost use Rattle.mg_feed.specs.Code.LineEnd.{EndsLine};
    ghost use Rattle.mg_feed.specs.Code.Readers.{left_of, reading_of};
    ghost use Rattle.mg_feed.specs.Code.Filled.{Filled};

    /// Makes a reader that has read nothing yet.
    pub fn new(alloc: Global) -> Result<Reader, AllocError>
        ensures unread { IfOk result (λ reader. reading_of reader ≡ record { kept = []; ended = false }) }
        ensures cut { IfOk result (λ reader. reader.cut.items ≡ []) }
    {
        let block = zeros(alloc, LONGEST_BLOCK)?;
        Ok(Reader {
            block,
            at: 0,
            filled: 0,
            cut: Vec::new(alloc),
            ended: false,
        })
    }

    /// Returns the bytes of the block that weren't passed yet.
    pub fn left(&self) -> &[u8]
        ensures { result.now ≡ left_of self.now }
    {
        &self.block[self.at..self.filled]
    }

    /// Returns the place of the next line feed, counted in the bytes of the block that weren't passed yet.
    pub fn line_end(&self) -> Option<usize>
        ensures { MatchOption result (NoFeed (left_of self.now)) (EndsLine (left_of self.now)) }
    {
        line_end(self.left())
    }

    /// Returns whether the last read gave fewer bytes than were asked for, and the source hasn't ended.
    pub fn is_drained(&self) -> bool {
        self.filled < self.block.len() && !self.ended
    }

    /// Returns whether bytes of the next line are held.
    pub fn has_cut(&self) -> bool
        ensures { result ≡ false → self.now.cut.items ≡ [] }
    {
        !self.cut.is_empty()
    }

    /// Returns the first `count` bytes of the block that weren't passed yet.
    pub fn front(&self, count: usize) -> &[u8]
        requires { count ≤ length (left_of self.now) }
        ensures { result.now ≡ take count (left_of self.now) }
    {
        self.left().split_at(count).0
    }

    /// Passes `count` bytes of the block.
    pub fn pass(&mut self, count: usize)
        requires { count ≤ length (left_of self.old) }
        ensures left { left_of self.new ≡ drop count (left_of self.old) }
        ensures cut { self.new.cut.items ≡ self.old.cut.items }
        ensures ended { self.new.ended ≡ self.old.ended }
    {
        self.at += count;
    }

    /// Passes `count` bytes of the block, and holds them for the next line. Returns an error if the line gets longer than `longest`
    /// bytes, or memory runs out.
    pub fn hold(&mut self, count: usize, longest: usize) -> Result<(), LineFault>
        requires within { count ≤ length (left_of self.old) }
        requires none { NoFeed (take count (left_of self.old)) }
        ensures reading { reading_of self.new ≡ reading_of self.old }
        ensures held { OnOk result (self.new.cut.items ≡ self.old.cut.items ++ take count (left_of self.old)) }
        ensures left { OnOk result (left_of self.new ≡ drop count (left_of self.old)) }
        ensures short { OnOk result (length self.new.cut.items ≤ longest) }
        ensures cut { OnErr result (self.new.cut.items ≡ self.old.cut.items) }
        ensures fault { IfErr result (λ fault. fault ≢ LineFault.OutOfMemory → (fault ≡ LineFault.TooLong) × (longest < length self.old.cut.items + count)) }
    {
        if self.cut.len() + count > longest {
            return Err(LineFault::TooLong);
        }
        let piece = &self.block[self.at..self.at + count];
        self.cut.extend_from_slice(piece)?;
        self.at += count;
        Ok(())
    }

    /// Passes all that is left of the block, which has no line feed, and holds it for the next line. Returns an error if the line
    /// gets longer than `longest` bytes, or memory runs out.
    pub fn hold_rest(&mut self, longest: usize) -> Result<(), LineFault>
        requires { NoFeed (left_of self.old) }
        ensures reading { reading_of self.new ≡ reading_of self.old }
        ensures left { OnOk result (left_of self.new ≡ []) }
        ensures short { OnOk result (length self.new.cut.items ≤ longest) }
        ensures cut { OnErr result (self.new.cut.items ≡ self.old.cut.items) }
        ensures fault { IfErr result (λ fault. fault ≢ LineFault.OutOfMemory → (fault ≡ LineFault.TooLong) × (longest < length (reading_of self.old).kept)) }
    {
        let count = self.filled - self.at;
        self.hold(count, longest)?;
        Ok(())
    }

    /// Passes the line feed that comes next, and drops the line before it, which was held.
    pub fn pass_cut(&mut self)
        requires { 1 ≤ length (left_of self.old) }
        ensures left { left_of self.new ≡ drop 1 (left_of self.old) }
        ensures cut { self.new.cut.items ≡ [] }
        ensures ended { self.new.ended ≡ self.old.ended }
    {
        self.cut.clear();
        self.at += 1;
    }

    /// Passes the line feed that comes next, and moves the line before it, which was held, into `line`.
    pub fn hand_over(&mut self, line: &mut Vec<u8>)
        requires { 1 ≤ length (left_of self.old) }
        ensures line { line.new.items ≡ self.old.cut.items }
        ensures left { left_of self.new ≡ drop 1 (left_of self.old) }
        ensures cut { self.new.cut.items ≡ [] }
        ensures ended { self.new.ended ≡ self.old.ended }
    {
        line.clear();
        mem::swap(line, &mut self.cut);
        self.at += 1;
    }

    /// Reads the next block of the source.
    pub fn fill<S: Source>(&mut self, source: &mut S) -> Got
        requires passed { left_of self.old ≡ [] }
        requires open { self.old.ended ≡ false }
        ensures filled { Filled result (reading_of self.old) (reading_of self.new) (S.told source.old) (S.told source.new) }
        ensures cut { self.new.cut.items ≡ self.old.cut.items }
    {
        let got = source.read(&mut self.block);
        match got {
            Got::Bytes(count) => {
                self.at = 0;
                self.filled = count;
            }
            Got::End => self.finish(),
            Got::Failed => {}
        }
        got
    }

    // Notes that the source has ended, and puts a line feed after a last line that lacks it.
    fn finish(&mut self)
        requires { left_of self.old ≡ [] }
        ensures ended { self.new.ended ≡ true }
        ensures cut { self.new.cut.items ≡ self.old.cut.items }
        ensures kept { (reading_of self.new).kept ≡ with_feed (reading_of self.old).kept (reading_of self.old).kept }
    {
        self.ended = true;
        if !self.cut.is_empty() {
            self.block[0] = b'\n';
            self.at = 0;
            self.filled = 1;
        }
    }
}

// Returns the place of the first line feed.
fn line_end(bytes: &[u8]) -> Option<usize>
    ensures { MatchOption result (NoFeed bytes.now) (EndsLine bytes.now) }
{
    memchr(b'\n', bytes)
}

// Returns `count` zeros.
fn zeros(alloc: Global, count: usize) -> Result<Vec<u8>, AllocError>
    ensures { IfOk result (λ v. vec_len v ≡ count) }
{
    vec![in alloc; 0u8; count]
}
