//! Bytes that only lengthen what is being read are taken many at once.
ghost use Rattle.std.specs.Prelude.{◌≡◌, ◌≤◌, ◌++◌, take, length, IfOk, OnOk};
ghost use Rattle.mg_text.specs.Byte.{class_of};
ghost use Rattle.mg_text.specs.Code.Running.{state_of, Lasts};
ghost use Rattle.mg_text.specs.Code.Plain.{lengthens, run_of, AllLengthen, flag_of};

use crate::machine::Machine;
use crate::parts::{Quote, Tail};
use crate::state::{Inside, NamePart, Reading, Run, ScalarPart};
use std::alloc::AllocError;

// For each byte the kinds of runs that go on with it, as a character: 64 and the sum of their flags, which `flag_of` gives.
static RUNS: [u8; 256] = *b"\
    ZZZZZZZZZ[A[[[ZZZZZZZZZZZZZZZZZZ\
    [ZJZZZZRZZZZZZZZ^^^^^^^^^^ZZZZZZ\
    Z^^^^^^^^^^^^^^^^^^^^^^^^^^ZBZZ^\
    Z^^^^^^^^^^^^^^^^^^^^^^^^^^ZZZZZ\
    @@@@@@@@@@@@@@@@@@@@@@@@@@@@@@@@\
    @@@@@@@@@@@@@@@@@@@@@@@@@@@@@@@@\
    @@@@@@@@@@@@@@@@@@@@@@@@@@@@@@@@\
    @@@@@@@@@@@@@@@@@@@@@@@@@@@@@@@@";

impl Machine {
    /// Takes first bytes that only lengthen what is being read, and returns how many were taken. No message opens or closes.
    pub fn take_plain(&mut self, bytes: &[u8]) -> Result<usize, AllocError>
        ensures within { IfOk result (λ count. count ≤ length bytes.now) }
        ensures lasts { IfOk result (λ count. Lasts (state_of self.old) (take count bytes.now) (state_of self.new)) }
    {
        let Some(run) = run_of(self.reading) else {
            return Ok(0);
        };
        match run {
            Run::Blank => Ok(front(Run::Blank, bytes)),
            Run::Comment => Ok(front(Run::Comment, bytes)),
            Run::Word => Ok(self.add_all(front(Run::Word, bytes), bytes)?),
            Run::Piece(quote) => Ok(self.add_all(front(Run::Piece(quote), bytes), bytes)?),
        }
    }

    // Adds the first `count` bytes to the token, and returns `count`.
    fn add_all(&mut self, count: usize, bytes: &[u8]) -> Result<usize, AllocError>
        requires { count ≤ length bytes.now }
        ensures count { IfOk result (λ n. n ≡ count) }
        ensures token { OnOk result (self.new.token.items ≡ self.old.token.items ++ take count bytes.now) }
        ensures same { self.new ≡ record self.old { token = self.new.token } }
    {
        self.token.extend_from_slice(bytes.split_at(count).0)?;
        Ok(count)
    }
}

// Returns the run that is being read, or none if further bytes do more than lengthen what is being read.
fn run_of(reading: Reading) -> Option<Run>
    ensures { result ≡ run_of reading }
{
    match reading {
        Reading::At(_) => Some(Run::Blank),
        Reading::Comment(_, Tail::Whole) => Some(Run::Comment),
        Reading::Name(NamePart::Word) => Some(Run::Word),
        Reading::Scalar(_, ScalarPart::Word) => Some(Run::Word),
        Reading::Piece(_, quote, Inside::Plain(Tail::Whole)) => Some(Run::Piece(quote)),
        _ => None,
    }
}

// Returns how many of the first bytes only lengthen the run.
#[inline(always)]
fn front(run: Run, bytes: &[u8]) -> usize
    ensures within { result ≤ length bytes.now }
    ensures plain { AllLengthen run (take result bytes.now) }
{
    let mut count = 0;
    'plain: while count < bytes.len() && lengthens(run, bytes[count]) {
        count += 1;
    }
    count
}

// Whether a byte only lengthens the run.
#[inline(always)]
fn lengthens(run: Run, b: u8) -> bool
    ensures { result ≡ lengthens run (class_of b) }
{
    RUNS[b as usize] & flag_of(run) != 0
}

// Returns the flag of a run in `RUNS`.
#[inline(always)]
fn flag_of(run: Run) -> u8
    ensures { result ≡ flag_of run }
{
    match run {
        Run::Blank => 1,
        Run::Comment => 2,
        Run::Word => 4,
        Run::Piece(Quote::Single) => 8,
        Run::Piece(Quote::Double) => 16,
    }
}
