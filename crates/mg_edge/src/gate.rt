ghost use Rattle.std.specs.Prelude.{◌≡◌};

use std::sync::atomic::AtomicBool;
use std::sync::atomic::Ordering::SeqCst;
use std::thread;

/// What is called before and after each Process call of a calculator. It is given the node's number and the number of
/// the set, counted from 0. It tells nothing and changes no answer: a test may use it to watch when calls are made, or
/// to hold up a call.
pub trait Gate {
    /// Is called before the Process call.
    fn enter(&self, node: u32, number: u64);

    /// Is called after the Process call.
    fn leave(&self, node: u32, number: u64);
}

/// A gate that does nothing.
#[derive(Clone, Copy, Debug, Default, PartialEq, Eq)]
pub struct StillGate;

impl Gate for StillGate {
    fn enter(&self, _node: u32, _number: u64) {}

    fn leave(&self, _node: u32, _number: u64) {}
}

/// A gate at which two Process calls meet. Each call is named by its node and the number of its set. The call that comes first is held
/// until the other has entered, or for `turns` turns.
#[derive(Drop)]
pub struct MeetGate {
    /// The one call: its node and the number of its set.
    pub first: (u32, u64),
    /// The other call.
    pub second: (u32, u64),
    /// How often the call that waits looks for the other one.
    pub turns: u64,
    // Whether the first call waits or has met the second, and whether the second waits or has met the first.
    first_in: AtomicBool,
    second_in: AtomicBool,
    // Whether the two calls have met.
    met: AtomicBool,
}

impl MeetGate {
    /// Makes a gate for these two calls, which haven't met.
    pub fn new(first: (u32, u64), second: (u32, u64), turns: u64) -> MeetGate
        ensures calls { (result.first ≡ first) × (result.second ≡ second) }
        ensures turns { result.turns ≡ turns }
    {
        MeetGate {
            first,
            second,
            turns,
            first_in: AtomicBool::new(false),
            second_in: AtomicBool::new(false),
            met: AtomicBool::new(false),
        }
    }

    /// Returns whether the two calls have met.
    pub fn met(&self) -> bool {
        self.met.load(SeqCst)
    }

    // Holds a call until the other one has entered, or for `turns` turns. After these turns it counts as a call that hasn't
    // come.
    fn meet(&self, mine: &AtomicBool, theirs: &AtomicBool) {
        mine.store(true, SeqCst);
        for _ in 0..self.turns {
            if theirs.load(SeqCst) {
                self.met.store(true, SeqCst);
                return;
            }
            thread::yield_now();
        }
        mine.store(false, SeqCst);
    }
}

impl Gate for MeetGate {
    fn enter(&self, node: u32, number: u64) {
        if node == self.first.0 && number == self.first.1 {
            self.meet(&self.first_in, &self.second_in);
        } else if node == self.second.0 && number == self.second.1 {
            self.meet(&self.second_in, &self.first_in);
        }
    }

    fn leave(&self, _node: u32, _number: u64) {}
}
