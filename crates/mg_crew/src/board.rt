use crate::shop::Came;
use crossbeam_utils::CachePadded;
use std::sync::Wait;
use std::sync::atomic::Ordering::SeqCst;
use std::sync::atomic::{AtomicBool, AtomicU64};
use std::thread;

// How often an idle worker looks for news before it sleeps. That takes about as long as to wake it.
const LOOKS: u32 = 16;

/// What workers tell each other. One count says how often there was something new, so that idle workers know when to look
/// again. Another says how many workers have nothing to do, so that the last of them knows that it is the last. No contract
/// rests on the board.
#[derive(Drop)]
pub(crate) struct Board {
    news: CachePadded<AtomicU64>,
    idle: CachePadded<AtomicU64>,
    // How many workers sleep, or are about to; and how many of these were woken since one of them last noticed that.
    asleep: CachePadded<AtomicU64>,
    called: CachePadded<AtomicU64>,
    begun: AtomicU64,
    // Whether a worker is looking over all nodes, and whether one has done that and found nothing.
    looking: AtomicBool,
    over: AtomicBool,
    // Whether a worker brings packets from the graph inputs, or found that no packet could be brought.
    fed: AtomicBool,
    // Whether some work found no memory.
    short: AtomicBool,
    // How many turns of workers that have ended were in vain.
    vain: AtomicU64,
}

impl Board {
    /// Returns a board on which no worker has begun.
    pub(crate) fn new() -> Board {
        Board {
            news: CachePadded::new(AtomicU64::new(0)),
            idle: CachePadded::new(AtomicU64::new(0)),
            asleep: CachePadded::new(AtomicU64::new(0)),
            called: CachePadded::new(AtomicU64::new(0)),
            begun: AtomicU64::new(0),
            looking: AtomicBool::new(false),
            over: AtomicBool::new(false),
            fed: AtomicBool::new(false),
            short: AtomicBool::new(false),
            vain: AtomicU64::new(0),
        }
    }

    /// Notes that a worker begins, and returns whether it is the first.
    pub(crate) fn begin(&self) -> bool {
        self.begun.fetch_add(1, SeqCst) == 0
    }

    /// Returns how often there was something new so far.
    pub(crate) fn news(&self) -> u64 {
        self.news.load(SeqCst)
    }

    /// Tells idle workers that there is something new, and wakes one of those that sleep, unless all of them were woken.
    pub(crate) fn tell(&self) {
        self.news.fetch_add(1, SeqCst);
        if self.has_sleeper() {
            self.called.fetch_add(1, SeqCst);
            self.news.wake_one();
        }
    }

    /// Whether some worker sleeps that wasn't woken since.
    pub(crate) fn has_sleeper(&self) -> bool {
        self.asleep.load(SeqCst) > self.called.load(SeqCst)
    }

    /// Notes that a worker has nothing to do. Returns whether the worker is to look over all nodes. It is if all workers that
    /// have begun are idle, and no other worker is looking or has looked in vain.
    pub(crate) fn rest(&self) -> bool {
        let idle = self.idle.fetch_add(1, SeqCst).wrapping_add(1);
        idle >= self.begun.load(SeqCst)
            && !self.over.load(SeqCst)
            && !self.looking.swap(true, SeqCst)
    }

    /// Notes what the worker that looked over all nodes found: something, and it goes on; or nothing, and all workers end.
    pub(crate) fn settle(&self, found: bool) {
        if found {
            self.idle.fetch_sub(1, SeqCst);
        } else {
            self.over.store(true, SeqCst);
            self.news.fetch_add(1, SeqCst);
            self.news.wake_all();
        }
        self.looking.store(false, SeqCst);
    }

    // Sleeps until the count of news isn't `seen` any more, or until the worker is woken for no reason.
    fn sleep<R: Wait>(&self, rt: &R, seen: u64) {
        self.asleep.fetch_add(1, SeqCst);
        self.news.park(rt, (seen & 0xffff_ffff) as u32);
        self.asleep.fetch_sub(1, SeqCst);
        self.called.store(0, SeqCst);
    }

    // Waits until the count of news isn't `seen` any more. After some looks the worker sleeps.
    fn wait_for_news<R: Wait>(&self, rt: &R, seen: u64) {
        for _ in 0..LOOKS {
            if self.news() != seen {
                return;
            }
            thread::yield_now();
        }
        for _ in rt.forever() {
            if self.news() != seen {
                return;
            }
            self.sleep(rt, seen);
        }
    }

    /// Waits as an idle worker, until the count of news isn't `seen` any more or until all workers end. Returns whether there is news.
    pub(crate) fn wait<R: Wait>(&self, rt: &R, seen: u64) -> bool {
        if !self.over.load(SeqCst) {
            self.wait_for_news(rt, seen);
        }
        if self.over.load(SeqCst) {
            return false;
        }
        self.idle.fetch_sub(1, SeqCst);
        true
    }

    /// Returns whether the worker that asks is to bring packets from the graph inputs: it is, unless another one does or none are left.
    pub(crate) fn takes_inputs(&self) -> bool {
        !self.fed.load(SeqCst) && !self.fed.swap(true, SeqCst)
    }

    /// Notes what came of bringing packets from the graph inputs. If anything did, there may be more. What couldn't be brought,
    /// since another worker had a consumer's turn, is left to that worker.
    pub(crate) fn fed(&self, came: &Came) {
        if came.did | came.more {
            self.leave_inputs();
        }
    }

    /// Notes that there may be more packets at the graph inputs, and that no worker brings them.
    pub(crate) fn leave_inputs(&self) {
        self.fed.store(false, SeqCst);
    }

    /// Notes whether a work found memory.
    pub(crate) fn found_memory(&self, found: bool) {
        if !found {
            self.short.store(true, SeqCst);
        }
    }

    /// Whether some work found no memory so far.
    pub(crate) fn is_short(&self) -> bool {
        self.short.load(SeqCst)
    }

    /// Adds how many turns of a worker were in vain.
    pub(crate) fn note_vain(&self, turns: u64) {
        self.vain.fetch_add(turns, SeqCst);
    }

    /// Returns how many turns of the workers that have ended were in vain.
    pub(crate) fn vain(&self) -> u64 {
        self.vain.load(SeqCst)
    }
}
