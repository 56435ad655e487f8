use mg_edge::Gate;
use std::rt::Clock;
use std::thread;
use std::time::Duration;

/// A gate in which each call sleeps, unless the time is 0.
#[derive(Drop)]
pub struct Nap<'a, R> {
    pub rt: &'a R,
    pub time: Duration,
}

impl<'a, R: Clock> Gate for Nap<'a, R> {
    fn enter(&self, _node: u32, _number: u64) {
        if !self.time.is_zero() {
            thread::sleep(self.rt, self.time);
        }
    }

    fn leave(&self, _node: u32, _number: u64) {}
}
