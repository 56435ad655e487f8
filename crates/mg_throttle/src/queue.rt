ghost use Rattle.std.specs.Prelude.{◌≡◌, ◌+◌, ◌^◌, ◌<◌};
ghost use Rattle.mg_throttle.specs.Throttle.{is_full, relaxed};

/// The queue of an edge: how many packets wait at its end, and its limit.
#[derive(Clone, Copy)]
pub(crate) struct Queue {
    /// The number of the consumer.
    pub(crate) node: u32,
    /// How many packets wait.
    pub(crate) waiting: u64,
    /// How many may wait before the feeders are throttled, if there is a limit.
    pub(crate) limit: Option<u64>,
    /// Whether the queue counts: its consumer is a node, and hasn't stopped.
    pub(crate) counts: bool,
}

impl Queue {
    /// Whether the queue is full: the feeders that reach its consumer are throttled then.
    pub(crate) fn is_full(&self) -> bool
        ensures { result ≡ is_full self.now }
    {
        match self.limit {
            None => false,
            Some(limit) => self.counts && limit <= self.waiting,
        }
    }

    /// Returns the queue; if it is full, with a limit of one packet more than wait in it.
    pub(crate) fn relaxed(self) -> Queue
        requires { self.waiting + 1 < 2 ^ 64 }
        ensures { result ≡ relaxed self }
    {
        if self.is_full() {
            Queue {
                limit: Some(self.waiting + 1),
                ..self
            }
        } else {
            self
        }
    }
}
