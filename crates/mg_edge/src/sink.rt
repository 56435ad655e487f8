ghost use Rattle.std.specs.Prelude.{◌<◌, length};
ghost use Rattle.mg_edge.specs.Edge.{SinkTold, TakesWithin, WriteAppends, WriteFaultCounts};

/// What a write answers.
#[derive(Clone, Copy, Debug, PartialEq, Eq)]
pub enum Put {
    /// So many bytes were taken from the start of the piece, at least one.
    Took(usize),
    /// The write failed, and took nothing.
    Failed,
}

/// Where bytes go: a file, a terminal, or memory.
pub trait Sink {
    /// What the sink tells of itself.
    ghost told: { Self → SinkTold };

    /// Writes bytes from the start of `piece`, which has at least one. It may take fewer than there are.
    ///
    /// A write that takes nothing is `Failed`.
    fn write(&mut self, piece: &[u8]) -> Put
        requires { 0 < length piece.now }
        ensures bound { TakesWithin result (length piece.now) }
        ensures bytes { WriteAppends (told self.old).taken (told self.new).taken result piece.now }
        ensures fault { WriteFaultCounts (told self.old).faults (told self.new).faults result };
}
