ghost use Rattle.std.specs.Prelude.{◌<◌, length};
ghost use Rattle.mg_edge.specs.Edge.{SourceTold, GivesWithin, ReadTakes, CountsOne, EndCounts, ReadFaultCounts, KeepsLeftAtBytes, KeepsLeftAtFault};

/// What a read answers.
#[derive(Clone, Copy, Debug, PartialEq, Eq)]
pub enum Got {
    /// So many bytes are at the start of the buffer, at least one.
    Bytes(usize),
    /// No byte is left.
    End,
    /// The read failed, and took nothing.
    Failed,
}

/// Where bytes come from: a file, a terminal, or bytes in memory.
pub trait Source {
    /// What the source tells of itself.
    ghost told: { Self → SourceTold };

    /// Reads the next bytes into the start of `buf`, which has room for at least one.
    ///
    /// If the source tells the bytes that are left, the answer is `End` or `Failed`, or the first of them. A read that
    /// fails takes nothing, and the next one goes on from there.
    fn read(&mut self, buf: &mut [u8]) -> Got
        requires { 0 < length buf.old }
        ensures bound { GivesWithin result (length buf.new) }
        ensures bytes { ReadTakes (told self.old).left (told self.new).left result buf.new }
        ensures counted { CountsOne (told self.old).reads (told self.new).reads }
        ensures end { EndCounts (told self.old).ends (told self.new).ends result }
        ensures fault { ReadFaultCounts (told self.old).faults (told self.new).faults result }
        ensures left_at_bytes { KeepsLeftAtBytes (told self.old).left_at_bytes (told self.new).left_at_bytes result (told self.old).left }
        ensures left_at_fault { KeepsLeftAtFault (told self.old).left_at_fault (told self.new).left_at_fault result (told self.old).left };
}
