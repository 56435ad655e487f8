ghost use Rattle.std.specs.Prelude.{◌≡◌, ◌<◌, ◌≤◌, length, IfOk, Some};
ghost use Rattle.mg_edge.specs.Edge.{TakesWithin, WriteAppends, WriteFaultCounts};
ghost use Rattle.mg_edge.specs.InMemory.{SinkState, empty_sink, slow_sink, sink_told, next_put, after_put};

use crate::{Put, Sink};
use std::alloc::{AllocError, Global};
use std::marker::Model;

/// A sink in memory with a fixed room, which fails at the writes that it is told to. Contracts see the bytes taken, the
/// room, and the most that one write takes. They also see the numbers of the writes that fail, and how many writes and
/// faults there were.
#[derive(Drop)]
pub struct MemorySink {
    taken: Vec<u8>,
    room: usize,
    most: usize,
    failing: Vec<u64>,
    writes: u64,
    faults: u64,
}

impl Model for MemorySink {
    ghost use Rattle.std.specs.Prelude.{◌≤◌, vec_len, vec_capacity};
    ghost use Rattle.mg_edge.specs.InMemory.{SinkState};

    ghost Value = { SinkState };

    ghost view = { λ s. record {
      taken = s.taken.items;
      room = s.room;
      most = s.most;
      failing = s.failing.items;
      writes = s.writes;
      faults = s.faults;
    } };

    ghost invariant = { λ s. (vec_len s.taken ≤ s.room) × (s.room ≤ vec_capacity s.taken) × (1 ≤ s.most) };
}

impl MemorySink {
    /// Makes an empty sink that has taken memory for `room` bytes. The writes whose numbers are in `failing` fail, counted
    /// from 0.
    pub fn new(alloc: Global, room: usize, failing: &[u64]) -> Result<MemorySink, AllocError>
        ensures { IfOk result (λ sink. sink ≡ empty_sink room failing.now) }
    {
        MemorySink::slow(alloc, room, usize::MAX, failing)
    }

    /// Makes a sink as [`new`](MemorySink::new) does, but one write takes at most `most` bytes. `most` has to be at least 1.
    /// Such a sink behaves like a pipe or a socket: it takes what there is room for, and leaves the rest to the next write.
    pub fn slow(
        alloc: Global,
        room: usize,
        most: usize,
        failing: &[u64],
    ) -> Result<MemorySink, AllocError>
        requires { 1 ≤ most }
        ensures { IfOk result (λ sink. sink ≡ slow_sink room most failing.now) }
    {
        Ok(MemorySink {
            taken: Vec::with_capacity(alloc, room)?,
            room,
            most,
            failing: failing.to_vec(alloc)?,
            writes: 0,
            faults: 0,
        })
    }

    /// Returns the bytes taken so far.
    pub fn taken(&self) -> &[u8]
        ensures { result.now ≡ self.now.taken }
    {
        &self.taken
    }

    /// Returns how many writes there were. After 2^64 - 1 it goes on from 0.
    pub fn writes(&self) -> u64
        ensures { result ≡ self.now.writes }
    {
        self.writes
    }

    /// Returns how many writes failed. After 2^64 - 1 it goes on from 0.
    pub fn faults(&self) -> u64
        ensures { result ≡ self.now.faults }
    {
        self.faults
    }
}

impl Sink for MemorySink {
    ghost told = { sink_told };

    fn write(&mut self, piece: &[u8]) -> Put
        requires { 0 < length piece.now }
        ensures bound { TakesWithin result (length piece.now) }
        ensures bytes { WriteAppends (Some self.old.taken) (Some self.new.taken) result piece.now }
        ensures fault { WriteFaultCounts self.old.faults self.new.faults result }
        ensures answer { result ≡ next_put self.old (length piece.now) }
        ensures after { self.new ≡ after_put self.old piece.now result }
    {
        let number = self.writes;
        self.writes = number.wrapping_add(1);
        let left = self.room - self.taken.len();
        if left == 0 || self.failing.contains(&number) {
            self.faults = self.faults.wrapping_add(1);
            return Put::Failed;
        }
        let count = piece.len().min(self.most).min(left);
        let Ok(()) = self.taken.extend_from_slice(&piece[..count]) else {
            unreachable!()
        };
        Put::Took(count)
    }
}
