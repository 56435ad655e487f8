ghost use Rattle.std.specs.Prelude.{◌≡◌, ◌<◌, ◌≤◌, length, take, IfOk, Some};
ghost use Rattle.mg_edge.specs.Edge.{GivesWithin, ReadTakes, CountsOne, EndCounts, ReadFaultCounts, KeepsLeftAtBytes, KeepsLeftAtFault};
ghost use Rattle.mg_edge.specs.InMemory.{SourceState, whole_source, source_told, next_got, after_got};

use crate::{Got, Source};
use std::alloc::{AllocError, Global};
use std::marker::Model;

/// A source over bytes in memory, which fails at the reads that it is told to. Contracts see the bytes that are left,
/// the most that one read gives, and the numbers of the reads that fail. They also see how many reads, ends and faults
/// there were. And they see what was left before the last read that gave bytes, and at the read that failed last.
#[derive(Drop)]
pub struct MemorySource {
    bytes: Vec<u8>,
    at: usize,
    piece: usize,
    failing: Vec<u64>,
    reads: u64,
    ends: u64,
    faults: u64,
    // The place in the bytes at which the last read that gave bytes began, if one did.
    gave_at: Option<usize>,
    // The place in the bytes at which the read that failed last stood, if one failed.
    failed_at: Option<usize>,
}

impl Model for MemorySource {
    ghost use Rattle.std.specs.Prelude.{◌≤◌, drop, vec_len};
    ghost use Rattle.std.specs.Option.{option_map};
    ghost use Rattle.mg_edge.specs.InMemory.{SourceState};

    ghost Value = { SourceState };

    ghost view = { λ s. record {
      left = drop s.at s.bytes.items;
      piece = s.piece;
      failing = s.failing.items;
      reads = s.reads;
      ends = s.ends;
      faults = s.faults;
      left_at_bytes = option_map (λ at. drop at s.bytes.items) s.gave_at;
      left_at_fault = option_map (λ at. drop at s.bytes.items) s.failed_at;
    } };

    ghost invariant = { λ s. (s.at ≤ vec_len s.bytes) × (1 ≤ s.piece) };
}

impl MemorySource {
    /// Makes a source of a copy of `bytes`. A read gives at most `piece` bytes, and `piece` has to be at least 1. The reads whose
    /// numbers are in `failing` fail, counted from 0.
    pub fn new(
        alloc: Global,
        bytes: &[u8],
        piece: usize,
        failing: &[u64],
    ) -> Result<MemorySource, AllocError>
        requires { 1 ≤ piece }
        ensures { IfOk result (λ source. source ≡ whole_source bytes.now piece failing.now) }
    {
        Ok(MemorySource {
            bytes: bytes.to_vec(alloc)?,
            at: 0,
            piece,
            failing: failing.to_vec(alloc)?,
            reads: 0,
            ends: 0,
            faults: 0,
            gave_at: None,
            failed_at: None,
        })
    }

    /// Returns how many reads there were. After 2^64 - 1 it goes on from 0.
    pub fn reads(&self) -> u64
        ensures { result ≡ self.now.reads }
    {
        self.reads
    }

    /// Returns how many reads answered `End`. After 2^64 - 1 it goes on from 0.
    pub fn ends(&self) -> u64
        ensures { result ≡ self.now.ends }
    {
        self.ends
    }

    /// Returns how many reads failed. After 2^64 - 1 it goes on from 0.
    pub fn faults(&self) -> u64
        ensures { result ≡ self.now.faults }
    {
        self.faults
    }
}

impl Source for MemorySource {
    ghost told = { source_told };

    fn read(&mut self, buf: &mut [u8]) -> Got
        requires { 0 < length buf.old }
        ensures bound { GivesWithin result (length buf.new) }
        ensures bytes { ReadTakes (Some self.old.left) (Some self.new.left) result buf.new }
        ensures counted { CountsOne (Some self.old.reads) (Some self.new.reads) }
        ensures end { EndCounts self.old.ends self.new.ends result }
        ensures fault { ReadFaultCounts self.old.faults self.new.faults result }
        ensures left_at_bytes { KeepsLeftAtBytes (Some self.old.left_at_bytes) (Some self.new.left_at_bytes) result (Some self.old.left) }
        ensures left_at_fault { KeepsLeftAtFault (Some self.old.left_at_fault) (Some self.new.left_at_fault) result (Some self.old.left) }
        ensures answer { result ≡ next_got self.old (length buf.new) }
        ensures after { self.new ≡ after_got self.old result }
    {
        let number = self.reads;
        self.reads = number.wrapping_add(1);
        if self.failing.contains(&number) {
            self.faults = self.faults.wrapping_add(1);
            self.failed_at = Some(self.at);
            return Got::Failed;
        }
        let left = &self.bytes[self.at..];
        let count = self.piece.min(buf.len()).min(left.len());
        if count == 0 {
            self.ends = self.ends.wrapping_add(1);
            return Got::End;
        }
        copy_to_front(buf, &left[..count]);
        self.gave_at = Some(self.at);
        self.at += count;
        Got::Bytes(count)
    }
}

// Writes bytes over the front of a buffer.
fn copy_to_front(buf: &mut [u8], bytes: &[u8])
    requires { length bytes.now ≤ length buf.old }
    ensures { take (length bytes.now) buf.new ≡ bytes.now }
{
    buf[..bytes.len()].copy_from_slice(bytes);
}
