ghost use Rattle.std.specs.Prelude.{◌≡◌, ◌≤◌, ◌<◌, length, [], IfOk};
ghost use Rattle.sa_base.specs.Streams.{Writes};
ghost use Rattle.sa_base.specs.Fakes.{told_by_sink, mem_took, mem_sink_after};

use crate::memory::Memory;
use crate::sink::{Sink, Took};
use std::alloc::Global;
use std::marker::Model;

/// A sink into memory, for tests: it has room for a stated number of bytes, takes pieces of a stated
/// length, and the calls whose numbers, from 0, stand in a list fail.
#[derive(Drop)]
pub struct MemSink {
    bytes: Vec<u8>,
    room: usize,
    piece: usize,
    fails: Vec<u64>,
    calls: u64,
    faults: u64,
}

impl Model for MemSink {
    ghost use Rattle.std.specs.Prelude.{◌≤◌, ◌+◌, vec_len, vec_capacity};
    ghost use Rattle.sa_base.specs.Fakes.{MemSinkValue};

    ghost Value = { MemSinkValue };

    ghost view = { λ s. record {
      written = s.bytes.items;
      room = s.room;
      piece = s.piece;
      fails = s.fails.items;
      calls = s.calls;
      faults = s.faults;
    } };

    ghost invariant = { λ s. (vec_len s.bytes + s.room ≤ vec_capacity s.bytes) × (1 ≤ s.piece) };
}

impl MemSink {
    /// An empty sink with room for `room` bytes, which is taken now, that takes at most `piece` bytes
    /// a write, and whose writes with the numbers in `fails` fail.
    pub fn new(alloc: Global, room: usize, piece: usize, fails: Vec<u64>) -> Result<MemSink, Memory>
        requires { 1 ≤ piece }
        ensures { IfOk result (λ s. s ≡ record { written = []; room = room; piece = piece; fails = fails.items; calls = 0; faults = 0 }) }
    {
        Ok(MemSink {
            bytes: Vec::with_capacity(alloc, room)?,
            room,
            piece,
            fails,
            calls: 0,
            faults: 0,
        })
    }

    /// The bytes that were written.
    pub fn bytes(&self) -> &[u8]
        ensures { result.now ≡ self.now.written }
    {
        self.bytes.as_slice()
    }
}

impl Sink for MemSink {
    ghost stream = { told_by_sink };

    fn write(&mut self, from: &[u8]) -> Took
        requires { 0 < length from.now }
        ensures writes { Writes (told_by_sink self.old) (told_by_sink self.new) from.now result }
        ensures kept { self.old.faults ≤ self.new.faults }
        ensures answer { result ≡ mem_took self.old (length from.now) }
        ensures after { self.new ≡ mem_sink_after self.old from.now result }
    {
        let call = self.calls;
        self.calls = call.saturating_add(1);
        if self.fails.contains(&call) || self.room == 0 {
            self.faults = self.faults.saturating_add(1);
            return Took::Failed;
        }
        let count = self.piece.min(self.room).min(from.len());
        match self.bytes.extend_from_slice(&from[..count]) {
            Ok(()) => {}
            Err(_) => unreachable!(),
        }
        self.room -= count;
        Took::Bytes(count)
    }
}
