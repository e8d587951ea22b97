ghost use Rattle.std.specs.Prelude.{◌≡◌, ◌≤◌, ◌<◌, length};
ghost use Rattle.sa_base.specs.Streams.{Reads};
ghost use Rattle.sa_base.specs.Fakes.{told_by_source, mem_got, mem_source_after};

use crate::source::{Got, Source};
use std::marker::Model;

/// A source over bytes in memory, for tests: it gives pieces of a stated length, and the calls whose
/// numbers, from 0, stand in a list fail.
#[derive(Drop)]
pub struct MemSource {
    bytes: Vec<u8>,
    place: usize,
    piece: usize,
    fails: Vec<u64>,
    calls: u64,
    faults: u64,
}

impl Model for MemSource {
    ghost use Rattle.std.specs.Prelude.{◌≤◌, drop, vec_len};
    ghost use Rattle.sa_base.specs.Fakes.{MemSourceValue};

    ghost Value = { MemSourceValue };

    ghost view = { λ s. record {
      left = drop s.place s.bytes.items;
      piece = s.piece;
      fails = s.fails.items;
      calls = s.calls;
      faults = s.faults;
    } };

    ghost invariant = { λ s. (s.place ≤ vec_len s.bytes) × (1 ≤ s.piece) };
}

impl MemSource {
    /// A source of these bytes that gives at most `piece` bytes a read, and whose reads with the
    /// numbers in `fails` fail.
    pub fn new(bytes: Vec<u8>, piece: usize, fails: Vec<u64>) -> MemSource
        requires { 1 ≤ piece }
        ensures { result ≡ record { left = bytes.items; piece = piece; fails = fails.items; calls = 0; faults = 0 } }
    {
        MemSource {
            bytes,
            place: 0,
            piece,
            fails,
            calls: 0,
            faults: 0,
        }
    }
}

impl Source for MemSource {
    ghost stream = { told_by_source };

    fn read(&mut self, to: &mut [u8]) -> Got
        requires { 0 < length to.old }
        ensures reads { Reads (told_by_source self.old) (told_by_source self.new) to.new result }
        ensures kept { self.old.faults ≤ self.new.faults }
        ensures answer { result ≡ mem_got self.old (length to.old) }
        ensures after { self.new ≡ mem_source_after self.old result }
    {
        let call = self.calls;
        self.calls = call.saturating_add(1);
        if self.fails.contains(&call) {
            self.faults = self.faults.saturating_add(1);
            return Got::Failed;
        }
        let rest = &self.bytes[self.place..];
        if rest.is_empty() {
            return Got::End;
        }
        let count = self.piece.min(to.len()).min(rest.len());
        to[..count].copy_from_slice(&rest[..count]);
        self.place += count;
        Got::Bytes(count)
    }
}
