//! The descriptors whose locks a call has.
ghost use Rattle.std.specs.Prelude.{◌≡◌, ◌<◌, ◌≤◌, ◌++◌, ◌∷◌, [], length, All};
ghost use Rattle.std.specs.List.Sorted.{IsStrictlyIncreasing};
ghost use Rattle.sa_journal.specs.Parties.{among};

use std::marker::Model;

const MOST: usize = 5;

/// Numbers of descriptors, each once and in rising order, at most five. Contracts see their list.
#[derive(Debug, Drop)]
pub struct Locks {
    numbers: [u8; MOST],
    count: usize,
}

impl Model for Locks {
    ghost use Rattle.std.specs.Prelude.{◌≤◌, List, ℕ, take};
    ghost use Rattle.std.specs.List.Sorted.{IsStrictlyIncreasing};

    ghost Value = { List ℕ };

    ghost view = { λ l. take l.count l.numbers };

    ghost invariant = { λ l. (l.count ≤ 5) × IsStrictlyIncreasing (take l.count l.numbers) };
}

impl Locks {
    /// No number.
    pub fn none() -> Locks
        ensures { result ≡ [] }
    {
        Locks {
            numbers: [0; MOST],
            count: 0,
        }
    }

    /// Puts a number last, which is above each of the others.
    pub fn add(&mut self, number: u8)
        requires room { length self.old < 5 }
        requires above { All (λ n. n < number) self.old }
        ensures { self.new ≡ self.old ++ number ∷ [] }
    {
        self.numbers[self.count] = number;
        self.count += 1;
    }

    /// The numbers, in order.
    pub fn as_slice(&self) -> &[u8]
        ensures numbers { result.now ≡ self.now }
        ensures rising { IsStrictlyIncreasing self.now }
        ensures few { length self.now ≤ 5 }
    {
        &self.numbers[..self.count]
    }

    /// Whether a number is among them.
    pub(crate) fn has(&self, number: u8) -> bool
        ensures { result ≡ among number self.now }
    {
        self.as_slice().contains(&number)
    }
}
