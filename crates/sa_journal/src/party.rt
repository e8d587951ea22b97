//! Those for whom a journal keeps chains.
ghost use Rattle.std.specs.Prelude.{◌≡◌, ◌<◌, ◌+◌, ◌^◌, length};
ghost use Rattle.sa_journal.specs.Parties.{IsParty, names, seat_of, party_at, debt_of, owed_by};

use crate::deed::Deed;

const MOST_DESCRS: usize = 8;

/// How many parties a line can be owed to: each descriptor, and its task.
pub(crate) const DEBTS: usize = MOST_DESCRS + 1;

/// A descriptor or a task, by its number.
#[derive(Clone, Copy, Debug, PartialEq, Eq)]
pub enum Party {
    Descr(u8),
    Task(u32),
}

impl Party {
    /// Its place among all parties of a journal with this many descriptors.
    pub(crate) fn seat(self, descrs: u8) -> usize
        ensures { result ≡ seat_of descrs self }
    {
        match self {
            Party::Descr(number) => usize::from(number),
            Party::Task(number) => usize::from(descrs) + number as usize,
        }
    }

    /// The party at a place, with this many descriptors.
    pub(crate) fn at(descrs: u8, seat: usize) -> Party
        requires { seat < descrs + 2 ^ 32 }
        ensures { result ≡ party_at descrs seat }
    {
        if seat < usize::from(descrs) {
            Party::Descr(seat as u8)
        } else {
            Party::Task((seat - usize::from(descrs)) as u32)
        }
    }

    /// Its place among those that one line can be owed to.
    pub(crate) fn debt(self) -> usize
        ensures { result ≡ debt_of self }
    {
        match self {
            Party::Descr(number) => usize::from(number),
            Party::Task(_) => MOST_DESCRS,
        }
    }

    /// Whether a deed names it.
    pub(crate) fn is_named<D: Deed>(self, deed: &D) -> bool
        ensures { result ≡ names (D.said deed.now) self }
    {
        match self {
            Party::Descr(number) => deed.locks().has(number),
            Party::Task(number) => deed.task() == number,
        }
    }
}

/// To which parties a line that says this is owed, by their places.
pub(crate) fn debts<D: Deed>(deed: &D) -> [bool; DEBTS]
    ensures { result ≡ owed_by (D.said deed.now) }
{
    let locks = deed.locks();
    [
        locks.has(0),
        locks.has(1),
        locks.has(2),
        locks.has(3),
        locks.has(4),
        locks.has(5),
        locks.has(6),
        locks.has(7),
        true,
    ]
}
