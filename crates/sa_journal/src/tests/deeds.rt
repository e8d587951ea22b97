//! A small deed, and chains that lie behind locks or with a task.
ghost use Rattle.std.specs.Prelude.{◌≡◌, ◌<◌, ◌-◌, [], ◌∷◌, true, false, length, set, slice_get, slice_index_or, Some, OnOk};
ghost use Rattle.sa_journal.specs.declared.party.Party.TheVariants.{Descr, Task};
ghost use Rattle.sa_journal.specs.Said.{Said, DoneSaid};
ghost use Rattle.sa_journal.specs.Parties.{names, seat_of, debt_of, IsParty};
ghost use Rattle.sa_journal.specs.Chains.{chain_of};
ghost use Rattle.sa_journal.specs.Journals.{IsNew};

use crate::{Binding, Chain, Deed, Ended, Locks, Party, Turn};
use sa_base::Memory;
use std::marker::PhantomData;

/// A deed that read and wrote nothing.
#[derive(Drop)]
pub(crate) struct Note {
    task: u32,
    call: u32,
    locks: Locks,
}

impl Note {
    pub(crate) fn new(task: u32, call: u32, locks: Locks) -> Note
        ensures { result ≡ record { task = task; call = call; locks = locks } }
    {
        Note { task, call, locks }
    }
}

impl Deed for Note {
    ghost use Rattle.std.specs.Prelude.{[]};
    ghost use Rattle.sa_journal.specs.Said.{DoneSaid};

    ghost said = { λ n. record {
      task = n.task;
      call = n.call;
      locks = n.locks;
      parts = [];
      writes = [];
      reply = DoneSaid;
    } };

    fn task(&self) -> u32 {
        self.task
    }

    fn call(&self) -> u32 {
        self.call
    }

    fn locks(&self) -> &Locks {
        &self.locks
    }
}

/// The chain of descriptor K of the binding's journal.
#[derive(Drop)]
pub(crate) struct Kept<D: Deed, B: Binding, const K: u8> {
    chain: Chain<D>,
    of: PhantomData<B>,
    ghost party_is: { chain.it.party ≡ Descr K },
    ghost roll_is: { chain.it.roll ≡ B.roll },
    ghost tie_is: { slice_get B.ties K ≡ Some chain.it.tie },
}

impl<D: Deed, B: Binding, const K: u8> Kept<D, B, K> {
    pub(crate) fn new(chain: Chain<D>) -> Kept<D, B, K>
        requires descr { K < length B.shapes }
        requires new { IsNew B.roll B.ties (length B.shapes) K chain.it }
    {
        Kept {
            chain,
            of: PhantomData,
        }
    }

    pub(crate) fn reserve(&mut self) -> Result<(), Memory>
        ensures { OnOk result (0 < self.new.chain.room) }
    {
        self.chain.reserve()
    }

    // A turn that has not linked the chain tells that it has the keys of the journal's lines.
    pub(crate) fn compare(&mut self, turn: &mut Turn<'_, D, B>)
        requires party { IsParty (length B.shapes) B.tasks (Descr K) }
        requires owed { slice_index_or turn.old.owed K false ≡ true }
        ensures same { (turn.new ≡ turn.old) × (self.new.chain.room ≡ self.old.chain.room) }
    {
        turn.compare(&mut self.chain);
    }

    pub(crate) fn link(&mut self, turn: &mut Turn<'_, D, B>)
        requires named { names (D.said turn.old.line.1.deed) (Descr K) ≡ true }
        requires owed { slice_index_or turn.old.owed K false ≡ true }
        requires room { 0 < self.old.chain.room }
        ensures line { turn.new.line ≡ turn.old.line }
        ensures paid { turn.new.owed ≡ set turn.old.owed K false }
    {
        turn.link(&mut self.chain);
    }

    // How many lines it has, which are those of the ended journal that name its descriptor.
    pub(crate) fn count(&mut self, ended: &mut Ended<D>) -> u64
        requires roll { ended.old.roll ≡ B.roll }
        requires ties { ended.old.ties ≡ B.ties }
        requires party { IsParty ended.old.descrs ended.old.tasks (Descr K) }
        ensures same { ended.new ≡ ended.old }
        ensures count { result ≡ length (chain_of D.said (Descr K) ended.new.lines) }
    {
        ended.compare(&mut self.chain);
        self.chain.count()
    }

    pub(crate) fn stands_in(&self, ended: &Ended<D>) -> bool {
        stands_in(&self.chain, ended)
            && matches!(self.chain.party(), Party::Descr(number) if number == K)
    }
}

// Whether each line of a chain stands in the ended journal, at its number and under its key.
pub(crate) fn stands_in<D: Deed>(chain: &Chain<D>, ended: &Ended<D>) -> bool {
    for k in 0..chain.count() {
        let Some(line) = chain.line(k) else {
            return false;
        };
        if chain.key(k) != ended.key(line.number) {
            return false;
        }
    }
    true
}

/// The chain of a task of the binding's journal.
#[derive(Drop)]
pub(crate) struct Pass<D: Deed, B: Binding> {
    pub(crate) task: u32,
    chain: Chain<D>,
    of: PhantomData<B>,
    ghost party_is: { chain.it.party ≡ Task task },
    ghost roll_is: { chain.it.roll ≡ B.roll },
    ghost tie_is: { slice_get B.ties (seat_of (length B.shapes) (Task task)) ≡ Some chain.it.tie },
}

impl<D: Deed, B: Binding> Pass<D, B> {
    pub(crate) fn new(task: u32, chain: Chain<D>) -> Pass<D, B>
        requires { IsNew B.roll B.ties (length B.shapes) (seat_of (length B.shapes) (Task task)) chain.it }
        ensures { result.task ≡ task }
    {
        Pass {
            task,
            chain,
            of: PhantomData,
        }
    }

    pub(crate) fn reserve(&mut self) -> Result<(), Memory>
        ensures task { self.new.task ≡ self.old.task }
        ensures room { OnOk result (0 < self.new.chain.room) }
    {
        self.chain.reserve()
    }

    pub(crate) fn link(&mut self, turn: &mut Turn<'_, D, B>)
        requires named { names (D.said turn.old.line.1.deed) (Task self.old.task) ≡ true }
        requires owed { slice_index_or turn.old.owed 8 false ≡ true }
        requires room { 0 < self.old.chain.room }
        ensures task { self.new.task ≡ self.old.task }
        ensures line { turn.new.line ≡ turn.old.line }
        ensures paid { turn.new.owed ≡ set turn.old.owed 8 false }
    {
        turn.link(&mut self.chain);
    }

    // How many lines it has, which are those of the ended journal that name its task.
    pub(crate) fn count(&mut self, ended: &mut Ended<D>) -> u64
        requires roll { ended.old.roll ≡ B.roll }
        requires ties { ended.old.ties ≡ B.ties }
        requires descrs { ended.old.descrs ≡ length B.shapes }
        requires party { IsParty ended.old.descrs ended.old.tasks (Task self.old.task) }
        ensures same { ended.new ≡ ended.old }
        ensures count { result ≡ length (chain_of D.said (Task self.old.task) ended.new.lines) }
    {
        ended.compare(&mut self.chain);
        self.chain.count()
    }
}
