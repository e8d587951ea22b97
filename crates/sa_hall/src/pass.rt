//! The pass of a task.
ghost use Rattle.std.specs.Prelude.{◌≡◌, ◌<◌, true, false, length, replicate, set, slice_index_or, IfOk, OnOk};
ghost use Rattle.sa_journal.specs.declared.party.Party.TheVariants.{Task};
ghost use Rattle.sa_journal.specs.Parties.{IsParty, names, most_descrs};
ghost use Rattle.sa_journal.specs.Chains.{chain_of};
ghost use Rattle.sa_journal.specs.Journals.{IsOf};
ghost use Rattle.sa_hall.specs.Passes.{is_task, task_in, with_mark, pass_with};

use sa_base::Memory;
use sa_journal::{Binding, Chain, Deed, Ended, Party, Turn};
use std::alloc::Global;
use std::marker::Model;

/// The right to make the calls of one task: the task's chain, and a mark for each call. Contracts see this
/// (`it`), and how many lines the chain takes without memory.
#[derive(Drop)]
pub struct Pass<D: Deed> {
    task: u32,
    chain: Chain<D>,
    marks: Vec<bool>,
}

impl<D: Deed> Model for Pass<D> {
    ghost use Rattle.std.specs.Prelude.{◌≡◌};
    ghost use Rattle.sa_journal.specs.declared.line.Line.{Line};
    ghost use Rattle.sa_journal.specs.declared.party.Party.TheVariants.{Task};
    ghost use Rattle.sa_hall.specs.Passes.{PassValue};

    ghost Value = { PassValue D };

    ghost view = { λ p. record {
      it = record { task = p.task; chain = p.chain.it; marks = p.marks.items };
      room = p.chain.room;
    } };

    ghost invariant = { λ p. p.chain.it.party ≡ Task p.task };
}

impl<D: Deed> Pass<D> {
    /// The pass of a task's chain, for this many calls, none of which is marked.
    pub fn new(alloc: Global, chain: Chain<D>, calls: u32) -> Result<Pass<D>, Memory>
        requires { is_task chain.it.party ≡ true }
        ensures { IfOk result (λ p. p.it ≡ record { task = task_in chain.it.party; chain = chain.it; marks = replicate calls false }) }
    {
        let Party::Task(task) = chain.party() else {
            unreachable!()
        };
        let marks = no_marks(alloc, calls as usize)?;
        Ok(Pass { task, chain, marks })
    }

    /// Marks a call.
    pub fn mark(&mut self, call: u32)
        requires { call < length self.old.it.marks }
        ensures { self.new ≡ record { it = with_mark self.old.it call; room = self.old.room } }
    {
        self.marks[call as usize] = true;
    }

    /// Whether a call is marked.
    pub fn is_marked(&self, call: u32) -> bool
        requires { call < length self.now.it.marks }
        ensures { result ≡ slice_index_or self.now.it.marks call false }
    {
        self.marks[call as usize]
    }

    /// A mark for each call of its task.
    pub fn marks(&self) -> &[bool]
        ensures { result.now ≡ self.now.it.marks }
    {
        self.marks.as_slice()
    }

    /// The number of its task.
    pub fn task(&self) -> u32
        ensures { result ≡ self.now.it.task }
    {
        self.task
    }

    /// The task's chain.
    pub fn chain(&self) -> &Chain<D>
        ensures chain { result.now.it ≡ self.now.it.chain }
        ensures party { self.now.it.chain.party ≡ Task self.now.it.task }
    {
        &self.chain
    }

    /// Makes room for one more line. All else stays, whatever the answer.
    pub(crate) fn reserve(&mut self) -> Result<(), Memory>
        ensures same { self.new.it ≡ self.old.it }
        ensures room { OnOk result (0 < self.new.room) }
    {
        self.chain.reserve()
    }

    /// The turn's line becomes the last of the task's chain. It takes no memory and cannot be refused.
    pub(crate) fn link<B: Binding>(&mut self, turn: &mut Turn<'_, D, B>)
        requires of { IsOf B.roll B.ties (length B.shapes) self.old.it.chain }
        requires named { names (D.said turn.old.line.1.deed) (Task self.old.it.task) ≡ true }
        requires owed { slice_index_or turn.old.owed most_descrs false ≡ true }
        requires room { 0 < self.old.room }
        ensures linked { self.new.it ≡ pass_with self.old.it turn.old.line }
        ensures line { (turn.new.lines ≡ turn.old.lines) × (turn.new.line ≡ turn.old.line) }
        ensures paid { turn.new.owed ≡ set turn.old.owed most_descrs false }
    {
        turn.link(&mut self.chain);
    }

    /// Tells that the chain is the ended journal's lines that name the task, in order. It changes nothing
    /// and cannot be refused.
    pub fn compare(&mut self, ended: &mut Ended<D>)
        requires of { IsOf ended.old.roll ended.old.ties ended.old.descrs self.old.it.chain }
        requires party { self.old.it.task < ended.old.tasks }
        ensures same { (self.new ≡ self.old) × (ended.new ≡ ended.old) }
        ensures whole { self.new.it.chain.lines ≡ chain_of D.said (Task self.new.it.task) ended.new.lines }
    {
        ended.compare(&mut self.chain);
    }
}

// This many calls, none of which is marked.
fn no_marks(alloc: Global, count: usize) -> Result<Vec<bool>, Memory>
    ensures { IfOk result (λ marks. marks.items ≡ replicate count false) }
{
    let mut marks = Vec::with_capacity(alloc, count)?;
    for _ in 0..count {
        marks.push(false)?;
    }
    Ok(marks)
}
