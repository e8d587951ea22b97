//! The journal of one run.
ghost use Rattle.std.specs.Prelude.{◌≡◌, ◌+◌, ◌^◌, ◌≤◌, ℕ, [], length, map, All, slice_get, IfOk};
ghost use Rattle.sa_journal.specs.Parties.{NamesParties, owed_by};
ghost use Rattle.sa_journal.specs.Chains.{new_chains};
ghost use Rattle.sa_journal.specs.Journals.{IsFresh, IsNew, AreNumbered, NameParties};

use crate::binding::Binding;
use crate::chain::{Chain, ChainList};
use crate::deed::Deed;
use crate::ended::Ended;
use crate::lines::Lines;
use crate::party::{Party, debts};
use crate::roll::Roll;
use crate::tie::{Tie, TieList};
use crate::turn::Turn;
use sa_base::{Memory, Sequence};
use sa_tie::Near;
use std::alloc::Global;
use std::marker::PhantomData;
use std::sync::{Mutex, Wait};

/// Lines that many threads append to, under one lock. Whenever the lock is free they are lines of the
/// binding's roll, numbered from 0 in order, and the parties of each are parties of the journal. The lock
/// is free again once a turn is closed.
#[derive(Drop)]
pub struct Journal<D: Deed, B: Binding> {
    roll: Roll<D>,
    lines: Mutex<Option<Lines<D, B>>>,
    descrs: u8,
    tasks: u32,
    ghost roll_is: { roll ≡ B.roll },
    ghost descrs_is: { descrs ≡ length B.shapes },
    ghost tasks_is: { tasks ≡ B.tasks },
}

impl<D: Deed, B: Binding> Journal<D, B> {
    /// An empty journal, and one empty chain for each party: descriptors first, then tasks.
    pub fn new(
        alloc: Global,
        roll: Roll<D>,
        ties: TieList,
        descrs: u8,
        tasks: u32,
    ) -> Result<(Journal<D, B>, ChainList<D>), Memory>
        requires roll { roll ≡ B.roll }
        requires ties { map (λ t. t.near.tie) ties ≡ B.ties }
        requires fresh { All IsFresh ties }
        requires count { length ties ≡ descrs + tasks }
        requires descrs { descrs ≡ length B.shapes }
        requires tasks { tasks ≡ B.tasks }
        ensures chains { IfOk result (λ made. map (λ c. c.it) made.1 ≡ new_chains B.roll (length B.shapes) 0 B.ties) }
        ensures count { IfOk result (λ made. length made.1 ≡ descrs + tasks) }
        ensures each { IfOk result (λ made. (k : ℕ) (c : _) → slice_get made.1 k ≡ Some c → IsNew B.roll B.ties (length B.shapes) k c.it) }
    {
        let (nears, chains) = part(alloc, &roll, ties, descrs)?;
        let lines = Lines {
            tokens: Vec::new(alloc),
            nears,
            of: PhantomData,
        };
        let journal = Journal {
            roll,
            lines: Mutex::new(Some(lines)),
            descrs,
            tasks,
        };
        Ok((journal, chains))
    }

    /// Takes the journal's lock, and all memory for one line, which says this. It may wait. Where there is
    /// no memory the lock is free again and the journal is as before.
    pub fn open<W: Wait>(&self, rt: &W, _alloc: Global, deed: D) -> Result<Turn<'_, D, B>, Memory>
        requires { NamesParties (length B.shapes) B.tasks (D.said deed) }
        ensures deed { IfOk result (λ turn. turn.line.1.deed ≡ deed) }
        ensures number { IfOk result (λ turn. turn.line.1.number ≡ length turn.lines) }
        ensures owed { IfOk result (λ turn. turn.owed ≡ owed_by (D.said deed)) }
    {
        let owed = debts(&deed);
        let mut guard = self.lines.lock(rt);
        let Some(mut lines) = guard.take() else {
            return Err(Memory);
        };
        match lines.write(rt, &self.roll, deed) {
            Ok(token) => Ok(Turn::new(guard, lines, self.descrs, token, owed)),
            Err(error) => {
                *guard = Some(lines);
                Err(error)
            }
        }
    }

    /// The journal's lines, to which no more can come.
    pub fn end(self, _alloc: Global) -> Result<Ended<D>, Memory>
        ensures bound { IfOk result (λ e. (e.roll ≡ B.roll) × (e.ties ≡ B.ties) × (e.descrs ≡ length B.shapes) × (e.tasks ≡ B.tasks)) }
        ensures numbered { IfOk result (λ e. AreNumbered e.lines) }
        ensures parties { IfOk result (λ e. NameParties D.said e.descrs e.tasks e.lines) }
    {
        let Journal {
            roll,
            lines,
            descrs,
            tasks,
        } = self;
        let Some(lines) = lines.into_inner() else {
            return Err(Memory);
        };
        Ok(Ended::new(roll, lines, descrs, tasks))
    }
}

// Parts ties into their near ends and a chain for each far end.
fn part<D: Deed>(
    alloc: Global,
    roll: &Roll<D>,
    ties: TieList,
    descrs: u8,
) -> Result<(Vec<Near>, ChainList<D>), Memory>
    requires fresh { All IsFresh ties }
    requires count { length ties ≤ descrs + 2 ^ 32 }
    ensures nears { IfOk result (λ made. made.0.items ≡ map (λ t. t.near) ties) }
    ensures chains { IfOk result (λ made. map (λ c. c.it) made.1 ≡ new_chains roll.now descrs 0 (map (λ t. t.near.tie) ties)) }
{
    let mut nears = Vec::with_capacity(alloc, ties.len())?;
    let mut chains = Vec::with_capacity(alloc, ties.len())?;
    for tie in ties.into_vec() {
        let Tie { near, far } = tie;
        let party = Party::at(descrs, nears.len());
        chains.push(Chain::new(alloc, roll.again()?, party, far))?;
        nears.push(near)?;
    }
    Ok((nears, Sequence::from_vec(chains)))
}
