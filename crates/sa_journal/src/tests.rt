mod deeds;
mod runs;

ghost use Rattle.std.specs.Prelude.{◌≡◌, length, All, IfOk};
ghost use Rattle.sa_journal.specs.Journals.{IsFresh};

use crate::tests::deeds::Note;
use crate::tests::runs::{in_one_thread, in_two_threads};
use crate::{Locks, Roll, Tie, TieList};
use sa_base::Memory;
use sa_tie::tie;
use std::alloc::Global;
use std::marker::Brand;
use std::test::Fail;

#[test]
fn locks_are_their_numbers(rt: HostRuntime) -> Result<(), Fail> {
    let mut locks = Locks::none();
    assert_eq!(rt; locks.as_slice().len(), 0);
    locks.add(0);
    locks.add(3);
    locks.add(7);
    assert_eq!(rt; locks.as_slice(), [0, 3, 7].as_slice());
    Ok(())
}

// As many new ties as there are parties.
fn ties(alloc: Global) -> Result<TieList, Memory>
    ensures fresh { IfOk result (λ ties. All IsFresh ties) }
    ensures count { IfOk result (λ ties. length ties ≡ 4) }
{
    let mut ties = TieList::new(alloc);
    for _ in 0..4usize {
        let (near, far) = tie(alloc)?;
        ties.push(Tie { near, far })?;
    }
    Ok(ties)
}

// The lines of a run: of the journal, of descriptors 0 and 1, and of tasks 0 and 1.
#[test]
fn chains_are_the_lines_that_name_their_party(rt: HostRuntime) -> Result<(), Fail> {
    let ties = ties(rt.alloc())?;
    let roll = Roll::<Note>::new(rt.alloc())?;
    let counts = in_one_thread::<Brand, _>(&rt, rt.alloc(), roll, ties)?;
    assert_eq!(rt; counts, ([6, 3, 2, 4, 2], true));
    Ok(())
}

#[test]
fn two_threads_write_one_journal(rt: HostRuntime) -> Result<(), Fail> {
    let ties = ties(rt.alloc())?;
    let roll = Roll::<Note>::new(rt.alloc())?;
    let counts = in_two_threads::<Brand, _>(&rt, rt.alloc(), roll, ties)?;
    assert_eq!(rt; counts, ([200, 200, 100, 100, 100], true));
    Ok(())
}
