mod deeds;
mod runs;
mod texts;

ghost use Rattle.std.specs.Prelude.{◌≡◌, length, All, IfOk};
ghost use Rattle.sa_journal.specs.Journals.{IsFresh};

use crate::tests::deeds::Note;
use crate::tests::runs::{in_one_thread, in_two_threads};
use crate::{Domain, Quiet, plan_locks};
use sa_base::Memory;
use sa_journal::{Roll, Tie, TieList};
use sa_plain::{Items, Plain};
use sa_tie::tie;
use std::alloc::Global;
use std::marker::Brand;
use std::process::Abort;
use std::test::Fail;

#[test]
fn locks_are_planned_in_rising_order_each_once(rt: HostRuntime) -> Result<(), Fail> {
    let table: [(&[u8], &[u8]); 6] = [
        (&[], &[]),
        (&[3], &[3]),
        (&[5, 2], &[2, 5]),
        (&[1, 0, 1], &[0, 1]),
        (&[7, 7, 7, 7, 7], &[7]),
        (&[4, 0, 255, 2, 1], &[0, 1, 2, 4, 255]),
    ];
    for (numbers, planned) in table {
        let locks = plan_locks(numbers);
        assert_eq!(rt; locks.as_slice(), planned);
    }
    Ok(())
}

// As many new ties as there are parties.
fn ties(alloc: Global) -> Result<TieList, Memory>
    ensures fresh { IfOk result (λ ties. All IsFresh ties) }
    ensures count { IfOk result (λ ties. length ties ≡ 4) }
{
    let mut ties = TieList::new(alloc);
    for _ in 0..4usize {
        let (near, far) = tie(alloc)?;
        ties.push(Tie { near, far })?;
    }
    Ok(ties)
}

// The plain array has these numbers.
fn has_numbers(
    rt: &impl Abort,
    alloc: Global,
    plain: &Plain,
    numbers: [i64; 3],
) -> Result<(), Fail> {
    assert_eq!(rt; plain.len(), 3);
    let items = plain.items_at(alloc, &[0, 1, 2])?;
    let found = match &items {
        Items::Ints(ints) => ints.as_slice() == numbers.as_slice(),
        _ => false,
    };
    assert!(rt; found);
    Ok(())
}

// The first descriptor has four lines, its dead extent is gone, and its numbers are there.
fn is_tidied(rt: &impl Abort, alloc: Global, domain: &Domain<Note>) -> Result<(), Fail> {
    assert_eq!(rt; domain.chain().count(), 4);
    let stats = domain.store().stats();
    assert_eq!(rt; (stats.cursor, stats.dead, stats.outside), (17, 0, 0));
    let plains = domain.plains();
    assert_eq!(rt; plains.len(), 1);
    has_numbers(rt, alloc, &plains[0], [7, 0, -1])
}

// The second descriptor has four lines too, and no text.
fn is_empty(rt: &impl Abort, domain: &Domain<Note>) {
    assert_eq!(rt; domain.chain().count(), 4);
    assert_eq!(rt; domain.store().stats().cursor, 0);
}

// Both descriptors are as the session left them.
fn are_as_left(rt: &impl Abort, alloc: Global, quiet: &Quiet<Note>) -> Result<(), Fail> {
    let second = quiet.domain(1).expect(rt, "descriptor 1");
    is_empty(rt, second);
    let first = quiet.domain(0).expect(rt, "descriptor 0");
    is_tidied(rt, alloc, first)
}

// Three texts, one of them again, two numbers, and a tidy: all in one session, by one task.
#[test]
fn lines_stand_in_each_chain_and_change_what_is_held(rt: HostRuntime) -> Result<(), Fail> {
    let ties = ties(rt.alloc())?;
    let roll = Roll::<Note>::new(rt.alloc())?;
    let (quiet, counts) = in_one_thread::<Brand, _>(&rt, rt.alloc(), roll, ties)?;
    assert_eq!(rt; counts, [4, 4, 0]);
    are_as_left(&rt, rt.alloc(), &quiet)
}

#[test]
fn two_threads_write_under_the_same_locks(rt: HostRuntime) -> Result<(), Fail> {
    let ties = ties(rt.alloc())?;
    let roll = Roll::<Note>::new(rt.alloc())?;
    let (quiet, counts) = in_two_threads::<Brand, _>(&rt, rt.alloc(), roll, ties)?;
    assert_eq!(rt; counts, [200, 100, 100]);
    for number in 0..2 {
        let domain = quiet.domain(number).expect(&rt, "a descriptor");
        assert_eq!(rt; domain.chain().count(), 200);
    }
    Ok(())
}
