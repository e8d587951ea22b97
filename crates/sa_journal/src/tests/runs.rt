//! A journal of two descriptors and two tasks.
ghost use Rattle.std.specs.Prelude.{◌≡◌, ◌<◌, ℕ, length, map, All, slice_get, Some, IfOk};
ghost use Rattle.sa_journal.specs.Journals.{IsFresh, IsNew};

use crate::tests::deeds::{Kept, Note, Pass};
use crate::{Binding, ChainList, Deed, Journal, Locks, Roll, TieList};
use sa_base::Memory;
use std::alloc::Global;
use std::sync::{Mutex, Wait};
use std::thread::{Threads, join};

// A line that names a task alone.
fn write_alone<B: Binding, R: Wait>(
    rt: &R,
    alloc: Global,
    journal: &Journal<Note, B>,
    pass: &mut Pass<Note, B>,
    call: u32,
) -> Result<u64, Memory>
    requires { pass.old.task < B.tasks }
    ensures { pass.new.task ≡ pass.old.task }
{
    pass.reserve()?;
    let mut turn = journal.open(rt, alloc, Note::new(pass.task, call, Locks::none()))?;
    pass.link(&mut turn);
    Ok(turn.close())
}

// A line that names descriptor 0 and a task.
fn write_first<B: Binding, R: Wait>(
    rt: &R,
    alloc: Global,
    journal: &Journal<Note, B>,
    first: &Mutex<Kept<Note, B, 0>>,
    pass: &mut Pass<Note, B>,
    call: u32,
) -> Result<u64, Memory>
    requires descrs { length B.shapes ≡ 2 }
    requires task { pass.old.task < B.tasks }
    ensures { pass.new.task ≡ pass.old.task }
{
    let mut locks = Locks::none();
    locks.add(0);
    let mut first = first.lock(rt);
    first.reserve()?;
    pass.reserve()?;
    let mut turn = journal.open(rt, alloc, Note::new(pass.task, call, locks))?;
    first.compare(&mut turn);
    first.link(&mut turn);
    pass.link(&mut turn);
    Ok(turn.close())
}

// A line that names both descriptors and a task.
fn write_both<B: Binding, R: Wait>(
    rt: &R,
    alloc: Global,
    journal: &Journal<Note, B>,
    first: &Mutex<Kept<Note, B, 0>>,
    second: &Mutex<Kept<Note, B, 1>>,
    pass: &mut Pass<Note, B>,
    call: u32,
) -> Result<u64, Memory>
    requires descrs { length B.shapes ≡ 2 }
    requires task { pass.old.task < B.tasks }
    ensures { pass.new.task ≡ pass.old.task }
{
    let mut locks = Locks::none();
    locks.add(0);
    locks.add(1);
    let mut first = first.lock(rt);
    let mut second = second.lock(rt);
    first.reserve()?;
    second.reserve()?;
    pass.reserve()?;
    let mut turn = journal.open(rt, alloc, Note::new(pass.task, call, locks))?;
    second.link(&mut turn);
    first.link(&mut turn);
    pass.link(&mut turn);
    Ok(turn.close())
}

// What may be sent to another thread.
fn sent<T: Send>(value: T) -> T
    ensures { result ≡ value }
{
    value
}

// What may be sent to another thread, and lent to it.
fn crosses<T: Send + Sync>(value: T) -> T
    ensures { result ≡ value }
{
    value
}

// The parties of a new journal: both descriptors, and both tasks.
fn parties<D: Deed, B: Binding>(
    chains: ChainList<D>,
) -> (
    Mutex<Kept<D, B, 0>>,
    Mutex<Kept<D, B, 1>>,
    Pass<D, B>,
    Pass<D, B>,
)
    requires descrs { length B.shapes ≡ 2 }
    requires count { length chains ≡ 4 }
    requires each { (k : ℕ) (c : _) → slice_get chains k ≡ Some c → IsNew B.roll B.ties (length B.shapes) k c.it }
    ensures { (result.2.task ≡ 0) × (result.3.task ≡ 1) }
{
    let mut chains = chains.into_vec().into_iter();
    let Some(first) = chains.next() else {
        unreachable!()
    };
    let Some(second) = chains.next() else {
        unreachable!()
    };
    let Some(one) = chains.next() else {
        unreachable!()
    };
    let Some(two) = chains.next() else {
        unreachable!()
    };
    (
        Mutex::new(Kept::new(first)),
        Mutex::new(Kept::new(second)),
        Pass::new(0, one),
        Pass::new(1, two),
    )
}

// How many lines the ended journal has, and those of both descriptors and both tasks.
fn counts<D: Deed, B: Binding>(
    alloc: Global,
    journal: Journal<D, B>,
    first: Mutex<Kept<D, B, 0>>,
    second: Mutex<Kept<D, B, 1>>,
    one: Pass<D, B>,
    two: Pass<D, B>,
) -> Result<([u64; 5], bool), Memory>
    requires descrs { length B.shapes ≡ 2 }
    requires tasks { B.tasks ≡ 2 }
    requires passes { (one.task ≡ 0) × (two.task ≡ 1) }
{
    let mut ended = sent(journal.end(alloc)?);
    let mut first = first.into_inner();
    let mut second = second.into_inner();
    let mut one = one;
    let mut two = two;
    let counts = [
        ended.count(),
        first.count(&mut ended),
        second.count(&mut ended),
        one.count(&mut ended),
        two.count(&mut ended),
    ];
    Ok((counts, first.stands_in(&ended) && second.stands_in(&ended)))
}

// Six lines, of one thread.
pub(crate) fn in_one_thread<B: Binding + Send + Sync, R: Wait>(
    rt: &R,
    alloc: Global,
    roll: Roll<Note>,
    ties: TieList,
) -> Result<([u64; 5], bool), Memory>
    requires roll { roll ≡ B.roll }
    requires ties { map (λ t. t.near.tie) ties ≡ B.ties }
    requires fresh { All IsFresh ties }
    requires count { length ties ≡ 4 }
    requires descrs { length B.shapes ≡ 2 }
    requires tasks { B.tasks ≡ 2 }
{
    let (journal, chains) = Journal::<Note, B>::new(alloc, crosses(roll), sent(ties), 2, 2)?;
    let journal = crosses(journal);
    let (first, second, mut one, mut two) = parties::<Note, B>(chains);
    write_alone(rt, alloc, &journal, &mut one, 0)?;
    write_both(rt, alloc, &journal, &first, &second, &mut two, 0)?;
    write_first(rt, alloc, &journal, &first, &mut one, 1)?;
    write_both(rt, alloc, &journal, &first, &second, &mut one, 2)?;
    write_alone(rt, alloc, &journal, &mut two, 1)?;
    write_alone(rt, alloc, &journal, &mut one, 3)?;
    counts(alloc, journal, first, second, one, two)
}

// Many lines of one task, each of which names descriptor 0, or both.
fn write_many<B: Binding, R: Wait>(
    rt: &R,
    alloc: Global,
    journal: &Journal<Note, B>,
    first: &Mutex<Kept<Note, B, 0>>,
    second: &Mutex<Kept<Note, B, 1>>,
    pass: Pass<Note, B>,
    both: bool,
) -> Result<Pass<Note, B>, Memory>
    requires descrs { length B.shapes ≡ 2 }
    requires task { pass.task < B.tasks }
    ensures { IfOk result (λ p. p.task ≡ pass.task) }
{
    let mut pass = pass;
    for call in 0..100 {
        if both {
            write_both(rt, alloc, journal, first, second, &mut pass, call)?;
        } else {
            write_first(rt, alloc, journal, first, &mut pass, call)?;
        }
    }
    Ok(pass)
}

// Two hundred lines, of two threads at once.
pub(crate) fn in_two_threads<B: Binding + Send + Sync, R: Threads + Wait + Sync>(
    rt: &R,
    alloc: Global,
    roll: Roll<Note>,
    ties: TieList,
) -> Result<([u64; 5], bool), Memory>
    requires roll { roll ≡ B.roll }
    requires ties { map (λ t. t.near.tie) ties ≡ B.ties }
    requires fresh { All IsFresh ties }
    requires count { length ties ≡ 4 }
    requires descrs { length B.shapes ≡ 2 }
    requires tasks { B.tasks ≡ 2 }
{
    let (journal, chains) = Journal::<Note, B>::new(alloc, roll, ties, 2, 2)?;
    let (first, second, one, two) = parties::<Note, B>(chains);
    let (lines, a, b) = (&journal, &first, &second);
    let (one, two) = join(
        rt,
        move || write_many(rt, alloc, lines, a, b, one, true),
        move || write_many(rt, alloc, lines, a, b, two, false),
    );
    counts(alloc, journal, first, second, one?, two?)
}
