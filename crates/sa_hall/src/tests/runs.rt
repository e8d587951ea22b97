//! A hall of two descriptors, and one task or two.
ghost use Rattle.std.specs.Prelude.{ℕ, ◌≡◌, ◌<◌, ◌+◌, ◌∷◌, [], true, length, map, All, slice_get, slice_index_or, replicate, Some, None, IfOk, OnOk};
ghost use Rattle.sa_alloc.specs.Layouts.{Fresh, Inline, InArena};
ghost use Rattle.sa_journal.specs.Shapes.{Numbers};
ghost use Rattle.sa_journal.specs.Journals.{IsFresh, IsNew, IsOf};
ghost use Rattle.sa_hall.specs.Contents.{opening_of, no_shape};
ghost use Rattle.sa_hall.specs.Holds.{contents_at};

use crate::tests::deeds::{Note, both, put_nothing, put_numbers, put_texts, put_tidied};
use crate::tests::texts::{first_three, one, three, tidied};
use crate::{Domain, Hall, Held, IndexList, Pass, Quiet};
use sa_base::Memory;
use sa_journal::{Binding, Chain, ChainList, Deed, Journal, Roll, TieList};
use sa_plain::{IntList, PlainKind};
use std::alloc::Global;
use std::sync::Wait;
use std::thread::{Threads, join};

// The hall of a strings array of four places with a plain array of three numbers, and of a strings array of
// two places.
fn hall_of<B: Binding>(
    alloc: Global,
    first: Chain<Note>,
    second: Chain<Note>,
) -> Result<Hall<Note, B>, Memory>
    requires shapes { B.shapes ≡ record { strings = 4 ∷ []; plains = (Numbers, 3) ∷ [] } ∷ record { strings = 2 ∷ []; plains = [] } ∷ [] }
    requires first { IsNew B.roll B.ties 2 0 first.it }
    requires second { IsNew B.roll B.ties 2 1 second.it }
{
    let mut domains = Vec::new(alloc);
    domains.push(Domain::new(alloc, first, &[4], &[(PlainKind::Int, 3)])?)?;
    domains.push(Domain::new(alloc, second, &[2], &[])?)?;
    Hall::new(alloc, domains)
}

// Whether no line names descriptor 0 yet: then it holds what it opened with.
fn is_new<D: Deed, B: Binding>(held: &Held<'_, D, B>) -> bool
    requires locks { held.now.numbers ≡ 0 ∷ 1 ∷ [] }
    requires shape { slice_index_or B.shapes 0 no_shape ≡ record { strings = 4 ∷ []; plains = (Numbers, 3) ∷ [] } }
    ensures { result ≡ true → contents_at held.now.hold.its 0 ≡ opening_of (record { strings = 4 ∷ []; plains = (Numbers, 3) ∷ [] }) }
{
    held.numbers();
    held.domain(0).chain().count() == 0
}

// Three texts: the long ones have extents.
fn three_texts<B: Binding, R: Wait>(
    rt: &R,
    alloc: Global,
    journal: &Journal<Note, B>,
    held: &mut Held<'_, Note, B>,
) -> Result<u64, Memory>
    requires bound { (length B.shapes ≡ 2) × (held.old.pass.it.task < B.tasks) }
    requires locks { held.old.numbers ≡ 0 ∷ 1 ∷ [] }
    requires contents { contents_at held.old.hold.its 0 ≡ opening_of (record { strings = 4 ∷ []; plains = (Numbers, 3) ∷ [] }) }
    ensures layout { OnOk result ((contents_at held.new.hold.its 0).layout ≡ record { lengths = 4 ∷ []; extents = record { capacity = 16; text = Some (replicate 16 65) } ∷ record { capacity = 16; text = Some (replicate 16 65) } ∷ []; states = Inline (97 ∷ []) ∷ InArena 0 ∷ InArena 1 ∷ Fresh ∷ [] }) }
    ensures plains { OnOk result ((contents_at held.new.hold.its 0).plains ≡ (opening_of (record { strings = 4 ∷ []; plains = (Numbers, 3) ∷ [] })).plains) }
    ensures same { OnOk result ((held.new.numbers ≡ held.old.numbers) × (held.new.pass.it.task ≡ held.old.pass.it.task)) }
{
    let places = first_three(alloc)?;
    put_texts(rt, alloc, journal, held, 0, places, three(alloc)?)
}

// A short text in the place of a long one, whose extent dies.
fn one_again<B: Binding, R: Wait>(
    rt: &R,
    alloc: Global,
    journal: &Journal<Note, B>,
    held: &mut Held<'_, Note, B>,
) -> Result<u64, Memory>
    requires bound { (length B.shapes ≡ 2) × (held.old.pass.it.task < B.tasks) }
    requires locks { held.old.numbers ≡ 0 ∷ 1 ∷ [] }
    requires layout { (contents_at held.old.hold.its 0).layout ≡ record { lengths = 4 ∷ []; extents = record { capacity = 16; text = Some (replicate 16 65) } ∷ record { capacity = 16; text = Some (replicate 16 65) } ∷ []; states = Inline (97 ∷ []) ∷ InArena 0 ∷ InArena 1 ∷ Fresh ∷ [] } }
    ensures layout { OnOk result ((contents_at held.new.hold.its 0).layout ≡ record { lengths = 4 ∷ []; extents = record { capacity = 16; text = None } ∷ record { capacity = 16; text = Some (replicate 16 65) } ∷ []; states = Inline (97 ∷ []) ∷ Inline (97 ∷ []) ∷ InArena 1 ∷ Fresh ∷ [] }) }
    ensures plains { OnOk result ((contents_at held.new.hold.its 0).plains ≡ (contents_at held.old.hold.its 0).plains) }
    ensures same { OnOk result ((held.new.numbers ≡ held.old.numbers) × (held.new.pass.it.task ≡ held.old.pass.it.task)) }
{
    let places = IndexList::from_slice(alloc, &[1])?;
    put_texts(rt, alloc, journal, held, 1, places, one(alloc)?)
}

// Two numbers.
fn two_numbers<B: Binding, R: Wait>(
    rt: &R,
    alloc: Global,
    journal: &Journal<Note, B>,
    held: &mut Held<'_, Note, B>,
) -> Result<u64, Memory>
    requires bound { (length B.shapes ≡ 2) × (held.old.pass.it.task < B.tasks) }
    requires locks { held.old.numbers ≡ 0 ∷ 1 ∷ [] }
    requires plains { (contents_at held.old.hold.its 0).plains ≡ (opening_of (record { strings = 4 ∷ []; plains = (Numbers, 3) ∷ [] })).plains }
    ensures layout { OnOk result ((contents_at held.new.hold.its 0).layout ≡ (contents_at held.old.hold.its 0).layout) }
    ensures same { OnOk result ((held.new.numbers ≡ held.old.numbers) × (held.new.pass.it.task ≡ held.old.pass.it.task)) }
{
    let places = IndexList::from_slice(alloc, &[0, 2])?;
    let numbers = IntList::from_slice(alloc, &[7, -1])?;
    put_numbers(rt, alloc, journal, held, 2, places, numbers)
}

// A tidy: the dead extent goes.
fn tidies<B: Binding, R: Wait>(
    rt: &R,
    alloc: Global,
    journal: &Journal<Note, B>,
    held: &mut Held<'_, Note, B>,
) -> Result<u64, Memory>
    requires bound { (length B.shapes ≡ 2) × (held.old.pass.it.task < B.tasks) }
    requires locks { held.old.numbers ≡ 0 ∷ 1 ∷ [] }
    requires layout { (contents_at held.old.hold.its 0).layout ≡ record { lengths = 4 ∷ []; extents = record { capacity = 16; text = None } ∷ record { capacity = 16; text = Some (replicate 16 65) } ∷ []; states = Inline (97 ∷ []) ∷ Inline (97 ∷ []) ∷ InArena 1 ∷ Fresh ∷ [] } }
    ensures same { OnOk result ((held.new.numbers ≡ held.old.numbers) × (held.new.pass.it.task ≡ held.old.pass.it.task)) }
{
    put_tidied(rt, alloc, journal, held, 3, tidied(alloc)?)
}

// Four lines under both locks.
fn session<B: Binding, R: Wait>(
    rt: &R,
    alloc: Global,
    hall: &Hall<Note, B>,
    journal: &Journal<Note, B>,
    pass: Pass<Note>,
) -> Result<Pass<Note>, Memory>
    requires descrs { length B.shapes ≡ 2 }
    requires shape { slice_index_or B.shapes 0 no_shape ≡ record { strings = 4 ∷ []; plains = (Numbers, 3) ∷ [] } }
    requires task { pass.it.task < B.tasks }
    requires of { IsOf B.roll B.ties (length B.shapes) pass.it.chain }
    ensures task { IfOk result (λ p. p.it.task ≡ pass.it.task) }
    ensures of { IfOk result (λ p. IsOf B.roll B.ties (length B.shapes) p.it.chain) }
{
    let mut held = Held::begin(pass, hall);
    let locks = both();
    held.take_all(rt, locks.as_slice());
    if !is_new(&held) {
        return Err(Memory);
    }
    three_texts(rt, alloc, journal, &mut held)?;
    one_again(rt, alloc, journal, &mut held)?;
    two_numbers(rt, alloc, journal, &mut held)?;
    tidies(rt, alloc, journal, &mut held)?;
    Ok(held.release())
}

// The chains of a new journal: of both descriptors, and of both tasks.
fn parties<B: Binding>(
    chains: ChainList<Note>,
) -> (Chain<Note>, Chain<Note>, Chain<Note>, Chain<Note>)
    requires count { length chains ≡ 4 }
    requires descrs { length B.shapes ≡ 2 }
    requires each { (k : ℕ) (c : _) → slice_get chains k ≡ Some c → IsNew B.roll B.ties (length B.shapes) k c.it }
    ensures first { IsNew B.roll B.ties 2 0 result.0.it }
    ensures second { IsNew B.roll B.ties 2 1 result.1.it }
    ensures one { IsNew B.roll B.ties 2 2 result.2.it }
    ensures two { IsNew B.roll B.ties 2 3 result.3.it }
{
    let mut chains = chains.into_vec().into_iter();
    let Some(first) = chains.next() else {
        unreachable!()
    };
    let Some(second) = chains.next() else {
        unreachable!()
    };
    let Some(one) = chains.next() else {
        unreachable!()
    };
    let Some(two) = chains.next() else {
        unreachable!()
    };
    (first, second, one, two)
}

// The pass of a new task.
fn pass_of<B: Binding>(alloc: Global, task: u32, chain: Chain<Note>) -> Result<Pass<Note>, Memory>
    requires new { IsNew B.roll B.ties 2 (2 + task) chain.it }
    requires descrs { length B.shapes ≡ 2 }
    ensures task { IfOk result (λ p. p.it.task ≡ task) }
    ensures of { IfOk result (λ p. IsOf B.roll B.ties (length B.shapes) p.it.chain) }
{
    Pass::new(alloc, chain, 4)
}

// What is found in the end: both descriptors, and how many lines the journal has, and each task.
type Found = (Quiet<Note>, [u64; 3]);

// Ends the hall and the journal, whose lines are those of each chain.
fn found<B: Binding>(
    alloc: Global,
    hall: Hall<Note, B>,
    journal: Journal<Note, B>,
    one: Pass<Note>,
    two: Pass<Note>,
) -> Result<Found, Memory>
    requires bound { (length B.shapes ≡ 2) × (B.tasks ≡ 2) × (one.it.task < 2) × (two.it.task < 2) }
    requires one { IsOf B.roll B.ties (length B.shapes) one.it.chain }
    requires two { IsOf B.roll B.ties (length B.shapes) two.it.chain }
{
    let mut quiet = hall.end();
    let mut ended = journal.end(alloc)?;
    let (mut one, mut two) = (one, two);
    quiet.compare(&mut ended);
    one.compare(&mut ended);
    two.compare(&mut ended);
    let counts = [ended.count(), one.chain().count(), two.chain().count()];
    Ok((quiet, counts))
}

// Four lines, of one task.
pub(crate) fn in_one_thread<B: Binding, R: Wait>(
    rt: &R,
    alloc: Global,
    roll: Roll<Note>,
    ties: TieList,
) -> Result<Found, Memory>
    requires roll { roll ≡ B.roll }
    requires ties { map (λ t. t.near.tie) ties ≡ B.ties }
    requires fresh { All IsFresh ties }
    requires count { length ties ≡ 4 }
    requires shapes { B.shapes ≡ record { strings = 4 ∷ []; plains = (Numbers, 3) ∷ [] } ∷ record { strings = 2 ∷ []; plains = [] } ∷ [] }
    requires tasks { B.tasks ≡ 2 }
{
    let (journal, chains) = Journal::<Note, B>::new(alloc, roll, ties, 2, 2)?;
    let (first, second, one, two) = parties::<B>(chains);
    let hall = hall_of::<B>(alloc, first, second)?;
    let one = pass_of::<B>(alloc, 0, one)?;
    let two = pass_of::<B>(alloc, 1, two)?;
    let one = session(rt, alloc, &hall, &journal, one)?;
    found(alloc, hall, journal, one, two)
}

// Lines of one task, each under both locks.
fn many<B: Binding, R: Wait>(
    rt: &R,
    alloc: Global,
    hall: &Hall<Note, B>,
    journal: &Journal<Note, B>,
    pass: Pass<Note>,
) -> Result<Pass<Note>, Memory>
    requires descrs { length B.shapes ≡ 2 }
    requires task { pass.it.task < B.tasks }
    requires of { IsOf B.roll B.ties (length B.shapes) pass.it.chain }
    ensures task { IfOk result (λ p. p.it.task ≡ pass.it.task) }
    ensures of { IfOk result (λ p. IsOf B.roll B.ties (length B.shapes) p.it.chain) }
{
    let mut pass = pass;
    for call in 0..100 {
        let mut held = Held::begin(pass, hall);
        let locks = both();
        held.take_all(rt, locks.as_slice());
        put_nothing(rt, alloc, journal, &mut held, call)?;
        pass = held.release();
    }
    Ok(pass)
}

// Lines of two tasks at once.
fn at_once<B: Binding + Send + Sync, R: Threads + Wait + Sync>(
    rt: &R,
    alloc: Global,
    hall: &Hall<Note, B>,
    journal: &Journal<Note, B>,
    one: Pass<Note>,
    two: Pass<Note>,
) -> Result<(Pass<Note>, Pass<Note>), Memory>
    requires descrs { length B.shapes ≡ 2 }
    requires tasks { (one.it.task < B.tasks) × (two.it.task < B.tasks) }
    requires one { IsOf B.roll B.ties (length B.shapes) one.it.chain }
    requires two { IsOf B.roll B.ties (length B.shapes) two.it.chain }
    ensures tasks { IfOk result (λ p. (p.0.it.task ≡ one.it.task) × (p.1.it.task ≡ two.it.task)) }
    ensures one { IfOk result (λ p. IsOf B.roll B.ties (length B.shapes) p.0.it.chain) }
    ensures two { IfOk result (λ p. IsOf B.roll B.ties (length B.shapes) p.1.it.chain) }
{
    let (one, two) = join(
        rt,
        move || many(rt, alloc, hall, journal, one),
        move || many(rt, alloc, hall, journal, two),
    );
    Ok((one?, two?))
}

// Two hundred lines, of two tasks at once.
// Two hundred lines, of two tasks at once.
pub(crate) fn in_two_threads<B: Binding + Send + Sync, R: Threads + Wait + Sync>(
    rt: &R,
    alloc: Global,
    roll: Roll<Note>,
    ties: TieList,
) -> Result<Found, Memory>
    requires roll { roll ≡ B.roll }
    requires ties { map (λ t. t.near.tie) ties ≡ B.ties }
    requires fresh { All IsFresh ties }
    requires count { length ties ≡ 4 }
    requires shapes { B.shapes ≡ record { strings = 4 ∷ []; plains = (Numbers, 3) ∷ [] } ∷ record { strings = 2 ∷ []; plains = [] } ∷ [] }
    requires tasks { B.tasks ≡ 2 }
{
    let (journal, chains) = Journal::<Note, B>::new(alloc, roll, ties, 2, 2)?;
    let (first, second, one, two) = parties::<B>(chains);
    let hall = hall_of::<B>(alloc, first, second)?;
    let one = pass_of::<B>(alloc, 0, one)?;
    let two = pass_of::<B>(alloc, 1, two)?;
    let (one, two) = at_once(rt, alloc, &hall, &journal, one, two)?;
    found(alloc, hall, journal, one, two)
}
