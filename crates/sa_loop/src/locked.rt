//! One call under the locks of its descriptors.
ghost use Rattle.std.specs.Prelude.{◌≡◌, ◌<◌, ◌≤◌, ℕ, All, Some, length, IfOk, OnErr, true};
ghost use Rattle.sa_base.specs.Deeds.{writes_at};
ghost use Rattle.sa_alloc.specs.Layouts.{IsSound};
ghost use Rattle.sa_plain.specs.Items.{count_of};
ghost use Rattle.sa_call.specs.Decls.{home_of, kind_of};
ghost use Rattle.sa_call.specs.Kinds.{fits_kind};
ghost use Rattle.sa_call.specs.Told.{homes_of};
ghost use Rattle.sa_call.specs.Valid.{IsCall};
ghost use Rattle.sa_journal.specs.Journals.{IsOf};
ghost use Rattle.sa_journal.specs.Parties.{IsParty};
ghost use Rattle.sa_journal.specs.declared.party.Party.TheVariants.{Descr, Task};
ghost use Rattle.sa_hall.specs.Changes.{change_at, writes_by};
ghost use Rattle.sa_hall.specs.Holds.{contents_at, held_at, is_held, lent_at};
ghost use Rattle.sa_hall.specs.Moves.{CanWork, IsAsBefore};
ghost use Rattle.sa_loop.specs.Held.{IsViewIn};
ghost use Rattle.sa_loop.specs.Locked.{CanPlan, IsSoundHome, IsPerformed, IsOneLineMore};
ghost use Rattle.sa_loop.specs.Openings.{shapes_of};
ghost use Rattle.sa_loop.specs.Writes.{writes_told};

use crate::act::Act;
use crate::call_homes::homes;
use crate::performing::evaluated;
use crate::places::{index_at_home, places};
use crate::rooms::Rooms;
use crate::taking::take;
use sa_alloc::Store;
use sa_base::{Gate, Memory};
use sa_call::{Call, Decls, Items, Reply, View, home_of, is_strings_array};
use sa_hall::{Hall, Held, IndexList, Lent, Pass, Work};
use sa_journal::{Binding, Deed, Journal};
use sa_plain::Plain;
use std::alloc::Global;
use std::sync::Wait;

impl<'h> Rooms for Lent<'h> {
    ghost has = { λ lent d. is_held (held_at lent d) };

    ghost holds = { λ lent d. lent_at lent d };

    fn store(&self, number: u8) -> &Store {
        Lent::store(self, number)
    }

    fn plains(&self, number: u8) -> &[Plain] {
        Lent::plains(self, number)
    }
}

/// Performs a call of a task under the locks of its descriptors, which it takes and gives back: one call in
/// the run's history. It may wait. The pass has one line more, which is this call, and the answer is its
/// reply; after a want of memory, where the answer is `Memory`, all is as before.
pub fn perform_call<'s, B: Binding, W: Wait, G: Gate>(
    rt: &W,
    alloc: Global,
    decls: &'s Decls,
    hall: &Hall<Act<'s>, B>,
    journal: &Journal<Act<'s>, B>,
    gate: &G,
    pass: Pass<Act<'s>>,
    number: u32,
    call: &'s Call,
) -> (Result<Reply, Memory>, Pass<Act<'s>>)
    requires call { IsCall decls.now call.now }
    requires shapes { B.shapes ≡ shapes_of decls.now }
    requires task { pass.it.task < B.tasks }
    requires of { IsOf B.roll B.ties (length B.shapes) pass.it.chain }
    ensures done { IfOk result.0 (λ reply. IsOneLineMore decls.now call.now number reply pass.entry.it result.1.it) }
    ensures kept { OnErr result.0 (result.1.it ≡ pass.entry.it) }
    ensures of { IsOf B.roll B.ties (length B.shapes) result.1.it.chain }
{
    let _declared = decls.arrays();
    let locks = homes(decls, call);
    let mut held = Held::begin(pass, hall);
    held.take_all(rt, locks.as_slice());
    let done = perform(rt, alloc, decls, &mut held, journal, gate, number, call);
    (done, held.release())
}

/// Performs a call whose descriptors' locks are held, and no others. Each of their chains and the pass have
/// one line more, which is this call; its reply and what they then hold are the call's effect on what they
/// held. After a want of memory all is as before.
pub fn perform<'s, B: Binding, W: Wait, G: Gate>(
    rt: &W,
    alloc: Global,
    decls: &'s Decls,
    held: &mut Held<'_, Act<'s>, B>,
    journal: &Journal<Act<'s>, B>,
    gate: &G,
    number: u32,
    call: &'s Call,
) -> Result<Reply, Memory>
    requires call { IsCall decls.now call.now }
    requires locks { held.old.numbers ≡ homes_of decls.now call.now }
    requires shapes { B.shapes ≡ shapes_of decls.now }
    requires descrs { All (λ d. IsParty (length B.shapes) B.tasks (Descr d)) held.old.numbers }
    requires task { IsParty (length B.shapes) B.tasks (Task held.old.pass.it.task) }
    ensures done { IfOk result (λ reply. IsPerformed decls.now call.now number reply held.old held.new) }
    ensures kept { OnErr result (IsAsBefore held.old held.new) }
{
    let _declared = decls.arrays();
    let _taken = held.numbers();
    gate.inside(held.task(), number);
    let (read, weights) = take(alloc, decls, &held.lent(), call, &mut Vec::new(alloc))?;
    let outcome = evaluated(alloc, decls, call, &read)?;
    let reply = outcome.reply.copy(alloc)?;
    let work = plan_work(alloc, decls, held, &call.out, &outcome.results)?;
    let act = Act::new(decls, held.task(), number, call, read, weights, outcome);
    held.commit(rt, alloc, journal, act, work)?;
    Ok(reply)
}

/// The work of a call: its results, where it has some, at the home of its output. What is held
/// is as before, but for room.
fn plan_work<D: Deed, B: Binding>(
    alloc: Global,
    decls: &Decls,
    held: &mut Held<'_, D, B>,
    out: &Option<View>,
    results: &Option<Items>,
) -> Result<Work, Memory>
    requires { CanPlan decls.now held.old.hold out.now results.now }
    ensures its { held.new.hold.its ≡ held.old.hold.its }
    ensures numbers { held.new.numbers ≡ held.old.numbers }
    ensures pass { held.new.pass ≡ held.old.pass }
    ensures sound { IsSoundHome decls.now held.old.hold out.now results.now }
    ensures writes { IfOk result (λ work. (d : ℕ) → writes_at (writes_told decls.now out.now results.now) d ≡ writes_by (change_at work d)) }
    ensures can { IfOk result (λ work. CanWork held.new.hold work) }
{
    match (out, results) {
        (Some(out), Some(results)) => plan_view(alloc, decls, held, out, results),
        _ => Ok(Work::Nothing),
    }
}

/// The work of results: values are planned at the places of the output, and other items are put there.
fn plan_view<D: Deed, B: Binding>(
    alloc: Global,
    decls: &Decls,
    held: &mut Held<'_, D, B>,
    out: &View,
    results: &Items,
) -> Result<Work, Memory>
    requires held { is_held (held_at held.old.hold.its (home_of decls.now out.now.array)) ≡ true }
    requires output { IsViewIn decls.now out.now (contents_at held.old.hold.its (home_of decls.now out.now.array)) }
    requires many { count_of results.now ≡ out.now.count }
    requires fits { fits_kind (kind_of decls.now out.now.array) results.now ≡ true }
    ensures its { held.new.hold.its ≡ held.old.hold.its }
    ensures numbers { held.new.numbers ≡ held.old.numbers }
    ensures pass { held.new.pass ≡ held.old.pass }
    ensures sound { IsSound (contents_at held.old.hold.its (home_of decls.now out.now.array)).layout }
    ensures writes { IfOk result (λ work. (d : ℕ) → writes_at (writes_told decls.now (Some out.now) (Some results.now)) d ≡ writes_by (change_at work d)) }
    ensures can { IfOk result (λ work. CanWork held.new.hold work) }
{
    let number = home_of(decls, out.array);
    let _sound = held.domain(number).store().lengths();
    let places = places(alloc, out)?;
    let array = index_at_home(decls, out.array);
    if !is_strings_array(decls, out.array) {
        return Ok(Work::Plains {
            number,
            array,
            places: IndexList::from_vec(places),
            items: results.copy(alloc)?,
        });
    }
    let Items::Values(values) = results else {
        unreachable!()
    };
    let plan = held.plan(alloc, number, array, places.as_slice(), values.as_slice())?;
    Ok(Work::Strings { number, plan })
}
