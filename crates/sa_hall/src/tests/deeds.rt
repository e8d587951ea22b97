//! A small deed, and what it does under the locks of two descriptors.
ghost use Rattle.std.specs.Prelude.{ℕ, ◌≡◌, ◌<◌, ◌∷◌, [], true, All, length, zip, OnOk};
ghost use Rattle.std.specs.List.{AllByRecursion};
ghost use Rattle.sa_alloc.specs.Layouts.{put_all};
ghost use Rattle.sa_alloc.specs.Stores.{AreDistinct, puts_from};
ghost use Rattle.sa_alloc.specs.Tidies.{tidy};
ghost use Rattle.sa_plain.specs.declared.kind.PlainKind.TheVariants.{Int};
ghost use Rattle.sa_base.specs.Deeds.{writes_at};
ghost use Rattle.sa_journal.specs.Parties.{NamesParties};
ghost use Rattle.sa_hall.specs.Contents.{plain_at, after_writes};
ghost use Rattle.sa_hall.specs.Holds.{held_at, is_held, contents_at};
ghost use Rattle.sa_hall.specs.Moves.{Fits};

use crate::{Held, IndexList, Work};
use sa_alloc::Store;
use sa_base::Memory;
use sa_journal::{Binding, Deed, Journal, Locks};
use sa_plain::{IntList, Items};
use sa_text::ValueList;
use std::alloc::Global;
use std::sync::Wait;

/// A deed that has the locks of descriptors 0 and 1, read nothing, and writes to descriptor 0: texts into
/// its strings array, numbers into its plain array, or a tidy.
#[derive(Drop)]
pub(crate) struct Note {
    task: u32,
    call: u32,
    locks: Locks,
    places: IndexList,
    values: ValueList,
    number_places: IndexList,
    numbers: IntList,
    tidies: bool,
}

impl Deed for Note {
    ghost use Rattle.std.specs.Prelude.{◌∷◌, [], ◌++◌, map, zip, if◌then◌else◌};
    ghost use Rattle.sa_base.specs.Items.{IntegerItem};
    ghost use Rattle.sa_base.specs.Deeds.{Tidy};
    ghost use Rattle.sa_journal.specs.Said.{DoneSaid};
    ghost use Rattle.sa_hall.specs.Changes.{write_of, plain_write_of};

    ghost said = { λ n. record {
      task = n.task;
      call = n.call;
      locks = n.locks;
      parts = [];
      writes = (0, map (write_of 0) (zip n.places n.values) ++ (map (plain_write_of 0) (zip n.number_places (map (λ k. IntegerItem k) n.numbers)) ++ (if n.tidies then Tidy ∷ [] else []))) ∷ [];
      reply = DoneSaid;
    } };

    fn task(&self) -> u32 {
        self.task
    }

    fn call(&self) -> u32 {
        self.call
    }

    fn locks(&self) -> &Locks {
        &self.locks
    }
}

/// The locks of descriptors 0 and 1.
pub(crate) fn both() -> Locks
    ensures { result ≡ 0 ∷ 1 ∷ [] }
{
    let mut locks = Locks::none();
    locks.add(0);
    locks.add(1);
    locks
}

/// One more line, where descriptor 0 is held: what that holds then is after its writes.
fn write<D: Deed, B: Binding, R: Wait>(
    rt: &R,
    alloc: Global,
    journal: &Journal<D, B>,
    held: &mut Held<'_, D, B>,
    deed: D,
    work: Work,
) -> Result<u64, Memory>
    requires parties { NamesParties (length B.shapes) B.tasks (D.said deed) }
    requires task { (D.said deed).task ≡ held.old.pass.it.task }
    requires fits { Fits (D.said deed) work held.old }
    requires held { is_held (held_at held.old.hold.its 0) ≡ true }
    ensures written { OnOk result (contents_at held.new.hold.its 0 ≡ after_writes (contents_at held.old.hold.its 0) (writes_at (D.said deed).writes 0)) }
    ensures same { OnOk result ((held.new.numbers ≡ held.old.numbers) × (held.new.pass.it.task ≡ held.old.pass.it.task)) }
{
    held.commit(rt, alloc, journal, deed, work)
}

/// Puts texts at places of the strings array of descriptor 0.
pub(crate) fn put_texts<B: Binding, R: Wait>(
    rt: &R,
    alloc: Global,
    journal: &Journal<Note, B>,
    held: &mut Held<'_, Note, B>,
    call: u32,
    places: IndexList,
    values: ValueList,
) -> Result<u64, Memory>
    requires bound { (length B.shapes ≡ 2) × (held.old.pass.it.task < B.tasks) }
    requires locks { held.old.numbers ≡ 0 ∷ 1 ∷ [] }
    requires lengths { (contents_at held.old.hold.its 0).layout.lengths ≡ 4 ∷ [] }
    requires count { length values ≡ length places }
    requires distinct { AreDistinct places }
    requires places { AllByRecursion (λ (p : ℕ). p < 4) places }
    ensures written { OnOk result (contents_at held.new.hold.its 0 ≡ record { layout = put_all (contents_at held.old.hold.its 0).layout (puts_from 0 (zip places values)); plains = (contents_at held.old.hold.its 0).plains }) }
    ensures same { OnOk result ((held.new.numbers ≡ held.old.numbers) × (held.new.pass.it.task ≡ held.old.pass.it.task)) }
{
    held.numbers();
    let plan = held.plan(alloc, 0, 0, places.as_slice(), values.as_slice())?;
    let note = Note {
        task: held.task(),
        call,
        locks: both(),
        places,
        values,
        number_places: IndexList::new(alloc),
        numbers: IntList::new(alloc),
        tidies: false,
    };
    write(
        rt,
        alloc,
        journal,
        held,
        note,
        Work::Strings { number: 0, plan },
    )
}

/// Puts numbers at places of the plain array of descriptor 0.
pub(crate) fn put_numbers<B: Binding, R: Wait>(
    rt: &R,
    alloc: Global,
    journal: &Journal<Note, B>,
    held: &mut Held<'_, Note, B>,
    call: u32,
    places: IndexList,
    numbers: IntList,
) -> Result<u64, Memory>
    requires bound { (length B.shapes ≡ 2) × (held.old.pass.it.task < B.tasks) }
    requires locks { held.old.numbers ≡ 0 ∷ 1 ∷ [] }
    requires plain { (length (contents_at held.old.hold.its 0).plains ≡ 1) × ((plain_at (contents_at held.old.hold.its 0).plains 0).kind ≡ Int) × (length (plain_at (contents_at held.old.hold.its 0).plains 0).items ≡ 3) }
    requires count { length numbers ≡ length places }
    requires places { All (λ p. p < 3) places }
    ensures written { OnOk result ((contents_at held.new.hold.its 0).layout ≡ (contents_at held.old.hold.its 0).layout) }
    ensures same { OnOk result ((held.new.numbers ≡ held.old.numbers) × (held.new.pass.it.task ≡ held.old.pass.it.task)) }
{
    held.numbers();
    let kept = IndexList::from_slice(alloc, places.as_slice())?;
    let items = IntList::from_slice(alloc, numbers.as_slice())?;
    let note = Note {
        task: held.task(),
        call,
        locks: both(),
        places: IndexList::new(alloc),
        values: ValueList::new(alloc),
        number_places: kept,
        numbers,
        tidies: false,
    };
    let work = Work::Plains {
        number: 0,
        array: 0,
        places,
        items: Items::Ints(items),
    };
    write(rt, alloc, journal, held, note, work)
}

/// Puts a tidied store in the place of that of descriptor 0.
pub(crate) fn put_tidied<B: Binding, R: Wait>(
    rt: &R,
    alloc: Global,
    journal: &Journal<Note, B>,
    held: &mut Held<'_, Note, B>,
    call: u32,
    store: Store,
) -> Result<u64, Memory>
    requires bound { (length B.shapes ≡ 2) × (held.old.pass.it.task < B.tasks) }
    requires locks { held.old.numbers ≡ 0 ∷ 1 ∷ [] }
    requires tidy { store.contents.layout ≡ tidy (contents_at held.old.hold.its 0).layout }
    ensures same { OnOk result ((held.new.numbers ≡ held.old.numbers) × (held.new.pass.it.task ≡ held.old.pass.it.task)) }
{
    held.numbers();
    let note = Note {
        task: held.task(),
        call,
        locks: both(),
        places: IndexList::new(alloc),
        values: ValueList::new(alloc),
        number_places: IndexList::new(alloc),
        numbers: IntList::new(alloc),
        tidies: true,
    };
    write(
        rt,
        alloc,
        journal,
        held,
        note,
        Work::Tidied { number: 0, store },
    )
}

/// Writes nothing, in a line of its own.
pub(crate) fn put_nothing<B: Binding, R: Wait>(
    rt: &R,
    alloc: Global,
    journal: &Journal<Note, B>,
    held: &mut Held<'_, Note, B>,
    call: u32,
) -> Result<u64, Memory>
    requires bound { (length B.shapes ≡ 2) × (held.old.pass.it.task < B.tasks) }
    requires locks { held.old.numbers ≡ 0 ∷ 1 ∷ [] }
    ensures same { OnOk result ((held.new.numbers ≡ held.old.numbers) × (held.new.pass.it.task ≡ held.old.pass.it.task)) }
{
    held.numbers();
    let note = Note {
        task: held.task(),
        call,
        locks: both(),
        places: IndexList::new(alloc),
        values: ValueList::new(alloc),
        number_places: IndexList::new(alloc),
        numbers: IntList::new(alloc),
        tidies: false,
    };
    write(rt, alloc, journal, held, note, Work::Nothing)
}
