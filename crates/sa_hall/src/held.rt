//! One call under its locks.
ghost use Rattle.std.specs.Prelude.{ℕ, ◌≡◌, ◌<◌, ◌≤◌, ◌++◌, ◌∷◌, [], true, length, slice_index, zip, All, None, Some, IfOk, OnErr};
ghost use Rattle.std.specs.List.{AllByRecursion};
ghost use Rattle.std.specs.List.Sorted.{IsStrictlyIncreasing};
ghost use Rattle.sa_text.specs.Values.{stretched};
ghost use Rattle.sa_alloc.specs.Stores.{AreDistinct};
ghost use Rattle.sa_journal.specs.Journals.{IsOf};
ghost use Rattle.sa_journal.specs.Parties.{NamesParties};
ghost use Rattle.sa_hall.specs.declared.work.Work.TheVariants.{Strings};
ghost use Rattle.sa_hall.specs.Holds.{held_at, is_held, contents_at, AreTaken, lent_of};
ghost use Rattle.sa_hall.specs.Moves.{CanWork, Fits, Commits, IsAsBefore};

use crate::domain::Domain;
use crate::guards::Guards;
use crate::hall::Hall;
use crate::lent::Lent;
use crate::pass::Pass;
use crate::work::{Work, changes};
use sa_alloc::Plan;
use sa_base::Memory;
use sa_journal::{Binding, Deed, Journal, Locks};
use sa_text::Value;
use std::alloc::Global;
use std::marker::Model;
use std::sync::Wait;

/// A pass and the locks that it holds, which were taken in rising order. What is held at a number is the
/// descriptor of that number, and changes by `commit` alone. Contracts see what is held, the numbers, and
/// the pass.
#[derive(Drop)]
pub struct Held<'h, D: Deed, B: Binding> {
    pass: Pass<D>,
    numbers: Locks,
    guards: Guards<'h, D, B>,
}

impl<'h, D: Deed, B: Binding> Model for Held<'h, D, B> {
    ghost use Rattle.std.specs.Prelude.{length};
    ghost use Rattle.sa_journal.specs.declared.line.Line.{Line};
    ghost use Rattle.sa_journal.specs.Journals.{IsOf};
    ghost use Rattle.sa_hall.specs.Holds.{HeldValue, AreTaken};

    ghost Value = { HeldValue D };

    ghost view = { λ h. record {
      hold = h.guards;
      numbers = h.numbers;
      pass = h.pass;
    } };

    ghost invariant = { λ h. AreTaken B.roll B.ties B.shapes h.numbers h.guards.its × IsOf B.roll B.ties (length B.shapes) h.pass.it.chain };
}

impl<'h, D: Deed, B: Binding> Held<'h, D, B> {
    /// A pass with no lock of a hall. Both are of one journal.
    pub fn begin(pass: Pass<D>, hall: &'h Hall<D, B>) -> Held<'h, D, B>
        requires of { IsOf B.roll B.ties (length B.shapes) pass.it.chain }
        ensures pass { result.pass ≡ pass }
        ensures numbers { result.numbers ≡ [] }
        ensures none { (d : ℕ) → held_at result.hold.its d ≡ None }
    {
        Held {
            pass,
            numbers: Locks::none(),
            guards: Guards::new(hall),
        }
    }

    /// Takes the lock of a number of the hall, which is above each held one; fewer than five are held. It
    /// may wait.
    pub fn take<W: Wait>(&mut self, rt: &W, number: u8)
        requires there { number < length B.shapes }
        requires above { All (λ n. n < number) self.old.numbers }
        requires few { length self.old.numbers < 5 }
        ensures numbers { self.new.numbers ≡ self.old.numbers ++ number ∷ [] }
        ensures held { (d : ℕ) (k : _) → held_at self.old.hold.its d ≡ Some k → held_at self.new.hold.its d ≡ Some k }
        ensures pass { self.new.pass ≡ self.old.pass }
    {
        self.guards.take(rt, number);
        self.numbers.add(number);
    }

    /// Takes the locks of these numbers, which are in rising order and at most five, where none is held. It
    /// may wait.
    pub fn take_all<W: Wait>(&mut self, rt: &W, locks: &[u8])
        requires there { All (λ n. n < length B.shapes) locks.now }
        requires rising { IsStrictlyIncreasing locks.now }
        requires few { length locks.now ≤ 5 }
        requires none { self.old.numbers ≡ [] }
        ensures numbers { self.new.numbers ≡ locks.now }
        ensures pass { self.new.pass ≡ self.old.pass }
    {
        for number in locks {
            self.take(rt, *number);
        }
    }

    /// The descriptor of a number that is held.
    pub fn domain(&self, number: u8) -> &Domain<D>
        requires { is_held (held_at self.now.hold.its number) ≡ true }
        ensures it { held_at self.now.hold.its number ≡ Some result.now.it }
        ensures store { held_at self.now.hold.stores number ≡ Some result.now.store }
    {
        self.guards.domain(number)
    }

    /// The numbers of the locks that are held, in rising order, at most five.
    pub fn numbers(&self) -> &[u8]
        ensures numbers { result.now ≡ self.now.numbers }
        ensures rising { IsStrictlyIncreasing self.now.numbers }
        ensures few { length self.now.numbers ≤ 5 }
        ensures taken { AreTaken B.roll B.ties B.shapes self.now.numbers self.now.hold.its }
    {
        self.numbers.as_slice()
    }

    /// The task of the pass.
    pub fn task(&self) -> u32
        ensures { result ≡ self.now.pass.it.task }
    {
        self.pass.task()
    }

    /// Lends what the held descriptors hold, without their locks.
    pub fn lent(&self) -> Lent<'_>
        ensures { result ≡ lent_of self.now.hold.its }
    {
        self.guards.lend()
    }

    /// Copies values for places of a strings array of a held descriptor, and takes all memory that their
    /// writing needs: `Store::plan` on its store.
    pub fn plan(
        &mut self,
        alloc: Global,
        number: u8,
        array: u32,
        places: &[u32],
        values: &[Value],
    ) -> Result<Plan, Memory>
        requires held { is_held (held_at self.old.hold.its number) ≡ true }
        requires array { array < length (contents_at self.old.hold.its number).layout.lengths }
        requires lengths { length (stretched (length places.now) values.now) ≡ length places.now }
        requires distinct { AreDistinct places.now }
        requires places { AllByRecursion (λ (p : ℕ). p < slice_index (contents_at self.old.hold.its number).layout.lengths array) places.now }
        ensures its { self.new.hold.its ≡ self.old.hold.its }
        ensures numbers { self.new.numbers ≡ self.old.numbers }
        ensures pass { self.new.pass ≡ self.old.pass }
        ensures plan { IfOk result (λ plan. plan ≡ record { array = array; puts = zip places.now (stretched (length places.now) values.now) }) }
        ensures can { IfOk result (λ plan. CanWork self.new.hold (Strings number plan)) }
    {
        self.guards.plan(alloc, number, array, places, values)
    }

    /// One more line: what the deed says becomes the last line of the journal, of each held chain and of
    /// the pass's chain, and the work is carried out. All memory is taken before the turn is open; after
    /// `Memory` all is as before. Answers the line's number. It may wait.
    pub fn commit<W: Wait>(
        &mut self,
        rt: &W,
        alloc: Global,
        journal: &Journal<D, B>,
        deed: D,
        work: Work,
    ) -> Result<u64, Memory>
        requires parties { NamesParties (length B.shapes) B.tasks (D.said deed) }
        requires task { (D.said deed).task ≡ self.old.pass.it.task }
        requires fits { Fits (D.said deed) work self.old }
        ensures done { IfOk result (λ n. Commits D.said deed n self.old self.new) }
        ensures kept { OnErr result (IsAsBefore self.old self.new) }
    {
        self.pass.reserve()?;
        self.guards.reserve()?;
        let mut turn = journal.open(rt, alloc, deed)?;
        self.guards.commit(&mut turn, changes(work));
        self.pass.link(&mut turn);
        Ok(turn.close())
    }

    /// Frees all locks, and gives the pass back.
    pub fn release(self) -> Pass<D>
        ensures pass { result ≡ self.entry.pass }
        ensures of { IsOf B.roll B.ties (length B.shapes) result.it.chain }
    {
        self.pass
    }
}
