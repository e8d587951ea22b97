//! What lies under one lock.
ghost use Rattle.std.specs.Prelude.{ℕ, ◌≡◌, ◌<◌, false, true, length, set, slice_index, slice_index_or, zip, IfOk, OnOk};
ghost use Rattle.std.specs.List.{AllByRecursion};
ghost use Rattle.sa_text.specs.Values.{stretched};
ghost use Rattle.sa_alloc.specs.Stores.{AreDistinct};
ghost use Rattle.sa_journal.specs.Journals.{IsOf};
ghost use Rattle.sa_hall.specs.declared.change.Change.TheVariants.{Strings};
ghost use Rattle.sa_hall.specs.Contents.{shape_of, no_shape};
ghost use Rattle.sa_hall.specs.Domains.{HasEntries, IsPlaced};
ghost use Rattle.sa_hall.specs.Changes.{CanChange, FitsHere};
ghost use Rattle.sa_hall.specs.Moves.{moved};

use crate::change::Change;
use crate::domain::Domain;
use sa_alloc::Plan;
use sa_base::Memory;
use sa_journal::{Binding, Deed, Turn};
use sa_text::Value;
use std::alloc::Global;
use std::marker::PhantomData;

/// What lock K guards: the descriptor of this number, whose chain is one of the binding's journal and
/// whose shape is the binding's. Whoever gets the lock knows this by the type.
#[derive(Drop)]
pub struct Guarded<D: Deed, B: Binding, const K: u8> {
    pub(crate) domain: Domain<D>,
    of: PhantomData<B>,
    ghost number_is: { domain.it.number ≡ K },
    ghost of_is: { IsOf B.roll B.ties (length B.shapes) domain.it.chain },
    ghost shape_is: { shape_of domain.it.contents ≡ slice_index_or B.shapes K no_shape },
    ghost entries_are: { HasEntries domain.it.contents.layout },
}

impl<D: Deed, B: Binding, const K: u8> Guarded<D, B, K> {
    pub(crate) fn new(domain: Domain<D>) -> Guarded<D, B, K>
        requires placed { IsPlaced B.roll B.ties B.shapes K domain.it }
        requires entries { HasEntries domain.it.contents.layout }
        ensures { result.domain ≡ domain }
    {
        Guarded {
            domain,
            of: PhantomData,
        }
    }

    /// The descriptor.
    pub(crate) fn domain(&self) -> &Domain<D>
        ensures same { result.now ≡ self.now.domain }
        ensures placed { IsPlaced B.roll B.ties B.shapes K self.now.domain.it }
        ensures entries { HasEntries self.now.domain.it.contents.layout }
    {
        &self.domain
    }

    /// The descriptor, under no lock.
    pub(crate) fn into_domain(self) -> Domain<D>
        ensures same { result ≡ self.domain }
        ensures placed { IsPlaced B.roll B.ties B.shapes K result.it }
        ensures entries { HasEntries result.it.contents.layout }
    {
        self.domain
    }

    pub(crate) fn reserve(&mut self) -> Result<(), Memory>
        ensures same { (self.new.domain.it ≡ self.old.domain.it) × (self.new.domain.store ≡ self.old.domain.store) }
        ensures room { OnOk result (0 < self.new.domain.chain) }
    {
        self.domain.reserve()
    }

    pub(crate) fn plan(
        &mut self,
        alloc: Global,
        array: u32,
        places: &[u32],
        values: &[Value],
    ) -> Result<Plan, Memory>
        requires array { array < length self.old.domain.it.contents.layout.lengths }
        requires lengths { length (stretched (length places.now) values.now) ≡ length places.now }
        requires distinct { AreDistinct places.now }
        requires places { AllByRecursion (λ (p : ℕ). p < slice_index self.old.domain.it.contents.layout.lengths array) places.now }
        ensures same { self.new.domain.it ≡ self.old.domain.it }
        ensures plan { IfOk result (λ plan. plan ≡ record { array = array; puts = zip places.now (stretched (length places.now) values.now) }) }
        ensures can { IfOk result (λ plan. CanChange self.new.domain.it.contents self.new.domain.store (Strings plan)) }
    {
        self.domain.plan(alloc, array, places, values)
    }

    #[tactic(auto, using(crate::proofs::WriteLemmas::shape_moved, crate::proofs::WriteLemmas::entries_moved))]
    pub(crate) fn commit(&mut self, turn: &mut Turn<'_, D, B>, change: Change)
        requires owed { slice_index_or turn.old.owed K false ≡ true }
        requires room { 0 < self.old.domain.chain }
        requires fits { FitsHere (D.said turn.old.line.1.deed) change self.old.domain.it self.old.domain.store }
        ensures moved { self.new.domain.it ≡ moved D.said turn.old.line K self.old.domain.it }
        ensures line { (turn.new.lines ≡ turn.old.lines) × (turn.new.line ≡ turn.old.line) }
        ensures paid { turn.new.owed ≡ set turn.old.owed K false }
    {
        self.domain.commit(turn, change);
    }
}
