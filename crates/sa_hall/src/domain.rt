//! One descriptor.
ghost use Rattle.std.specs.Prelude.{ℕ, ◌≡◌, ◌<◌, true, false, [], length, set, slice_index, slice_index_or, zip, IfOk, OnOk};
ghost use Rattle.std.specs.List.{AllByRecursion};
ghost use Rattle.sa_text.specs.Values.{stretched};
ghost use Rattle.sa_alloc.specs.Stores.{AreDistinct};
ghost use Rattle.sa_alloc.specs.Consistency.{IsSmall};
ghost use Rattle.sa_journal.specs.declared.party.Party.TheVariants.{Descr};
ghost use Rattle.sa_journal.specs.Parties.{IsParty};
ghost use Rattle.sa_journal.specs.Chains.{chain_of};
ghost use Rattle.sa_journal.specs.Journals.{IsOf};
ghost use Rattle.sa_hall.specs.declared.change.Change.TheVariants.{Strings};
ghost use Rattle.sa_hall.specs.Contents.{opening_of, shape_of, plain_at};
ghost use Rattle.sa_hall.specs.Domains.{ArePlains, plains_said, is_descr, descr_in, HasEntries, IsLeftHere};
ghost use Rattle.sa_hall.specs.Halls.{IsWhole};
ghost use Rattle.sa_hall.specs.Changes.{CanChange, FitsHere};
ghost use Rattle.sa_hall.specs.Moves.{moved};

use crate::change::{Change, carry_out};
use crate::lending::Lending;
use sa_alloc::{Plan, Store};
use sa_base::Memory;
use sa_journal::{Binding, Chain, Deed, Ended, Party, Turn};
use sa_plain::{Plain, PlainKind};
use sa_text::Value;
use std::alloc::Global;
use std::marker::Model;

/// What one lock guards: a store, plain arrays, and the chain of their descriptor. Store and plain arrays
/// are what the chain's lines leave of the opening ones, and each line read what was there before it.
/// Contracts see this (`it`), the store's room, and how many lines the chain takes without memory.
#[derive(Drop)]
pub struct Domain<D: Deed> {
    store: Store,
    plains: Vec<Plain>,
    number: u8,
    chain: Chain<D>,
}

impl<D: Deed> Model for Domain<D> {
    ghost use Rattle.std.specs.Prelude.{◌≡◌};
    ghost use Rattle.sa_journal.specs.declared.line.Line.{Line};
    ghost use Rattle.sa_journal.specs.declared.party.Party.TheVariants.{Descr};
    ghost use Rattle.sa_hall.specs.Domains.{DomainValue, IsLeftHere};
    ghost use Rattle.sa_hall.specs.Changes.{contents_of};

    ghost Value = { DomainValue D };

    ghost view = { λ s. record {
      it = record {
        contents = contents_of s.store s.plains.items;
        number = s.number;
        chain = s.chain.it;
      };
      store = s.store.room;
      chain = s.chain.room;
    } };

    ghost invariant = { λ s. (s.chain.it.party ≡ Descr s.number) × IsLeftHere D.said s.number (contents_of s.store s.plains.items) s.chain.it.lines };
}

impl<D: Deed> Domain<D> {
    /// A descriptor's store and plain arrays before the first line, by the lengths of its strings arrays
    /// and the kinds and lengths of its plain arrays. The chain is an empty one of the descriptor.
    pub fn new(
        alloc: Global,
        chain: Chain<D>,
        lengths: &[u32],
        plains: &[(PlainKind, u32)],
    ) -> Result<Domain<D>, Memory>
        requires descr { is_descr chain.it.party ≡ true }
        requires empty { chain.it.lines ≡ [] }
        requires lengths { IsSmall lengths.now }
        requires plains { ArePlains plains.now }
        ensures contents { IfOk result (λ d. d.it.contents ≡ opening_of (record { strings = lengths.now; plains = plains_said plains.now })) }
        ensures shape { IfOk result (λ d. shape_of d.it.contents ≡ record { strings = lengths.now; plains = plains_said plains.now }) }
        ensures entries { IfOk result (λ d. HasEntries d.it.contents.layout) }
        ensures number { IfOk result (λ d. d.it.number ≡ descr_in chain.it.party) }
        ensures chain { IfOk result (λ d. d.it.chain ≡ chain.it) }
    {
        let Party::Descr(number) = chain.party() else {
            unreachable!()
        };
        Ok(Domain {
            store: Store::new(alloc, lengths)?,
            plains: opening_plains(alloc, plains)?,
            number,
            chain,
        })
    }

    /// The store.
    pub fn store(&self) -> &Store
        ensures layout { result.now.contents.layout ≡ self.now.it.contents.layout }
        ensures room { result.now.room ≡ self.now.store }
    {
        &self.store
    }

    /// The plain arrays, in order of declaration.
    pub fn plains(&self) -> &[Plain]
        ensures { result.now ≡ self.now.it.contents.plains }
    {
        self.plains.as_slice()
    }

    /// The plain array of a number.
    pub fn plain(&self, k: u32) -> &Plain
        requires { k < length self.now.it.contents.plains }
        ensures { result.now ≡ plain_at self.now.it.contents.plains k }
    {
        &self.plains[k as usize]
    }

    /// The descriptor's number.
    pub fn number(&self) -> u8
        ensures { result ≡ self.now.it.number }
    {
        self.number
    }

    /// The descriptor's chain. The contents are what its lines leave of the opening ones.
    pub fn chain(&self) -> &Chain<D>
        ensures chain { result.now.it ≡ self.now.it.chain }
        ensures party { self.now.it.chain.party ≡ Descr self.now.it.number }
        ensures left { IsLeftHere D.said self.now.it.number self.now.it.contents self.now.it.chain.lines }
    {
        &self.chain
    }

    /// The store and the plain arrays.
    pub(crate) fn lend(&self) -> Lending<'_>
        ensures { result ≡ self.now.it.contents }
    {
        Lending::new(&self.store, self.plains.as_slice())
    }

    /// Makes room for one more line. All else stays, whatever the answer.
    pub fn reserve(&mut self) -> Result<(), Memory>
        ensures same { (self.new.it ≡ self.old.it) × (self.new.store ≡ self.old.store) }
        ensures room { OnOk result (0 < self.new.chain) }
    {
        self.chain.reserve()
    }

    /// Copies values for places of a strings array, and takes all memory that their writing needs:
    /// `Store::plan` on the store.
    pub fn plan(
        &mut self,
        alloc: Global,
        array: u32,
        places: &[u32],
        values: &[Value],
    ) -> Result<Plan, Memory>
        requires array { array < length self.old.it.contents.layout.lengths }
        requires lengths { length (stretched (length places.now) values.now) ≡ length places.now }
        requires distinct { AreDistinct places.now }
        requires places { AllByRecursion (λ (p : ℕ). p < slice_index self.old.it.contents.layout.lengths array) places.now }
        ensures same { (self.new.it ≡ self.old.it) × (self.new.chain ≡ self.old.chain) }
        ensures plan { IfOk result (λ plan. plan ≡ record { array = array; puts = zip places.now (stretched (length places.now) values.now) }) }
        ensures can { IfOk result (λ plan. CanChange self.new.it.contents self.new.store (Strings plan)) }
    {
        self.store.plan(alloc, array, places, values)
    }

    /// The turn's line becomes the chain's last, and the change that it tells is carried out. It takes no
    /// memory and cannot be refused.
    pub(crate) fn commit<B: Binding>(&mut self, turn: &mut Turn<'_, D, B>, change: Change)
        requires of { IsOf B.roll B.ties (length B.shapes) self.old.it.chain }
        requires owed { slice_index_or turn.old.owed self.old.it.number false ≡ true }
        requires room { 0 < self.old.chain }
        requires fits { FitsHere (D.said turn.old.line.1.deed) change self.old.it self.old.store }
        ensures moved { self.new.it ≡ moved D.said turn.old.line self.old.it.number self.old.it }
        ensures line { (turn.new.lines ≡ turn.old.lines) × (turn.new.line ≡ turn.old.line) }
        ensures paid { turn.new.owed ≡ set turn.old.owed self.old.it.number false }
    {
        turn.link(&mut self.chain);
        carry_out(&mut self.store, &mut self.plains, change);
    }

    /// Tells that the chain is the ended journal's lines that name the descriptor, in order, and that the
    /// contents are what these leave. It changes nothing and cannot be refused.
    pub fn compare(&mut self, ended: &mut Ended<D>)
        requires of { IsOf ended.old.roll ended.old.ties ended.old.descrs self.old.it.chain }
        requires party { IsParty ended.old.descrs ended.old.tasks (Descr self.old.it.number) }
        ensures same { (self.new ≡ self.old) × (ended.new ≡ ended.old) }
        ensures whole { IsWhole D.said ended.new.lines self.new.it }
    {
        ended.compare(&mut self.chain);
    }
}

/// Plain arrays of these kinds and lengths, before the first line.
pub fn opening_plains(alloc: Global, plains: &[(PlainKind, u32)]) -> Result<Vec<Plain>, Memory>
    requires { ArePlains plains.now }
    ensures { IfOk result (λ made. made.items ≡ (opening_of (record { strings = []; plains = plains_said plains.now })).plains) }
{
    let mut made = Vec::with_capacity(alloc, plains.len())?;
    for (kind, len) in plains {
        made.push(Plain::new(alloc, *kind, *len)?)?;
    }
    Ok(made)
}
