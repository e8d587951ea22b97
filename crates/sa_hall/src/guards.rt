//! Locks that are held.
ghost use Rattle.std.specs.Prelude.{ℕ, ◌≡◌, ◌<◌, ◌∷◌, [], true, false, length, replicate, slice_index, zip, None, Some, IfOk, OnOk};
ghost use Rattle.std.specs.List.{AllByRecursion};
ghost use Rattle.sa_text.specs.Values.{stretched};
ghost use Rattle.sa_alloc.specs.Stores.{AreDistinct};
ghost use Rattle.sa_hall.specs.declared.change.Change.TheVariants.{Strings};
ghost use Rattle.sa_hall.specs.Changes.{CanChange};
ghost use Rattle.sa_hall.specs.Holds.{held_at, is_held, contents_at, room_at, Takes, AreRoomy, owed_for, owed_to_task, lent_of};
ghost use Rattle.sa_hall.specs.Moves.{FitsAt, all_moved};

use crate::domain::Domain;
use crate::hall::Hall;
use crate::lent::Lent;
use crate::slots;
use crate::slots::Slot;
use crate::work::Changes;
use sa_alloc::Plan;
use sa_base::Memory;
use sa_journal::{Binding, Deed, Turn};
use sa_text::Value;
use std::alloc::Global;
use std::marker::Model;
use std::sync::Wait;

/// Locks of a hall, each held or not. Contracts see by number what is kept of each descriptor that is held,
/// the room of its store, and the room of its chain.
#[derive(Drop)]
pub(crate) struct Guards<'h, D: Deed, B: Binding> {
    hall: &'h Hall<D, B>,
    g0: Slot<'h, D, B, 0>,
    g1: Slot<'h, D, B, 1>,
    g2: Slot<'h, D, B, 2>,
    g3: Slot<'h, D, B, 3>,
    g4: Slot<'h, D, B, 4>,
    g5: Slot<'h, D, B, 5>,
    g6: Slot<'h, D, B, 6>,
    g7: Slot<'h, D, B, 7>,
}

impl<'h, D: Deed, B: Binding> Model for Guards<'h, D, B> {
    ghost use Rattle.std.specs.Prelude.{◌∷◌, []};
    ghost use Rattle.std.specs.Sync.Mutex.{mutex_guard_value};
    ghost use Rattle.sa_journal.specs.declared.line.Line.{Line};
    ghost use Rattle.sa_hall.specs.Holds.{Hold, in_some};

    ghost Value = { Hold D };

    ghost view = { λ h. record {
      its = in_some h.g0 (λ g. (mutex_guard_value g).domain.it) ∷ in_some h.g1 (λ g. (mutex_guard_value g).domain.it) ∷ in_some h.g2 (λ g. (mutex_guard_value g).domain.it) ∷ in_some h.g3 (λ g. (mutex_guard_value g).domain.it) ∷ in_some h.g4 (λ g. (mutex_guard_value g).domain.it) ∷ in_some h.g5 (λ g. (mutex_guard_value g).domain.it) ∷ in_some h.g6 (λ g. (mutex_guard_value g).domain.it) ∷ in_some h.g7 (λ g. (mutex_guard_value g).domain.it) ∷ [];
      stores = in_some h.g0 (λ g. (mutex_guard_value g).domain.store) ∷ in_some h.g1 (λ g. (mutex_guard_value g).domain.store) ∷ in_some h.g2 (λ g. (mutex_guard_value g).domain.store) ∷ in_some h.g3 (λ g. (mutex_guard_value g).domain.store) ∷ in_some h.g4 (λ g. (mutex_guard_value g).domain.store) ∷ in_some h.g5 (λ g. (mutex_guard_value g).domain.store) ∷ in_some h.g6 (λ g. (mutex_guard_value g).domain.store) ∷ in_some h.g7 (λ g. (mutex_guard_value g).domain.store) ∷ [];
      chains = in_some h.g0 (λ g. (mutex_guard_value g).domain.chain) ∷ in_some h.g1 (λ g. (mutex_guard_value g).domain.chain) ∷ in_some h.g2 (λ g. (mutex_guard_value g).domain.chain) ∷ in_some h.g3 (λ g. (mutex_guard_value g).domain.chain) ∷ in_some h.g4 (λ g. (mutex_guard_value g).domain.chain) ∷ in_some h.g5 (λ g. (mutex_guard_value g).domain.chain) ∷ in_some h.g6 (λ g. (mutex_guard_value g).domain.chain) ∷ in_some h.g7 (λ g. (mutex_guard_value g).domain.chain) ∷ [];
    } };
}

impl<'h, D: Deed, B: Binding> Guards<'h, D, B> {
    /// No lock of a hall.
    pub(crate) fn new(hall: &'h Hall<D, B>) -> Guards<'h, D, B>
        ensures { result.its ≡ replicate 8 None }
    {
        Guards {
            hall,
            g0: None,
            g1: None,
            g2: None,
            g3: None,
            g4: None,
            g5: None,
            g6: None,
            g7: None,
        }
    }

    /// Takes the lock of a number. It may wait.
    pub(crate) fn take<W: Wait>(&mut self, rt: &W, number: u8)
        requires { number < length B.shapes }
        ensures { Takes B.roll B.ties B.shapes number self.old.its self.new.its }
    {
        match number {
            0 => self.g0 = Some(slots::take(rt, &self.hall.d0)),
            1 => self.g1 = Some(slots::take(rt, &self.hall.d1)),
            2 => self.g2 = Some(slots::take(rt, &self.hall.d2)),
            3 => self.g3 = Some(slots::take(rt, &self.hall.d3)),
            4 => self.g4 = Some(slots::take(rt, &self.hall.d4)),
            5 => self.g5 = Some(slots::take(rt, &self.hall.d5)),
            6 => self.g6 = Some(slots::take(rt, &self.hall.d6)),
            7 => self.g7 = Some(slots::take(rt, &self.hall.d7)),
            _ => unreachable!(),
        }
    }

    /// The descriptor of a number that is held.
    pub(crate) fn domain(&self, number: u8) -> &Domain<D>
        requires { is_held (held_at self.now.its number) ≡ true }
        ensures it { held_at self.now.its number ≡ Some result.now.it }
        ensures store { held_at self.now.stores number ≡ Some result.now.store }
    {
        match number {
            0 => slots::domain(&self.g0),
            1 => slots::domain(&self.g1),
            2 => slots::domain(&self.g2),
            3 => slots::domain(&self.g3),
            4 => slots::domain(&self.g4),
            5 => slots::domain(&self.g5),
            6 => slots::domain(&self.g6),
            7 => slots::domain(&self.g7),
            _ => unreachable!(),
        }
    }

    /// Makes room for one more line in each chain that is held.
    pub(crate) fn reserve(&mut self) -> Result<(), Memory>
        ensures its { self.new.its ≡ self.old.its }
        ensures stores { self.new.stores ≡ self.old.stores }
        ensures room { OnOk result (AreRoomy self.new.chains) }
    {
        slots::reserve(&mut self.g0)?;
        slots::reserve(&mut self.g1)?;
        slots::reserve(&mut self.g2)?;
        slots::reserve(&mut self.g3)?;
        slots::reserve(&mut self.g4)?;
        slots::reserve(&mut self.g5)?;
        slots::reserve(&mut self.g6)?;
        slots::reserve(&mut self.g7)?;
        Ok(())
    }

    /// Plans for the store of a number that is held.
    pub(crate) fn plan(
        &mut self,
        alloc: Global,
        number: u8,
        array: u32,
        places: &[u32],
        values: &[Value],
    ) -> Result<Plan, Memory>
        requires held { is_held (held_at self.old.its number) ≡ true }
        requires array { array < length (contents_at self.old.its number).layout.lengths }
        requires lengths { length (stretched (length places.now) values.now) ≡ length places.now }
        requires distinct { AreDistinct places.now }
        requires places { AllByRecursion (λ (p : ℕ). p < slice_index (contents_at self.old.its number).layout.lengths array) places.now }
        ensures its { self.new.its ≡ self.old.its }
        ensures plan { IfOk result (λ plan. plan ≡ record { array = array; puts = zip places.now (stretched (length places.now) values.now) }) }
        ensures can { IfOk result (λ plan. CanChange (contents_at self.new.its number) (room_at self.new.stores number) (Strings plan)) }
    {
        match number {
            0 => slots::plan(&mut self.g0, alloc, array, places, values),
            1 => slots::plan(&mut self.g1, alloc, array, places, values),
            2 => slots::plan(&mut self.g2, alloc, array, places, values),
            3 => slots::plan(&mut self.g3, alloc, array, places, values),
            4 => slots::plan(&mut self.g4, alloc, array, places, values),
            5 => slots::plan(&mut self.g5, alloc, array, places, values),
            6 => slots::plan(&mut self.g6, alloc, array, places, values),
            7 => slots::plan(&mut self.g7, alloc, array, places, values),
            _ => unreachable!(),
        }
    }

    /// The turn's line becomes the last of each chain that is held, and each change is carried out.
    pub(crate) fn commit(&mut self, turn: &mut Turn<'_, D, B>, changes: Changes)
        requires owed { turn.old.owed ≡ owed_for self.old.its }
        requires room { AreRoomy self.old.chains }
        requires fits { FitsAt (D.said turn.old.line.1.deed) changes.0 (held_at self.old.its 0) (held_at self.old.stores 0) × FitsAt (D.said turn.old.line.1.deed) changes.1 (held_at self.old.its 1) (held_at self.old.stores 1) × FitsAt (D.said turn.old.line.1.deed) changes.2 (held_at self.old.its 2) (held_at self.old.stores 2) × FitsAt (D.said turn.old.line.1.deed) changes.3 (held_at self.old.its 3) (held_at self.old.stores 3) × FitsAt (D.said turn.old.line.1.deed) changes.4 (held_at self.old.its 4) (held_at self.old.stores 4) × FitsAt (D.said turn.old.line.1.deed) changes.5 (held_at self.old.its 5) (held_at self.old.stores 5) × FitsAt (D.said turn.old.line.1.deed) changes.6 (held_at self.old.its 6) (held_at self.old.stores 6) × FitsAt (D.said turn.old.line.1.deed) changes.7 (held_at self.old.its 7) (held_at self.old.stores 7) }
        ensures its { self.new.its ≡ all_moved D.said turn.old.line 0 self.old.its }
        ensures line { (turn.new.lines ≡ turn.old.lines) × (turn.new.line ≡ turn.old.line) }
        ensures paid { turn.new.owed ≡ owed_to_task }
    {
        let (c0, c1, c2, c3, c4, c5, c6, c7) = changes;
        slots::commit(&mut self.g0, turn, c0);
        slots::commit(&mut self.g1, turn, c1);
        slots::commit(&mut self.g2, turn, c2);
        slots::commit(&mut self.g3, turn, c3);
        slots::commit(&mut self.g4, turn, c4);
        slots::commit(&mut self.g5, turn, c5);
        slots::commit(&mut self.g6, turn, c6);
        slots::commit(&mut self.g7, turn, c7);
    }

    /// Lends what the descriptors that are held hold.
    pub(crate) fn lend(&self) -> Lent<'_>
        ensures { result ≡ lent_of self.now.its }
    {
        Lent {
            s0: slots::lend(&self.g0),
            s1: slots::lend(&self.g1),
            s2: slots::lend(&self.g2),
            s3: slots::lend(&self.g3),
            s4: slots::lend(&self.g4),
            s5: slots::lend(&self.g5),
            s6: slots::lend(&self.g6),
            s7: slots::lend(&self.g7),
        }
    }
}
