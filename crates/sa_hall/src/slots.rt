//! The lock of one number, whichever that is.
ghost use Rattle.std.specs.Prelude.{ℕ, ◌≡◌, ◌<◌, true, false, length, set, slice_index, slice_index_or, zip, Some, IfOk, IfSome, OnOk, is_some, ◌&&◌};
ghost use Rattle.std.specs.List.{AllByRecursion};
ghost use Rattle.std.specs.Sync.Mutex.{mutex_guard_value};
ghost use Rattle.sa_text.specs.Values.{stretched};
ghost use Rattle.sa_alloc.specs.Stores.{AreDistinct};
ghost use Rattle.sa_hall.specs.declared.change.Change.TheVariants.{Strings};
ghost use Rattle.sa_hall.specs.Domains.{HasEntries, IsPlaced};
ghost use Rattle.sa_hall.specs.Holds.{is_held, in_some};
ghost use Rattle.sa_hall.specs.Changes.{CanChange, FitsHere};
ghost use Rattle.sa_hall.specs.Moves.{moved};

use crate::change::Change;
use crate::domain::Domain;
use crate::guarded::Guarded;
use crate::lending::Lending;
use sa_alloc::Plan;
use sa_base::Memory;
use sa_journal::{Binding, Deed, Turn};
use sa_text::Value;
use std::alloc::Global;
use std::sync::{Mutex, MutexGuard, Wait};

/// A lock that is held, or not.
pub(crate) type Slot<'h, D, B, const K: u8> = Option<MutexGuard<'h, Guarded<D, B, K>>>;

/// Takes a lock that there is. It may wait.
pub(crate) fn take<'h, D: Deed, B: Binding, W: Wait, const K: u8>(
    rt: &W,
    lock: &'h Option<Mutex<Guarded<D, B, K>>>,
) -> MutexGuard<'h, Guarded<D, B, K>>
    requires { is_held lock.now ≡ true }
    ensures placed { IsPlaced B.roll B.ties B.shapes K (mutex_guard_value result).domain.it }
    ensures entries { HasEntries (mutex_guard_value result).domain.it.contents.layout }
{
    match lock {
        Some(lock) => {
            let guard = lock.lock(rt);
            guard.domain();
            guard
        }
        None => unreachable!(),
    }
}

/// The descriptor under a lock that is held.
pub(crate) fn domain<'s, 'h, D: Deed, B: Binding, const K: u8>(
    slot: &'s Slot<'h, D, B, K>,
) -> &'s Domain<D>
    requires { is_held slot.now ≡ true }
    ensures it { in_some slot.now (λ g. (mutex_guard_value g).domain.it) ≡ Some result.now.it }
    ensures store { in_some slot.now (λ g. (mutex_guard_value g).domain.store) ≡ Some result.now.store }
    ensures placed { IsPlaced B.roll B.ties B.shapes K result.now.it }
    ensures entries { HasEntries result.now.it.contents.layout }
{
    match slot {
        Some(guard) => guard.domain(),
        None => unreachable!(),
    }
}

/// Makes room for one more line, if the lock is held.
pub(crate) fn reserve<D: Deed, B: Binding, const K: u8>(
    slot: &mut Slot<'_, D, B, K>,
) -> Result<(), Memory>
    ensures it { in_some slot.new (λ g. (mutex_guard_value g).domain.it) ≡ in_some slot.old (λ g. (mutex_guard_value g).domain.it) }
    ensures store { in_some slot.new (λ g. (mutex_guard_value g).domain.store) ≡ in_some slot.old (λ g. (mutex_guard_value g).domain.store) }
    ensures room { OnOk result (IfSome (in_some slot.new (λ g. (mutex_guard_value g).domain.chain)) (λ room. 0 < room)) }
{
    match slot {
        Some(guard) => guard.reserve(),
        None => Ok(()),
    }
}

/// Plans for the store under a lock that is held.
pub(crate) fn plan<D: Deed, B: Binding, const K: u8>(
    slot: &mut Slot<'_, D, B, K>,
    alloc: Global,
    array: u32,
    places: &[u32],
    values: &[Value],
) -> Result<Plan, Memory>
    requires held { is_held slot.old ≡ true }
    requires array { IfSome (in_some slot.old (λ g. (mutex_guard_value g).domain.it)) (λ k. array < length k.contents.layout.lengths) }
    requires lengths { length (stretched (length places.now) values.now) ≡ length places.now }
    requires distinct { AreDistinct places.now }
    requires places { IfSome (in_some slot.old (λ g. (mutex_guard_value g).domain.it)) (λ k. AllByRecursion (λ (p : ℕ). p < slice_index k.contents.layout.lengths array) places.now) }
    ensures it { in_some slot.new (λ g. (mutex_guard_value g).domain.it) ≡ in_some slot.old (λ g. (mutex_guard_value g).domain.it) }
    ensures plan { IfOk result (λ plan. plan ≡ record { array = array; puts = zip places.now (stretched (length places.now) values.now) }) }
    ensures can { IfOk result (λ plan. IfSome (in_some slot.new (λ g. (mutex_guard_value g).domain)) (λ d. CanChange d.it.contents d.store (Strings plan))) }
{
    match slot {
        Some(guard) => guard.plan(alloc, array, places, values),
        None => unreachable!(),
    }
}

/// The turn's line becomes the last of the chain under the lock, if that is held, and its change is
/// carried out.
#[tactic(auto, using(crate::proofs::HoldLemmas::set_there))]
pub(crate) fn commit<D: Deed, B: Binding, const K: u8>(
    slot: &mut Slot<'_, D, B, K>,
    turn: &mut Turn<'_, D, B>,
    change: Change,
)
    requires owed { (length turn.old.owed ≡ 9) × (K < 8) × (slice_index_or turn.old.owed K false ≡ is_held slot.old) }
    requires room { IfSome (in_some slot.old (λ g. (mutex_guard_value g).domain.chain)) (λ room. 0 < room) }
    requires fits { IfSome (in_some slot.old (λ g. (mutex_guard_value g).domain)) (λ d. FitsHere (D.said turn.old.line.1.deed) change d.it d.store) }
    ensures moved { in_some slot.new (λ g. (mutex_guard_value g).domain.it) ≡ in_some (in_some slot.old (λ g. (mutex_guard_value g).domain.it)) (λ k. moved D.said turn.old.line K k) }
    ensures line { (turn.new.lines ≡ turn.old.lines) × (turn.new.line ≡ turn.old.line) }
    ensures paid { turn.new.owed ≡ set turn.old.owed K false }
{
    match slot {
        Some(guard) => guard.commit(turn, change),
        None => (),
    }
}

/// Lends the store and the plain arrays under the lock, if that is held.
pub(crate) fn lend<'s, 'h, D: Deed, B: Binding, const K: u8>(
    slot: &'s Slot<'h, D, B, K>,
) -> Option<Lending<'s>>
    ensures { result ≡ in_some (in_some slot.now (λ g. (mutex_guard_value g).domain.it)) (λ k. k.contents) }
{
    match slot {
        Some(guard) => Some(guard.domain().lend()),
        None => None,
    }
}
