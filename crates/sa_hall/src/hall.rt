//! The locks of all descriptors.
ghost use Rattle.std.specs.Prelude.{◌≡◌, ◌≤◌, ◌+◌, nat_lt, length, map, min, true, IfOk, IfSome};
ghost use Rattle.sa_hall.specs.Domains.{HasEntries, IsPlaced};
ghost use Rattle.sa_hall.specs.Halls.{ArePlaced, HaveEntries, AreQuiet};
ghost use Rattle.sa_hall.specs.Holds.{is_held, in_some};

use crate::domain::Domain;
use crate::guarded::Guarded;
use crate::quiet::Quiet;
use sa_base::Memory;
use sa_journal::{Binding, Deed};
use std::alloc::Global;
use std::sync::Mutex;

/// A lock for each descriptor of the binding's shapes, at most eight. What each guards is the descriptor of
/// its number.
#[derive(Drop)]
pub struct Hall<D: Deed, B: Binding> {
    pub(crate) d0: Option<Mutex<Guarded<D, B, 0>>>,
    pub(crate) d1: Option<Mutex<Guarded<D, B, 1>>>,
    pub(crate) d2: Option<Mutex<Guarded<D, B, 2>>>,
    pub(crate) d3: Option<Mutex<Guarded<D, B, 3>>>,
    pub(crate) d4: Option<Mutex<Guarded<D, B, 4>>>,
    pub(crate) d5: Option<Mutex<Guarded<D, B, 5>>>,
    pub(crate) d6: Option<Mutex<Guarded<D, B, 6>>>,
    pub(crate) d7: Option<Mutex<Guarded<D, B, 7>>>,
    ghost has_0: { is_held d0 ≡ nat_lt 0 (length B.shapes) },
    ghost has_1: { is_held d1 ≡ nat_lt 1 (length B.shapes) },
    ghost has_2: { is_held d2 ≡ nat_lt 2 (length B.shapes) },
    ghost has_3: { is_held d3 ≡ nat_lt 3 (length B.shapes) },
    ghost has_4: { is_held d4 ≡ nat_lt 4 (length B.shapes) },
    ghost has_5: { is_held d5 ≡ nat_lt 5 (length B.shapes) },
    ghost has_6: { is_held d6 ≡ nat_lt 6 (length B.shapes) },
    ghost has_7: { is_held d7 ≡ nat_lt 7 (length B.shapes) },
    ghost most: { length B.shapes ≤ 8 },
}

impl<D: Deed, B: Binding> Hall<D, B> {
    /// Puts each descriptor under the lock of its number. There is one for each of the binding's shapes, at
    /// its place.
    pub fn new(_alloc: Global, domains: Vec<Domain<D>>) -> Result<Hall<D, B>, Memory>
        requires count { length domains.items ≡ length B.shapes }
        requires most { length B.shapes ≤ 8 }
        requires placed { ArePlaced B.roll B.ties B.shapes (map (λ d. d.it) domains.items) }
        requires entries { HaveEntries (map (λ d. d.it) domains.items) }
    {
        let mut domains = domains;
        let d7 = lock_last::<D, B, 7>(&mut domains);
        let d6 = lock_last::<D, B, 6>(&mut domains);
        let d5 = lock_last::<D, B, 5>(&mut domains);
        let d4 = lock_last::<D, B, 4>(&mut domains);
        let d3 = lock_last::<D, B, 3>(&mut domains);
        let d2 = lock_last::<D, B, 2>(&mut domains);
        let d1 = lock_last::<D, B, 1>(&mut domains);
        let d0 = lock_last::<D, B, 0>(&mut domains);
        Ok(Hall {
            d0,
            d1,
            d2,
            d3,
            d4,
            d5,
            d6,
            d7,
        })
    }

    /// The descriptors, under no lock.
    pub fn end(self) -> Quiet<D>
        ensures { AreQuiet B.roll B.ties B.shapes result }
    {
        let Hall {
            d0,
            d1,
            d2,
            d3,
            d4,
            d5,
            d6,
            d7,
        } = self;
        Quiet {
            d0: unlocked(d0),
            d1: unlocked(d1),
            d2: unlocked(d2),
            d3: unlocked(d3),
            d4: unlocked(d4),
            d5: unlocked(d5),
            d6: unlocked(d6),
            d7: unlocked(d7),
        }
    }
}

// Puts the last descriptor under the lock of number K, if it is that many.
fn lock_last<D: Deed, B: Binding, const K: u8>(
    domains: &mut Vec<Domain<D>>,
) -> Option<Mutex<Guarded<D, B, K>>>
    requires count { length domains.old.items ≡ min (length B.shapes) (K + 1) }
    requires placed { ArePlaced B.roll B.ties B.shapes (map (λ d. d.it) domains.old.items) }
    requires entries { HaveEntries (map (λ d. d.it) domains.old.items) }
    ensures held { is_held result ≡ nat_lt K (length B.shapes) }
    ensures count { length domains.new.items ≡ min (length B.shapes) K }
    ensures placed { ArePlaced B.roll B.ties B.shapes (map (λ d. d.it) domains.new.items) }
    ensures entries { HaveEntries (map (λ d. d.it) domains.new.items) }
{
    if domains.len() <= usize::from(K) {
        return None;
    }
    match domains.pop() {
        Some(domain) => Some(Mutex::new(Guarded::new(domain))),
        None => unreachable!(),
    }
}

// Takes a descriptor from under its lock, if there is one.
fn unlocked<D: Deed, B: Binding, const K: u8>(
    lock: Option<Mutex<Guarded<D, B, K>>>,
) -> Option<Domain<D>>
    ensures held { is_held result ≡ is_held lock }
    ensures placed { IfSome (in_some result (λ d. d.it)) (λ k. IsPlaced B.roll B.ties B.shapes K k × HasEntries k.contents.layout) }
{
    match lock {
        Some(lock) => Some(lock.into_inner().into_domain()),
        None => None,
    }
}
