ghost use Rattle.std.specs.Prelude.{◌≡◌, ◌+◌, ◌<◌, ◌≤◌, ◌^◌, [], Some, None, true, OnOk, OnErr, option_map};
ghost use Rattle.sa_outside.specs.Keyed.{bytes_at, is_used, used_count, Changes};

use sa_base::Memory;
use sa_bytes::SharedBytes;
use slab::Slab;
use std::alloc::Global;
use std::marker::Model;
use std::mem;

/// Texts under keys. Contracts see the bytes at each key, and how many more can be put with no memory.
#[derive(Debug, Drop)]
pub struct Outside {
    texts: Slab<SharedBytes>,
}

impl Model for Outside {
    ghost use Rattle.sa_outside.specs.Keyed.{Keyed};
    ghost use Rattle.sa_outside.specs.Slots.{spare_in};
    ghost use Rattle.slab.specs.Slab.{HasRoomFor};

    ghost Value = { Keyed };

    ghost view = { λ o. record {
      texts = o.texts.slots;
      spare = spare_in o.texts;
    } };

    ghost invariant = { λ o. HasRoomFor o.texts 0 };
}

impl Outside {
    /// No texts. It takes no memory.
    pub fn new(alloc: Global) -> Outside
        ensures { result ≡ record { texts = []; spare = 0 } }
    {
        Outside {
            texts: Slab::new(alloc),
        }
    }

    /// Makes room for `n` more texts. Where they are spare nothing changes, and nothing is asked of
    /// memory; only where they are not can `Memory` come. The texts are as before in each case. By how
    /// much the room grows the crate `slab` does not say.
    pub fn reserve(&mut self, n: u64) -> Result<(), Memory>
        requires { n ≤ 2 ^ 32 }
        ensures texts { self.new.texts ≡ self.old.texts }
        ensures room { OnOk result (n ≤ self.new.spare) }
        ensures spare { self.old.spare ≤ self.new.spare }
        ensures kept { n ≤ self.old.spare → self.new.spare ≡ self.old.spare }
        ensures full { OnErr result (self.old.spare < n) }
    {
        self.texts.reserve(n as usize)?;
        Ok(())
    }

    /// Puts a text under a key that was not in use, and answers the key. It takes no memory, since
    /// room for a text more was made before.
    pub fn put(&mut self, bytes: SharedBytes) -> u64
        requires { 1 ≤ self.old.spare }
        ensures vacant { bytes_at self.old.texts result ≡ None }
        ensures changes { Changes self.old.texts self.new.texts result (Some bytes) }
        ensures count { used_count self.new.texts ≡ used_count self.old.texts + 1 }
        ensures spare { self.new.spare + 1 ≡ self.old.spare }
    {
        self.texts.insert_reserved(bytes) as u64
    }

    /// Puts a text in the place of the one under a key, which it answers.
    pub fn swap(&mut self, key: u64, bytes: SharedBytes) -> SharedBytes
        requires { is_used self.old.texts key ≡ true }
        ensures bytes { bytes_at self.old.texts key ≡ Some result }
        ensures changes { Changes self.old.texts self.new.texts key (Some bytes) }
        ensures count { used_count self.new.texts ≡ used_count self.old.texts }
        ensures spare { self.new.spare ≡ self.old.spare }
    {
        mem::replace(&mut self.texts[key as usize], bytes)
    }

    /// Takes away the text under a key, which it answers. The key is in use no more, and its room is
    /// spare.
    pub fn free(&mut self, key: u64) -> SharedBytes
        requires { is_used self.old.texts key ≡ true }
        ensures bytes { bytes_at self.old.texts key ≡ Some result }
        ensures changes { Changes self.old.texts self.new.texts key None }
        ensures count { used_count self.new.texts + 1 ≡ used_count self.old.texts }
        ensures spare { self.new.spare ≡ self.old.spare + 1 }
    {
        self.texts.remove(key as usize)
    }

    /// The text under a key; none exactly where the key is not in use.
    pub fn get(&self, key: u64) -> Option<&[u8]>
        ensures { option_map (λ b. b.now) result ≡ bytes_at self.now.texts key }
    {
        match self.texts.get(key as usize) {
            Some(bytes) => Some(bytes.as_slice()),
            None => None,
        }
    }

    /// How many keys are in use.
    pub fn count(&self) -> u64
        ensures { result ≡ used_count self.now.texts }
    {
        self.texts.len() as u64
    }
}
