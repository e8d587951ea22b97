ghost use Rattle.std.specs.Prelude.{◌≡◌, ◌≤◌, length, IfOk};
ghost use Rattle.sa_call.specs.Limits.{most_entries};
ghost use Rattle.sa_base.specs.Deeds.{picture_weight};

use sa_base::{Memory, Sequence, Stats};
use sa_plain::{ByteList, ItemsList};
use std::alloc::Global;

/// Slots of entries, each of 16 bytes.
pub type EntryList = Sequence<[u8; 16]>;

/// The picture of a descriptor: the slots of its entries, array by array, with zeros in place of keys, and
/// the bytes of its arena.
#[derive(Debug, Drop)]
pub struct Picture {
    pub entries: EntryList,
    pub arena: ByteList,
}

impl Picture {
    /// The same picture once more.
    pub fn copy(&self, alloc: Global) -> Result<Picture, Memory>
        ensures { IfOk result (λ p. p ≡ self.now) }
    {
        Ok(Picture {
            entries: EntryList::from_slice(alloc, self.entries.as_slice())?,
            arena: ByteList::from_slice(alloc, self.arena.as_slice())?,
        })
    }

    /// What the picture weighs: 16 for each entry, and the bytes of the arena.
    pub fn weight(&self) -> u64
        requires { length self.now.entries ≤ most_entries }
        ensures { result ≡ picture_weight self.now.entries self.now.arena }
    {
        let arena = self.arena.as_slice();
        16 * self.entries.len() as u64 + arena.len() as u64
    }
}

/// What was read for a call: the items of each view, in order, not stretched; the statistics or the
/// picture of a descriptor; or the weight of what weighs too much to be read.
#[derive(Debug, Drop)]
pub enum Operands {
    Items(ItemsList),
    Stats(Stats),
    Picture(Picture),
    Big(u64),
}
