ghost use Rattle.std.specs.Prelude.{◌≡◌, ℕ, ◌+◌, ◌*◌, ◌≤◌, ◌<◌, ◌^◌, length, map, slice_index, take, drop, IfOk};
ghost use Rattle.std.specs.List.{AllByRecursion, flat_map};
ghost use Rattle.sa_text.specs.Texts.{most_bytes};
ghost use Rattle.sa_alloc.specs.Layouts.{first_entry, value_at};
ghost use Rattle.sa_alloc.specs.Copies.{long_text, value_seen, long_seen, IsSeenText};

use crate::seen::Seen;
use crate::store::Store;
use sa_base::Memory;
use sa_bytes::Block;
use sa_text::{Text, Value};
use std::alloc::Global;

/// The most bytes of a text that is copied by itself.
const ALONE_MOST: usize = 14;

impl Store {
    /// The values at places of an array, in order: each text is copied once, from where it lies. Those
    /// of more than 14 bytes are parts of one block, so that no allocation is made for each. `Memory`
    /// where one is refused.
    pub fn values(&self, alloc: Global, array: u32, places: &[u32]) -> Result<Vec<Value>, Memory>
        requires array { array < length self.now.contents.layout.lengths }
        requires places { AllByRecursion (λ (p : ℕ). p < slice_index self.now.contents.layout.lengths array) places.now }
        requires few { length places.now ≤ 8192 }
        ensures { IfOk result (λ v. v.items ≡ map (λ p. value_at self.now.contents.layout (first_entry self.now.contents.layout.lengths array + p)) places.now) }
    {
        let first = self.first(array) as usize;
        let block = Block::new(alloc, self.long_texts(alloc, first, places)?)?;
        self.values_over(alloc, &block, first, places)
    }

    /// The texts of entries that have more than 14 bytes, one behind another.
    fn long_texts(&self, alloc: Global, first: usize, places: &[u32]) -> Result<Vec<u8>, Memory>
        requires within { AllByRecursion (λ (p : ℕ). first + p < length self.now.contents.slots) places.now }
        requires limit { length self.now.contents.slots ≤ 8192 }
        ensures texts { IfOk result (λ bytes. bytes.items ≡ flat_map long_text (map (λ p. value_at self.now.contents.layout (first + p)) places.now)) }
        ensures few { IfOk result (λ bytes. length bytes.items ≤ most_bytes * length places.now) }
    {
        let mut bytes = Vec::new(alloc);
        for place in places {
            bytes.extend_from_slice(self.long_text(first + *place as usize))?;
        }
        Ok(bytes)
    }

    /// The text of an entry, lent, where it has more than 14 bytes, and no bytes where it has not.
    #[inline(always)]
    fn long_text(&self, entry: usize) -> &[u8]
        requires { entry < length self.now.contents.slots }
        ensures text { result.now ≡ long_text (value_at self.now.contents.layout entry) }
        ensures most { length result.now ≤ most_bytes }
    {
        long_part(self.seen(entry))
    }

    /// The values of entries, of which a block has the longer texts.
    fn values_over(
        &self,
        alloc: Global,
        block: &Block,
        first: usize,
        places: &[u32],
    ) -> Result<Vec<Value>, Memory>
        requires within { AllByRecursion (λ (p : ℕ). first + p < length self.now.contents.slots) places.now }
        requires few { (length self.now.contents.slots ≤ 8192) × (length block.now < 2 ^ 32) }
        requires block { block.now ≡ flat_map long_text (map (λ p. value_at self.now.contents.layout (first + p)) places.now) }
        ensures { IfOk result (λ v. v.items ≡ map (λ p. value_at self.now.contents.layout (first + p)) places.now) }
    {
        let mut values = Vec::with_capacity(alloc, places.len())?;
        let mut start = 0usize;
        for place in places {
            let (value, size) = copied(alloc, block, start, self.seen(first + *place as usize))?;
            values.push(value)?;
            start += size;
        }
        Ok(values)
    }
}

/// The text that was seen, where it has more than 14 bytes, and no bytes where it has not.
#[inline(always)]
fn long_part(seen: Seen<'_>) -> &[u8]
    requires { IsSeenText seen }
    ensures text { result.now ≡ long_seen seen.entry }
    ensures most { length result.now ≤ most_bytes }
{
    match seen {
        Seen::Missing => &[],
        Seen::Bytes(bytes) => { if bytes.len() > ALONE_MOST { bytes } else { &[] } }
    }
}

/// The value that was seen, whose text is the part of a block from a place on where it is long; and how
/// many bytes of the block that takes.
#[inline(always)]
fn copied(
    alloc: Global,
    block: &Block,
    start: usize,
    seen: Seen<'_>,
) -> Result<(Value, usize), Memory>
    requires text { IsSeenText seen }
    requires within { start + length (long_seen seen) ≤ length block.now }
    requires part { take (length (long_seen seen)) (drop start block.now) ≡ long_seen seen }
    ensures value { IfOk result (λ x. x.0 ≡ value_seen seen.entry) }
    ensures size { IfOk result (λ x. x.1 ≡ length (long_seen seen.entry)) }
{
    match seen {
        Seen::Missing => Ok((Value::Missing, 0)),
        Seen::Bytes(bytes) => {
            let size = bytes.len();
            if size > ALONE_MOST {
                Ok((Value::Of(Text::of_part(block, start, size)?), size))
            } else {
                Ok((Value::Of(Text::from_utf8(alloc, bytes)?), 0))
            }
        }
    }
}
