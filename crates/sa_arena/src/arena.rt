ghost use Rattle.std.specs.Prelude.{◌≡◌, ◌+◌, ◌*◌, ◌≤◌, ◌<◌, ◌^◌, ◌++◌, ◌∷◌, [], length, take, drop, Some, None, true, OnOk, OnErr};
ghost use Rattle.sa_arena.specs.Extents.{least_text, IsTextSize, text_bytes, cursor_of, live_bytes, prefix_size, extent_for, is_live, number_at, extent_at, start_of, with_text, trimmed};
ghost use Rattle.sa_arena.specs.Images.{image_of, grown_size, most_asked};

use crate::buffer::{fill, prefix_len, write_extent, write_padded, write_zeros};
use sa_base::Memory;
use std::alloc::Global;
use std::marker::Model;

/// The fewest bytes of an extent: a prefix of one byte, and a text of 16.
const LEAST_EXTENT: usize = 17;

/// What the table says of one extent: the offset of its text, how many bytes the text may have, how
/// many it has, none where the extent is dead, and whether it is live.
#[derive(Clone, Copy)]
struct Member {
    at: u64,
    capacity: u32,
    size: u32,
    live: bool,
}

/// Extents in one buffer, in order of creation; the last one is live. Contracts see the list of
/// extents, and the size of the buffer.
#[derive(Drop)]
pub struct Arena {
    table: Vec<Member>,
    bytes: Vec<u8>,
    cursor: u64,
    live: u64,
}

impl Model for Arena {
    ghost use Rattle.std.specs.Prelude.{vec_capacity};
    ghost use Rattle.sa_arena.specs.Extents.{Region};

    ghost Value = { Region };

    ghost use Rattle.sa_arena.specs.Members.{region_in, Holds};

    ghost view = { λ a. region_in a.table.items a.bytes.items };

    ghost invariant = { λ a. Holds (region_in a.table.items a.bytes.items) a.table.items a.bytes.items a.cursor a.live (vec_capacity a.table) };
}

impl Arena {
    /// No extents, and no buffer. It takes no memory.
    pub fn new(alloc: Global) -> Arena
        ensures { result ≡ record { extents = []; size = 0 } }
    {
        Arena {
            table: Vec::new(alloc),
            bytes: Vec::new(alloc),
            cursor: 0,
            live: 0,
        }
    }

    /// Makes room for so many more bytes of extents, prefixes included. Where they are spare, nothing
    /// changes; else the buffer grows to what is needed, and at least by a quarter. After a want of
    /// memory the extents and the size are as before.
    pub fn reserve(&mut self, bytes: u64) -> Result<(), Memory>
        requires { bytes ≤ most_asked }
        ensures extents { self.new.extents ≡ self.old.extents }
        ensures size { OnOk result (self.new.size ≡ grown_size self.old bytes) }
        ensures grows { self.old.size ≤ self.new.size }
        ensures kept { OnErr result (self.new.size ≡ self.old.size) }
    {
        let needed = self.cursor + bytes;
        let size = self.bytes.len() as u64;
        if needed <= size {
            return Ok(());
        }
        let grown = needed.max(size + size / 4) as usize;
        // this many places are enough for all extents that fit
        let places = grown / LEAST_EXTENT + 1;
        // both are made room for first, so that want of memory leaves the buffer as it is
        self.bytes.reserve_exact(grown - size as usize)?;
        self.table.reserve_exact(places - self.table.len())?;
        fill(&mut self.bytes, grown);
        Ok(())
    }

    /// A new live extent with a text; the offset of the text's first byte. It takes no memory.
    pub fn append(&mut self, text: &[u8]) -> u64
        requires size { IsTextSize (length text.now) }
        requires room { cursor_of self.old.extents + (prefix_size (length text.now) + length text.now) ≤ self.old.size }
        ensures extents { self.new.extents ≡ self.old.extents ++ extent_for (length text.now) text.now ∷ [] }
        ensures size { self.new.size ≡ self.old.size }
        ensures at { result ≡ cursor_of self.old.extents + prefix_size (length text.now) }
    {
        let size = text.len() as u64;
        let start = self.cursor;
        let at = start + prefix_len(size);
        write_extent(&mut self.bytes, start as usize, text);
        self.table.push_reserved(Member {
            at,
            capacity: size as u32,
            size: size as u32,
            live: true,
        });
        self.live += at + size - start;
        self.cursor = at + size;
        at
    }

    /// Puts a text into the extent at an offset, which keeps its place and its capacity.
    pub fn reuse(&mut self, at: u64, text: &[u8])
        requires live { is_live self.old.extents (number_at self.old.extents at) ≡ true }
        requires size { (least_text ≤ length text.now) × (length text.now ≤ (extent_at self.old.extents (number_at self.old.extents at)).capacity) }
        ensures extents { self.new.extents ≡ with_text self.old.extents (number_at self.old.extents at) (Some text.now) }
        ensures size { self.new.size ≡ self.old.size }
    {
        let number = self.number_of(at);
        let room = self.capacity(number);
        write_padded(&mut self.bytes, at as usize, room as usize, text);
        self.table[number] = Member {
            at,
            capacity: room,
            size: text.len() as u32,
            live: true,
        };
    }

    /// The extent at an offset dies, and then the dead extents at the end are removed. It takes no
    /// memory.
    pub fn kill(&mut self, at: u64)
        requires { is_live self.old.extents (number_at self.old.extents at) ≡ true }
        ensures extents { self.new.extents ≡ trimmed (with_text self.old.extents (number_at self.old.extents at) None) }
        ensures size { self.new.size ≡ self.old.size }
    {
        let number = self.number_of(at);
        // what is left is counted first: once the extent is marked, this is no arena until the dead
        // ones at the end are gone
        let count = self.count_without(number);
        let cursor = self.start(count);
        let start = self.start(number);
        let capacity = self.capacity(number);
        let size = at - start + capacity as u64;
        write_zeros(&mut self.bytes, start as usize, size as usize);
        self.table[number] = Member {
            at,
            capacity,
            size: 0,
            live: false,
        };
        self.table.truncate(count);
        self.live -= size;
        self.cursor = cursor;
    }

    /// The capacity of the live extent at an offset.
    pub fn capacity_at(&self, at: u64) -> u64
        requires { is_live self.now.extents (number_at self.now.extents at) ≡ true }
        ensures { result ≡ (extent_at self.now.extents (number_at self.now.extents at)).capacity }
    {
        self.capacity(self.number_of(at)) as u64
    }

    /// The text of the live extent at an offset, lent. Its size is known to the caller, so nothing is
    /// searched.
    #[inline(always)]
    pub fn text_at(&self, at: u64, size: u64) -> &[u8]
        requires live { is_live self.now.extents (number_at self.now.extents at) ≡ true }
        requires size { length (text_bytes (extent_at self.now.extents (number_at self.now.extents at))) ≡ size }
        ensures { (extent_at self.now.extents (number_at self.now.extents at)).text ≡ Some result.now }
    {
        let bytes = self.bytes.as_slice();
        let end = (at + size) as usize;
        &bytes[at as usize..end]
    }

    /// The first bytes of the room of the live extent at an offset, lent: a part of the image.
    pub fn bytes_at(&self, at: u64, size: u64) -> &[u8]
        requires live { is_live self.now.extents (number_at self.now.extents at) ≡ true }
        requires within { size ≤ (extent_at self.now.extents (number_at self.now.extents at)).capacity }
        ensures { result.now ≡ take size (drop at (image_of self.now.extents)) }
    {
        &self.bytes[at as usize..(at + size) as usize]
    }

    /// The bytes of all extents, prefixes included.
    pub fn cursor(&self) -> u64
        ensures { result ≡ cursor_of self.now.extents }
    {
        self.cursor
    }

    /// The bytes of the live extents, prefixes included.
    pub fn live(&self) -> u64
        ensures { result ≡ live_bytes self.now.extents }
    {
        self.live
    }

    /// The bytes of the buffer.
    pub fn size(&self) -> u64
        ensures { result ≡ self.now.size }
    {
        self.bytes.len() as u64
    }

    /// The bytes of the extents, as many as the cursor says, lent from the buffer.
    pub fn image(&self) -> &[u8]
        ensures bytes { result.now ≡ image_of self.now.extents }
        ensures long { length result.now ≡ cursor_of self.now.extents }
    {
        &self.bytes[..self.cursor as usize]
    }

    /// The number of the extent at an offset, by a search by halves over the rising offsets.
    fn number_of(&self, at: u64) -> usize
        requires { number_at self.now.extents at < length self.now.extents }
        ensures { result ≡ number_at self.now.extents at }
    {
        let mut low = 0;
        let mut high = self.table.len();
        'halves: while high - low > 1 {
            let middle = low + (high - low) / 2;
            if self.table[middle].at <= at {
                low = middle;
            } else {
                high = middle;
            }
        }
        low
    }

    /// The capacity of the extent of a number.
    fn capacity(&self, number: usize) -> u32
        requires { number < length self.now.extents }
        ensures { result ≡ (extent_at self.now.extents number).capacity }
    {
        self.table[number].capacity
    }

    /// Where the extent of a number begins, or the cursor where there is none.
    fn start(&self, number: usize) -> u64
        requires { number ≤ length self.now.extents }
        ensures { result ≡ start_of self.now.extents number }
    {
        if number == self.table.len() {
            return self.cursor;
        }
        self.table[number].at - prefix_len(self.capacity(number) as u64)
    }

    /// How many extents are left once the one of a number is dead and the dead ones at the end are
    /// removed.
    fn count_without(&self, number: usize) -> usize
        requires { number < length self.now.extents }
        ensures count { result ≤ length self.now.extents }
        ensures trimmed { take result (with_text self.now.extents number None) ≡ trimmed (with_text self.now.extents number None) }
    {
        let mut count = self.table.len();
        'dead: while count > 0 && !self.lives_without(number, count - 1) {
            count -= 1;
        }
        count
    }

    /// Whether an extent is live once the one of a number is dead.
    fn lives_without(&self, number: usize, other: usize) -> bool
        requires { (number < length self.now.extents) × (other < length self.now.extents) }
        ensures { result ≡ is_live (with_text self.now.extents number None) other }
    {
        if other == number {
            return false;
        }
        self.table[other].live
    }
}
