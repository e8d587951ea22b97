ghost use Rattle.std.specs.Prelude.{ℕ, ◌≡◌, ◌+◌, ◌*◌, ◌≤◌, ◌<◌, ◌^◌, length, slice_index, sum_by, zip, IfOk, replicate};
ghost use Rattle.std.specs.List.{AllByRecursion};
ghost use Rattle.sa_text.specs.Texts.{most_bytes};
ghost use Rattle.sa_text.specs.Values.{stretched, value_weight};
ghost use Rattle.sa_entry.specs.Slots.{Fresh};
ghost use Rattle.sa_arena.specs.Extents.{cursor_of};
ghost use Rattle.sa_arena.specs.Images.{grown_size};
ghost use Rattle.sa_alloc.specs.Layouts.{incoming, state_at, put, put_all, value_at, stats_of, entry_image, entry_images, arena_image, first_entry};
ghost use Rattle.sa_alloc.specs.Needs.{bytes_appended, keys_taken, bytes_needed, bytes_most, keys_most};
ghost use Rattle.sa_alloc.specs.StoreValues.{IsSoundStore, opening_contents, region_of};
ghost use Rattle.sa_alloc.specs.Stores.{IsPlace, IsPlan, HasRoom, AreDistinct, Shows, puts_from, puts_of};
ghost use Rattle.sa_alloc.specs.Consistency.{IsSmall, IsSized, without_key};

use crate::needs::{copies, needs_of};
use crate::plan::Plan;
use crate::seen::Seen;
use crate::transition::step;
use sa_arena::Arena;
use sa_base::{Memory, Stats};
use sa_entry::{Entry, Form};
use sa_outside::Outside;
use sa_text::{Text, Value};
use std::alloc::Global;
use std::marker::Model;

/// What a value weighs besides its text.
const VALUE_WEIGHT: u64 = 16;

/// One descriptor's arena, its texts outside, and a slot for each entry of its strings arrays.
/// Contracts see what it holds, and its room.
#[derive(Drop)]
pub struct Store {
    lengths: Vec<u32>,
    starts: Vec<u32>,
    entries: Vec<Entry>,
    arena: Arena,
    outside: Outside,
}

impl Model for Store {
    ghost use Rattle.sa_alloc.specs.StoreValues.{StoreValue};
    ghost use Rattle.sa_alloc.specs.Transitions.{storage};
    ghost use Rattle.sa_alloc.specs.Consistency.{layout_from, IsStore};

    ghost Value = { StoreValue };

    ghost view = { λ s. record {
      contents = record { layout = layout_from s.lengths.items (storage s.arena.extents s.outside.texts) s.entries.items; slots = s.entries.items; texts = s.outside.texts };
      room = record { size = s.arena.size; spare = s.outside.spare };
    } };

    ghost invariant = { λ s. IsStore s.lengths.items s.starts.items (storage s.arena.extents s.outside.texts) s.entries.items };
}

impl Store {
    /// Fresh entries for arrays of these lengths. The condition is at most 64 arrays and 8,192 entries
    /// together.
    pub fn new(alloc: Global, lengths: &[u32]) -> Result<Store, Memory>
        requires { IsSmall lengths.now }
        ensures { IfOk result (λ s. s ≡ record { contents = opening_contents lengths.now; room = record { size = 0; spare = 0 } }) }
    {
        let mut starts = Vec::with_capacity(alloc, lengths.len())?;
        let mut total = 0u32;
        for length in lengths {
            starts.push(total)?;
            total += *length;
        }
        Ok(Store {
            lengths: Vec::from_slice(alloc, lengths)?,
            starts,
            entries: fresh_entries(alloc, total as usize)?,
            arena: Arena::new(alloc),
            outside: Outside::new(alloc),
        })
    }

    /// Copies values for distinct places of an array, one value for all places or one for each, and
    /// takes all memory that their writing needs: bytes of the arena for the extents that it appends,
    /// and a key for each entry that it moves outside. Nothing that the store holds changes. After a
    /// want of memory all is as before but for the room.
    pub fn plan(
        &mut self,
        alloc: Global,
        array: u32,
        places: &[u32],
        values: &[Value],
    ) -> Result<Plan, Memory>
        requires array { array < length self.old.contents.layout.lengths }
        requires lengths { length (stretched (length places.now) values.now) ≡ length places.now }
        requires distinct { AreDistinct places.now }
        requires places { AllByRecursion (λ (p : ℕ). p < slice_index self.old.contents.layout.lengths array) places.now }
        ensures contents { self.new.contents ≡ self.old.contents }
        ensures grows { (self.old.room.size ≤ self.new.room.size) × (self.old.room.spare ≤ self.new.room.spare) }
        ensures plan { IfOk result (λ plan. plan ≡ record { array = array; puts = zip places.now (stretched (length places.now) values.now) }) }
        ensures valid { IfOk result (λ plan. IsPlan self.old.contents.layout.lengths plan) }
        ensures room { IfOk result (λ plan. HasRoom self.new (puts_of self.old.contents.layout.lengths plan)) }
        ensures size { IfOk result (λ plan. self.new.room.size ≡ grown_size (region_of self.old) (bytes_needed self.old.contents.layout (puts_of self.old.contents.layout.lengths plan))) }
        ensures spare { IfOk result (λ plan. keys_most self.old.contents.slots (puts_of self.old.contents.layout.lengths plan) ≤ self.old.room.spare → self.new.room.spare ≡ self.old.room.spare) }
    {
        let puts = copies(alloc, places, values)?;
        let (bytes, keys) = self.needs(self.first(array), puts.as_slice());
        self.arena.reserve(bytes)?;
        self.outside.reserve(keys)?;
        Ok(Plan::new(array, puts))
    }

    /// Writes the values of a plan into its places, in order. It cannot fail and takes no memory.
    pub fn write(&mut self, plan: Plan)
        requires plan { IsPlan self.old.contents.layout.lengths plan }
        requires room { HasRoom self.old (puts_of self.old.contents.layout.lengths plan) }
        ensures layout { self.new.contents.layout ≡ put_all self.old.contents.layout (puts_of self.old.contents.layout.lengths plan) }
        ensures size { self.new.room.size ≡ self.old.room.size }
    {
        let (array, puts) = plan.into_parts();
        let first = self.first(array);
        for (place, value) in puts {
            self.put((first + place) as usize, value);
        }
    }

    /// The lengths of the arrays, in order.
    pub fn lengths(&self) -> &[u32]
        ensures lengths { result.now ≡ self.now.contents.layout.lengths }
        ensures sound { IsSoundStore self.now.contents }
    {
        self.lengths.as_slice()
    }

    /// The value of an entry: its text is lent from where it lies, without a copy.
    #[inline]
    pub fn load(&self, array: u32, place: u32) -> Seen<'_>
        requires { IsPlace self.now.contents.layout.lengths array place }
        ensures { Shows result (value_at self.now.contents.layout (first_entry self.now.contents.layout.lengths array + place)) }
    {
        self.seen((self.first(array) + place) as usize)
    }

    /// What the value of an entry weighs. Its slot tells it, and no text is read.
    #[inline]
    pub fn value_weight(&self, array: u32, place: u32) -> u64
        requires { IsPlace self.now.contents.layout.lengths array place }
        ensures weight { result ≡ value_weight (value_at self.now.contents.layout (first_entry self.now.contents.layout.lengths array + place)) }
        ensures most { result ≤ 16 + most_bytes }
    {
        self.entry_weight((self.first(array) + place) as usize)
    }

    /// What the values at places of an array weigh together. Their slots tell it, and no text is read.
    pub fn weight(&self, array: u32, places: &[u32]) -> u64
        requires array { array < length self.now.contents.layout.lengths }
        requires places { AllByRecursion (λ (p : ℕ). p < slice_index self.now.contents.layout.lengths array) places.now }
        requires few { length places.now ≤ 8192 }
        ensures weight { result ≡ sum_by (λ p. value_weight (value_at self.now.contents.layout (first_entry self.now.contents.layout.lengths array + p))) places.now }
        ensures most { result ≤ 65552 * length places.now }
    {
        let first = self.first(array);
        let mut weight = 0u64;
        for place in places {
            weight += self.entry_weight((first + *place) as usize);
        }
        weight
    }

    /// The statistics: bytes of extents with their prefixes, and how many texts are outside.
    pub fn stats(&self) -> Stats
        ensures stats { result ≡ stats_of self.now.contents.layout }
        ensures sound { IsSoundStore self.now.contents }
    {
        let cursor = self.arena.cursor();
        let live = self.arena.live();
        Stats {
            cursor,
            live,
            dead: cursor - live,
            outside: self.outside.count(),
        }
    }

    /// The sixteen bytes of an entry's slot, with zeros in place of the key of an outside text.
    pub fn image_entry(&self, array: u32, place: u32) -> [u8; 16]
        requires { IsPlace self.now.contents.layout.lengths array place }
        ensures { result ≡ entry_image self.now.contents.layout (first_entry self.now.contents.layout.lengths array + place) }
    {
        self.image_at((self.first(array) + place) as usize)
    }

    /// The slots of all entries, array by array, each as `image_entry` gives it. `Memory` where there is
    /// no memory for them.
    pub fn image_entries(&self, alloc: Global) -> Result<Vec<[u8; 16]>, Memory>
        ensures { IfOk result (λ slots. slots.items ≡ entry_images self.now.contents.layout) }
    {
        let count = self.count();
        let mut slots = Vec::with_capacity(alloc, count)?;
        for entry in 0..count {
            slots.push(self.image_at(entry))?;
        }
        Ok(slots)
    }

    /// How many entries the arrays have together.
    pub fn count(&self) -> usize
        ensures count { result ≡ length self.now.contents.layout.states }
        ensures slots { result ≡ length self.now.contents.slots }
        ensures limit { result ≤ 8192 }
    {
        self.entries.len()
    }

    /// The bytes of the arena, as many as the cursor says, lent from its buffer.
    pub fn image_arena(&self) -> &[u8]
        ensures bytes { result.now ≡ arena_image self.now.contents.layout }
        ensures long { length result.now ≡ (stats_of self.now.contents.layout).cursor }
    {
        self.arena.image()
    }

    /// The number of an array's first entry.
    #[inline]
    pub(crate) fn first(&self, array: u32) -> u32
        requires { array < length self.now.contents.layout.lengths }
        ensures first { result ≡ first_entry self.now.contents.layout.lengths array }
        ensures few { result + slice_index self.now.contents.layout.lengths array ≤ length self.now.contents.slots }
        ensures limit { length self.now.contents.slots ≤ 8192 }
        ensures states { length self.now.contents.layout.states ≡ length self.now.contents.slots }
    {
        self.starts[array as usize]
    }

    /// What the value of the entry of a number weighs, by its slot.
    #[inline]
    fn entry_weight(&self, entry: usize) -> u64
        requires { entry < length self.now.contents.slots }
        ensures weight { result ≡ value_weight (value_at self.now.contents.layout entry) }
        ensures most { result ≤ 16 + most_bytes }
    {
        VALUE_WEIGHT + self.entries[entry].size()
    }

    /// The value of the entry of a number, lent.
    #[inline]
    pub(crate) fn seen(&self, entry: usize) -> Seen<'_>
        requires { entry < length self.now.contents.slots }
        ensures { Shows result (value_at self.now.contents.layout entry) }
    {
        let slot = &self.entries[entry];
        match slot.form() {
            Form::Fresh => Seen::Bytes(slot.inline_bytes()),
            Form::Inline { .. } => Seen::Bytes(slot.inline_bytes()),
            Form::Arena { at, size, .. } => Seen::Bytes(self.arena.text_at(at, size)),
            Form::Outside { key, .. } => match self.outside.get(key) {
                Some(bytes) => Seen::Bytes(bytes),
                None => unreachable!(),
            },
            Form::Missing => Seen::Missing,
        }
    }

    /// The bytes of the arena and the keys that puts of different entries need at most, by the slots of
    /// their entries now.
    fn needs(&self, first: u32, puts: &[(u32, Value)]) -> (u64, u64)
        requires few { length puts.now ≤ 8192 }
        requires entries { AllByRecursion (λ (p : ℕ × Value). first + p.0 < length self.now.contents.slots) puts.now }
        requires limit { length self.now.contents.slots ≤ 8192 }
        ensures bytes { result.0 ≡ bytes_most self.now.contents.slots (puts_from first puts.now) }
        ensures keys { result.1 ≡ keys_most self.now.contents.slots (puts_from first puts.now) }
        ensures few { (result.0 ≤ 2 ^ 40) × (result.1 ≤ 2 ^ 32) }
    {
        let mut bytes = 0u64;
        let mut keys = 0u64;
        for (place, value) in puts {
            let form = self.entries[(first + *place) as usize].form();
            let needs = needs_of(form, value);
            bytes += needs.bytes;
            keys += needs.keys;
        }
        (bytes, keys)
    }

    /// The slot of the entry of a number, with zeros in place of a key.
    fn image_at(&self, entry: usize) -> [u8; 16]
        requires { entry < length self.now.contents.slots }
        ensures { result ≡ entry_image self.now.contents.layout entry }
    {
        without_key(&self.entries[entry]).bytes()
    }

    /// Puts a value into the entry of a number.
    #[inline]
    fn put(&mut self, entry: usize, value: Value)
        requires entry { entry < length self.old.contents.slots }
        requires bytes { cursor_of self.old.contents.layout.extents + bytes_appended (state_at self.old.contents.layout.states entry) (incoming value) ≤ self.old.room.size }
        requires keys { keys_taken self.old.contents.layout.extents (state_at self.old.contents.layout.states entry) (incoming value) ≤ self.old.room.spare }
        ensures layout { self.new.contents.layout ≡ put self.old.contents.layout entry value }
        ensures slots { length self.new.contents.slots ≡ length self.old.contents.slots }
        ensures size { self.new.room.size ≡ self.old.room.size }
        ensures spare { self.old.room.spare ≤ self.new.room.spare + keys_taken self.old.contents.layout.extents (state_at self.old.contents.layout.states entry) (incoming value) }
    {
        step(
            &mut self.arena,
            &mut self.outside,
            &mut self.entries[entry],
            value,
        );
    }
}

/// The entry, with 0 in place of a key.
fn without_key(entry: &Entry) -> Entry
    requires { IsSized entry.now }
    ensures { result ≡ without_key entry.now }
{
    match entry.form() {
        Form::Outside { size, .. } => Entry::outside(0, size),
        Form::Fresh => *entry,
        Form::Inline { .. } => *entry,
        Form::Arena { .. } => *entry,
        Form::Missing => *entry,
    }
}

/// This many fresh entries.
fn fresh_entries(alloc: Global, count: usize) -> Result<Vec<Entry>, Memory>
    ensures { IfOk result (λ v. v.items ≡ replicate count Fresh) }
{
    let mut entries = Vec::with_capacity(alloc, count)?;
    for _ in 0..count {
        entries.push(Entry::fresh())?;
    }
    Ok(entries)
}
