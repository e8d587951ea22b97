ghost use Rattle.std.specs.Prelude.{◌≡◌, ◌==◌, ◌*◌, ◌≤◌, ◌<◌, slice_index_or, IfOk, option_map};
ghost use Rattle.sa_base.specs.Items.{MissingItem};
ghost use Rattle.sa_plain.specs.Items.{count_of, item_weight, items_of, items_weight, values_in};

use crate::rows::Rows;
use sa_base::{Memory, Sequence};
use sa_text::{ValueList, value_weight};
use std::alloc::Global;

/// What an item weighs beside the bytes of its text.
const ITEM_WEIGHT: u64 = 16;

/// A list of numbers.
pub type IntList = Sequence<i64>;

/// A list of flags.
pub type FlagList = Sequence<bool>;

/// A list of bytes.
pub type ByteList = Sequence<u8>;

/// A list of byte texts, each of at most 257 bytes.
pub type ByteLists = Rows<u8>;

/// A list of units: numbers of 32 bits, which need not be Unicode scalar values.
pub type UnitList = Sequence<u32>;

/// A list of unicode texts, each of at most 257 units.
pub type UnitLists = Rows<u32>;

/// Items of one kind: those of an operand, of a result, or of an array.
#[derive(Debug, Drop)]
pub enum Items {
    /// Values of strings arrays: texts, and missing ones.
    Values(ValueList),
    /// Numbers.
    Ints(IntList),
    /// Flags.
    Flags(FlagList),
    /// Byte texts of a fixed width.
    Bytes(ByteLists),
    /// Unicode texts of a fixed width.
    Units(UnitLists),
}

impl Items {
    /// How many items there are.
    #[inline]
    pub fn len(&self) -> usize
        ensures { result ≡ count_of self.now }
    {
        match self {
            Items::Values(values) => values.len(),
            Items::Ints(numbers) => numbers.len(),
            Items::Flags(flags) => flags.len(),
            Items::Bytes(rows) => rows.len(),
            Items::Units(rows) => rows.len(),
        }
    }

    /// Whether there is no item.
    #[inline]
    pub fn is_empty(&self) -> bool
        ensures { result ≡ (count_of self.now == 0) }
    {
        self.len() == 0
    }

    /// The values that the items are, in order; none where they are of another kind.
    #[inline]
    pub fn values(&self) -> Option<&ValueList>
        ensures { option_map (λ l. l.now) result ≡ values_in self.now }
    {
        match self {
            Items::Values(values) => Some(values),
            Items::Ints(_) | Items::Flags(_) | Items::Bytes(_) | Items::Units(_) => None,
        }
    }

    /// The weight of the items: 16 for each, and the bytes of each text, its bytes or four for each unit
    /// where it has a fixed width. An item that stands for many is looked at once.
    pub fn weight(&self) -> u64
        requires { count_of self.now ≤ 8192 }
        ensures weight { result ≡ items_weight self.now }
        ensures most { result ≤ 65552 * count_of self.now }
    {
        match self {
            Items::Values(values) => values.weight(),
            Items::Ints(numbers) => ITEM_WEIGHT * numbers.len() as u64,
            Items::Flags(flags) => ITEM_WEIGHT * flags.len() as u64,
            Items::Bytes(rows) => ITEM_WEIGHT * rows.len() as u64 + rows.count_cells(),
            Items::Units(rows) => ITEM_WEIGHT * rows.len() as u64 + 4 * rows.count_cells(),
        }
    }

    /// The weight of the item at a place: 16, and the bytes of its text.
    pub fn weight_at(&self, k: usize) -> u64
        requires there { k < count_of self.now }
        ensures weight { result ≡ item_weight (slice_index_or (items_of self.now) k MissingItem) }
        ensures most { result ≤ 65552 }
    {
        match self {
            Items::Values(values) => match values.get(k) {
                Some(value) => value_weight(value),
                None => unreachable!(),
            },
            Items::Ints(_numbers) => ITEM_WEIGHT,
            Items::Flags(_flags) => ITEM_WEIGHT,
            Items::Bytes(rows) => ITEM_WEIGHT + rows.len_at(k),
            Items::Units(rows) => ITEM_WEIGHT + 4 * rows.len_at(k),
        }
    }

    /// Lets copies share the items from now on, where they are values. Nothing changes, also after a want
    /// of memory.
    pub fn share(&mut self, alloc: Global) -> Result<(), Memory>
        ensures { self.new ≡ self.old }
    {
        match self {
            Items::Values(values) => values.share(alloc),
            Items::Ints(_) | Items::Flags(_) | Items::Bytes(_) | Items::Units(_) => Ok(()),
        }
    }

    /// The same items once more. Of shared ones it takes no memory; `Memory` then means that there are
    /// too many copies to be counted.
    pub fn copy(&self, alloc: Global) -> Result<Items, Memory>
        ensures { IfOk result (λ items. items ≡ self.now) }
    {
        match self {
            Items::Values(values) => Ok(Items::Values(values.copy(alloc)?)),
            Items::Ints(numbers) => {
                let numbers = IntList::from_slice(alloc, numbers.as_slice())?;
                Ok(Items::Ints(numbers))
            }
            Items::Flags(flags) => {
                let flags = FlagList::from_slice(alloc, flags.as_slice())?;
                Ok(Items::Flags(flags))
            }
            Items::Bytes(rows) => Ok(Items::Bytes(rows.copy(alloc)?)),
            Items::Units(rows) => Ok(Items::Units(rows.copy(alloc)?)),
        }
    }
}

/// A list of lists of items.
pub type ItemsList = Sequence<Items>;
