ghost use Rattle.std.specs.Prelude.{◌≡◌, ◌≤◌, length, map, replicate, IfOk};
ghost use Rattle.sa_plain.specs.Spreads.{filled, spread, spread_list, widened};
ghost use Rattle.sa_plain.specs.Widths.{most_row, most_width};

use crate::items::Items;
use crate::rows::Rows;
use sa_base::{Memory, Sequence};
use std::alloc::Global;

impl Items {
    /// The items stretched to a count: one item alone as often, and each other list the same.
    pub fn stretched(&self, alloc: Global, count: usize) -> Result<Items, Memory>
        ensures { IfOk result (λ items. items ≡ spread count self.now) }
    {
        match self {
            Items::Values(values) => Ok(Items::Values(values.stretched(alloc, count)?)),
            Items::Ints(numbers) => Ok(Items::Ints(spread(alloc, numbers.as_slice(), count)?)),
            Items::Flags(flags) => Ok(Items::Flags(spread(alloc, flags.as_slice(), count)?)),
            Items::Bytes(rows) => Ok(Items::Bytes(rows.stretched(alloc, count)?)),
            Items::Units(rows) => Ok(Items::Units(rows.stretched(alloc, count)?)),
        }
    }

    /// The items, each text of a fixed width with zeros behind it up to a width.
    pub fn widened(self, alloc: Global, width: u16) -> Result<Items, Memory>
        requires { width ≤ most_width }
        ensures { IfOk result (λ items. items ≡ widened width self) }
    {
        match self {
            Items::Bytes(rows) => Ok(Items::Bytes(rows.widened(alloc, width as usize, 0)?)),
            Items::Units(rows) => Ok(Items::Units(rows.widened(alloc, width as usize, 0)?)),
            other => Ok(other),
        }
    }
}

/// A list of one item stretched to a count; each other list is the same.
fn spread<T: Copy>(alloc: Global, items: &[T], count: usize) -> Result<Sequence<T>, Memory>
    ensures { IfOk result (λ l. l ≡ spread_list count items.now) }
{
    match items {
        [only] => copies(alloc, *only, count),
        _ => Sequence::from_slice(alloc, items),
    }
}

/// So many times an item.
fn copies<T: Copy>(alloc: Global, item: T, count: usize) -> Result<Sequence<T>, Memory>
    ensures { IfOk result (λ l. l ≡ replicate count item) }
{
    let mut items = Vec::with_capacity(alloc, count)?;
    for _k in 0..count {
        items.push(item)?;
    }
    Ok(Sequence::from_vec(items))
}

/// A list with an item behind it as often as it is shorter than a width.
fn filled<T: Copy>(alloc: Global, list: &[T], width: usize, item: T) -> Result<Sequence<T>, Memory>
    ensures { IfOk result (λ l. l ≡ filled width item list.now) }
{
    let mut cells = Vec::with_capacity(alloc, width)?;
    cells.extend_from_slice(list)?;
    for _k in 0..width.saturating_sub(list.len()) {
        cells.push(item)?;
    }
    Ok(Sequence::from_vec(cells))
}

impl<T: Copy> Rows<T> {
    /// A list of one list stretched to a count; each other is the same.
    fn stretched(&self, alloc: Global, count: usize) -> Result<Rows<T>, Memory>
        ensures { IfOk result (λ rows. rows ≡ spread_list count self.now) }
    {
        match self.as_slice() {
            [only] => Rows::repeated(alloc, only, count),
            _ => self.copy(alloc),
        }
    }

    /// So many times a list.
    fn repeated(alloc: Global, row: &Sequence<T>, count: usize) -> Result<Rows<T>, Memory>
        requires { length row.now ≤ most_row }
        ensures { IfOk result (λ rows. rows ≡ replicate count row.now) }
    {
        let mut rows = Rows::new(alloc);
        for _k in 0..count {
            let copy = Sequence::from_slice(alloc, row.as_slice())?;
            rows.push(copy).map_err(|e| e.0)?;
        }
        Ok(rows)
    }

    /// The lists, each with an item behind it as often as it is shorter than a width.
    fn widened(&self, alloc: Global, width: usize, item: T) -> Result<Rows<T>, Memory>
        requires { width ≤ most_width }
        ensures { IfOk result (λ rows. rows ≡ map (filled width item) self.now) }
    {
        let mut wide = Rows::new(alloc);
        for row in self.as_slice() {
            let row = filled(alloc, row.as_slice(), width, item)?;
            wide.push(row).map_err(|e| e.0)?;
        }
        Ok(wide)
    }
}
