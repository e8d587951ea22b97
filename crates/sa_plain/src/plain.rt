ghost use Rattle.std.specs.Prelude.{◌≡◌, ◌≤◌, ◌<◌, All, length, true, IfOk};
ghost use Rattle.sa_base.specs.Items.{IntegerItem, FlagItem, BytesItem, UnitsItem};
ghost use Rattle.sa_plain.specs.Cells.{plain_in};
ghost use Rattle.sa_plain.specs.Items.{items_of};
ghost use Rattle.sa_plain.specs.Plains.{HasWidth, width_of, most_cells, holds_ints, holds_flags, holds_bytes, holds_units, opening_plain, item_at, items_at, put_item, FitKind};

use crate::cells::cells_at;
use crate::grid::Grid;
use crate::items::Items;
use crate::kind::PlainKind;
use sa_base::Memory;
use std::alloc::Global;
use std::marker::Model;

/// Where the items of an array stand.
#[derive(Debug, Drop)]
pub(crate) enum Cells {
    Ints(Vec<i64>),
    Flags(Vec<bool>),
    Bytes(Grid<u8>),
    Units(Grid<u32>),
}

/// A plain array: at most 8,192 items of one kind, which take their room once. Contracts see the kind and
/// the items.
#[derive(Debug, Drop)]
pub struct Plain {
    cells: Cells,
}

impl Model for Plain {
    ghost use Rattle.sa_plain.specs.Plains.{PlainValue, IsPlain};

    ghost Value = { PlainValue };

    ghost use Rattle.sa_plain.specs.Cells.{plain_in};

    ghost view = { λ p. plain_in p.cells };

    ghost invariant = { λ p. IsPlain (plain_in p.cells) };
}

impl Plain {
    /// A new array: numbers 0, flags false, and texts of zero bytes or units.
    pub fn new(alloc: Global, kind: PlainKind, len: u32) -> Result<Plain, Memory>
        requires width { HasWidth kind }
        requires few { len ≤ most_cells }
        ensures { IfOk result (λ p. p ≡ opening_plain kind len) }
    {
        let cells = opening_cells(alloc, kind, len as usize)?;
        Ok(Plain { cells })
    }

    /// The kind of the array.
    pub fn kind(&self) -> PlainKind
        ensures kind { result ≡ self.now.kind }
        ensures width { HasWidth result }
    {
        match &self.cells {
            Cells::Ints(_) => PlainKind::Int,
            Cells::Flags(_) => PlainKind::Bool,
            Cells::Bytes(grid) => PlainKind::Bytes(grid.width()),
            Cells::Units(grid) => PlainKind::Fixed(grid.width()),
        }
    }

    /// How many items there are.
    pub fn len(&self) -> u32
        ensures len { result ≡ length self.now.items }
        ensures few { result ≤ most_cells }
    {
        let len = match &self.cells {
            Cells::Ints(cells) => cells.len(),
            Cells::Flags(cells) => cells.len(),
            Cells::Bytes(grid) => grid.len(),
            Cells::Units(grid) => grid.len(),
        };
        len as u32
    }

    /// The items at places, in order, each text as wide as the array's.
    pub fn items_at(&self, alloc: Global, places: &[u32]) -> Result<Items, Memory>
        requires { All (λ k. k < length self.now.items) places.now }
        ensures items { IfOk result (λ items. items_of items ≡ items_at self.now places.now) }
        ensures kind { IfOk result (λ items. FitKind self.now.kind items) }
    {
        match &self.cells {
            Cells::Ints(cells) => Ok(Items::Ints(cells_at(alloc, cells.as_slice(), places)?)),
            Cells::Flags(cells) => Ok(Items::Flags(cells_at(alloc, cells.as_slice(), places)?)),
            Cells::Bytes(grid) => Ok(Items::Bytes(grid.rows_at(alloc, places)?)),
            Cells::Units(grid) => Ok(Items::Units(grid.rows_at(alloc, places)?)),
        }
    }

    /// The integer at a place.
    pub fn get_int(&self, k: u32) -> i64
        requires kind { holds_ints self.now.kind ≡ true }
        requires there { k < length self.now.items }
        ensures { IntegerItem result ≡ item_at self.now k }
    {
        match &self.cells {
            Cells::Ints(cells) => cells[k as usize],
            _ => unreachable!(),
        }
    }

    /// The flag at a place.
    pub fn get_flag(&self, k: u32) -> bool
        requires kind { holds_flags self.now.kind ≡ true }
        requires there { k < length self.now.items }
        ensures { FlagItem result ≡ item_at self.now k }
    {
        match &self.cells {
            Cells::Flags(cells) => cells[k as usize],
            _ => unreachable!(),
        }
    }

    /// The bytes at a place, as many as the width.
    pub fn get_bytes(&self, k: u32) -> &[u8]
        requires kind { holds_bytes self.now.kind ≡ true }
        requires there { k < length self.now.items }
        ensures value { BytesItem result.now ≡ item_at self.now k }
        ensures width { length result.now ≡ width_of self.now.kind }
    {
        match &self.cells {
            Cells::Bytes(grid) => grid.row(k as usize),
            _ => unreachable!(),
        }
    }

    /// The units at a place, as many as the width.
    pub fn get_units(&self, k: u32) -> &[u32]
        requires kind { holds_units self.now.kind ≡ true }
        requires there { k < length self.now.items }
        ensures value { UnitsItem result.now ≡ item_at self.now k }
        ensures width { length result.now ≡ width_of self.now.kind }
    {
        match &self.cells {
            Cells::Units(grid) => grid.row(k as usize),
            _ => unreachable!(),
        }
    }

    /// Puts an integer at a place.
    pub fn put_int(&mut self, k: u32, to: i64)
        requires kind { holds_ints self.old.kind ≡ true }
        requires there { k < length self.old.items }
        ensures { self.new ≡ put_item self.old k (IntegerItem to) }
    {
        match &mut self.cells {
            Cells::Ints(cells) => cells[k as usize] = to,
            _ => unreachable!(),
        }
    }

    /// Puts a flag at a place.
    pub fn put_flag(&mut self, k: u32, to: bool)
        requires kind { holds_flags self.old.kind ≡ true }
        requires there { k < length self.old.items }
        ensures { self.new ≡ put_item self.old k (FlagItem to) }
    {
        match &mut self.cells {
            Cells::Flags(cells) => cells[k as usize] = to,
            _ => unreachable!(),
        }
    }

    /// Puts bytes at a place, with zeros behind them where they are fewer than the width. It takes no
    /// memory.
    pub fn put_bytes(&mut self, k: u32, to: &[u8])
        requires kind { holds_bytes self.old.kind ≡ true }
        requires there { k < length self.old.items }
        requires fits { length to.now ≤ width_of self.old.kind }
        ensures { self.new ≡ put_item self.old k (BytesItem to.now) }
    {
        match &mut self.cells {
            Cells::Bytes(grid) => grid.put(k as usize, to, 0),
            _ => unreachable!(),
        }
    }

    /// Puts units at a place, with zeros behind them where they are fewer than the width. It takes no
    /// memory.
    pub fn put_units(&mut self, k: u32, to: &[u32])
        requires kind { holds_units self.old.kind ≡ true }
        requires there { k < length self.old.items }
        requires fits { length to.now ≤ width_of self.old.kind }
        ensures { self.new ≡ put_item self.old k (UnitsItem to.now) }
    {
        match &mut self.cells {
            Cells::Units(grid) => grid.put(k as usize, to, 0),
            _ => unreachable!(),
        }
    }
}

/// The cells of a new array.
fn opening_cells(alloc: Global, kind: PlainKind, count: usize) -> Result<Cells, Memory>
    requires width { HasWidth kind }
    requires few { count ≤ most_cells }
    ensures { IfOk result (λ cells. plain_in cells ≡ opening_plain kind count) }
{
    match kind {
        PlainKind::Int => Ok(Cells::Ints(vec![in alloc; 0; count]?)),
        PlainKind::Bool => Ok(Cells::Flags(vec![in alloc; false; count]?)),
        PlainKind::Bytes(width) => {
            let cells = vec![in alloc; 0; count * width as usize]?;
            Ok(Cells::Bytes(Grid::from_cells(width, count, cells)))
        }
        PlainKind::Fixed(width) => {
            let cells = vec![in alloc; 0; count * width as usize]?;
            Ok(Cells::Units(Grid::from_cells(width, count, cells)))
        }
    }
}
