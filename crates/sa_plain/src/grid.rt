ghost use Rattle.std.specs.Prelude.{◌≡◌, ◌*◌, ◌-◌, ◌≤◌, ◌<◌, ◌++◌, All, [], length, map, replicate, slice_index_or, slice_set, IfOk};
ghost use Rattle.sa_plain.specs.Grids.{rows};
ghost use Rattle.sa_plain.specs.Widths.{most_width};

use crate::cells::{row_at, write_at};
use crate::rows::Rows;
use sa_base::{Memory, Sequence};
use std::alloc::Global;
use std::marker::Model;

/// Rows of one width, one behind another in one vector, so that a put takes no memory. Contracts see the
/// width and the rows.
#[derive(Debug, Drop)]
pub(crate) struct Grid<T> {
    width: u16,
    count: usize,
    cells: Vec<T>,
}

impl<T> Model for Grid<T> {
    ghost use Rattle.std.specs.Prelude.{◌≡◌, ◌*◌, ℕ, List, length};
    ghost use Rattle.sa_plain.specs.Grids.{rows};

    ghost Value = { ℕ × List (List T) };

    ghost view = { λ g. (g.width, rows g.count g.width g.cells.items) };

    ghost invariant = { λ g. length g.cells.items ≡ g.count * g.width };
}

impl<T> Grid<T> {
    /// So many rows of a width, made of their cells. It takes no memory.
    pub fn from_cells(width: u16, count: usize, cells: Vec<T>) -> Self
        requires { length cells.items ≡ count * width }
        ensures width { result.0 ≡ width }
        ensures rows { result.1 ≡ rows count width cells.items }
    {
        Grid {
            width,
            count,
            cells,
        }
    }

    /// The width of each row.
    pub fn width(&self) -> u16
        ensures { result ≡ self.now.0 }
    {
        self.width
    }

    /// How many rows there are.
    pub fn len(&self) -> usize
        ensures { result ≡ length self.now.1 }
    {
        self.count
    }

    /// The row at a place.
    pub fn row(&self, k: usize) -> &[T]
        requires { k < length self.now.1 }
        ensures value { result.now ≡ slice_index_or self.now.1 k [] }
        ensures width { length result.now ≡ self.now.0 }
    {
        let width = self.width as usize;
        row_at(&self.cells, k * width, width)
    }

    /// Puts a row at a place, with zeros behind it where it is shorter. It takes no memory.
    pub fn put(&mut self, k: usize, row: &[T], zero: T)
    where
        T: Copy,
        requires there { k < length self.old.1 }
        requires fits { length row.now ≤ self.old.0 }
        ensures width { self.new.0 ≡ self.old.0 }
        ensures rows { self.new.1 ≡ slice_set self.old.1 k (row.now ++ replicate (self.old.0 - length row.now) zero) }
    {
        let width = self.width as usize;
        write_at(&mut self.cells, k * width, width, row, zero);
    }

    /// The rows at places, in order.
    pub fn rows_at(&self, alloc: Global, places: &[u32]) -> Result<Rows<T>, Memory>
    where
        T: Copy,
        requires narrow { self.now.0 ≤ most_width }
        requires below { All (λ k. k < length self.now.1) places.now }
        ensures value { IfOk result (λ l. l ≡ map (λ k. slice_index_or self.now.1 k []) places.now) }
        ensures width { IfOk result (λ l. All (λ row. length row ≤ self.now.0) l) }
    {
        let mut found = Rows::new(alloc);
        for place in places {
            let row = Sequence::from_slice(alloc, self.row(*place as usize))?;
            found.push(row).map_err(|e| e.0)?;
        }
        Ok(found)
    }
}
