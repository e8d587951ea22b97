ghost use Rattle.std.specs.Prelude.{◌≡◌, ◌+◌, ◌-◌, ◌≤◌, ◌<◌, ◌++◌, All, length, map, replicate, take, drop, slice_index_or, IfOk};

use sa_base::{Memory, Sequence};
use std::alloc::Global;

/// Writes a value into each cell.
fn fill<T: Copy>(cells: &mut [T], value: T)
    ensures { cells.new ≡ replicate (length cells.old) value }
{
    for k in 0..cells.len() {
        cells[k] = value;
    }
}

/// Writes a value into each cell from a place on.
fn fill_behind<T: Copy>(cells: &mut [T], from: usize, value: T)
    requires { from ≤ length cells.old }
    ensures { cells.new ≡ take from cells.old ++ replicate (length cells.old - from) value }
{
    fill(&mut cells[from..], value);
}

/// Writes cells at the front.
fn write_front<T: Copy>(cells: &mut [T], new: &[T])
    requires { length new.now ≤ length cells.old }
    ensures { cells.new ≡ new.now ++ drop (length new.now) cells.old }
{
    cells[..new.len()].copy_from_slice(new);
}

/// Writes a row, and zeros behind it.
fn write_row<T: Copy>(cells: &mut [T], row: &[T], zero: T)
    requires { length row.now ≤ length cells.old }
    ensures { cells.new ≡ row.now ++ replicate (length cells.old - length row.now) zero }
{
    write_front(cells, row);
    fill_behind(cells, row.len(), zero);
}

/// Writes a row of a width from a place on, with zeros up to the width.
pub fn write_at<T: Copy>(cells: &mut [T], at: usize, width: usize, row: &[T], zero: T)
    requires within { at + width ≤ length cells.old }
    requires fits { length row.now ≤ width }
    ensures { cells.new ≡ take at cells.old ++ ((row.now ++ replicate (width - length row.now) zero) ++ drop (at + width) cells.old) }
{
    write_row(&mut cells[at..at + width], row, zero);
}

/// As many cells as a width, from a place on.
pub fn row_at<T>(cells: &[T], at: usize, width: usize) -> &[T]
    requires { at + width ≤ length cells.now }
    ensures { result.now ≡ take width (drop at cells.now) }
{
    &cells[at..at + width]
}

/// The cells at places, in order.
pub fn cells_at<T: Copy>(alloc: Global, cells: &[T], places: &[u32]) -> Result<Sequence<T>, Memory>
    requires { All (λ k. k < length cells.now) places.now }
    ensures { IfOk result (λ l. (d : T) → l ≡ map (λ k. slice_index_or cells.now k d) places.now) }
{
    let mut found = Vec::with_capacity(alloc, places.len())?;
    for place in places {
        found.push(cells[*place as usize])?;
    }
    Ok(Sequence::from_vec(found))
}
