ghost use Rattle.std.specs.Prelude.{◌≡◌, ◌++◌, ◌∷◌, ◌==◌, ◌≤◌, ◌<◌, [], ◌*◌, length, slice_get, slice_index_or, sum_by, IfOk, IfErr, OnOk, OnErr};
ghost use Rattle.std.specs.Option.{option_copied};
ghost use Rattle.sa_plain.specs.Widths.{most_row, AreNarrow};

use sa_base::{Memory, Sequence};
use std::alloc::Global;
use std::marker::Model;

/// A list of lists of at most 257 cells each. Contracts see the lists, in order.
#[derive(Debug, Drop)]
pub struct Rows<T> {
    rows: Vec<Sequence<T>>,
}

impl<T> Model for Rows<T> {
    ghost use Rattle.std.specs.Prelude.{List};

    ghost Value = { List (List T) };

    ghost use Rattle.sa_plain.specs.Widths.{AreNarrow};

    ghost view = { λ r. r.rows.items };

    ghost invariant = { λ r. AreNarrow r.rows.items };
}

impl<T> Rows<T> {
    /// The empty list. It takes no memory.
    pub fn new(alloc: Global) -> Self
        ensures { result ≡ [] }
    {
        Rows {
            rows: Vec::new(alloc),
        }
    }

    /// How many lists there are.
    pub fn len(&self) -> usize
        ensures { result ≡ length self.now }
    {
        self.rows.len()
    }

    /// Whether there is no list.
    pub fn is_empty(&self) -> bool
        ensures { result ≡ (length self.now == 0) }
    {
        self.rows.is_empty()
    }

    /// The list at place `k`, from 0.
    pub fn get(&self, k: usize) -> Option<&Sequence<T>>
        ensures { option_copied result ≡ slice_get self.now k }
    {
        self.rows.get(k)
    }

    /// The lists, in order; each has at most 257 cells.
    pub fn as_slice(&self) -> &[Sequence<T>]
        ensures same { result.now ≡ self.now }
        ensures narrow { AreNarrow self.now }
    {
        self.rows.as_slice()
    }

    /// How many cells the list at a place has.
    pub(crate) fn len_at(&self, k: usize) -> u64
        requires { k < length self.now }
        ensures len { result ≡ length (slice_index_or self.now k []) }
        ensures few { result ≤ most_row }
    {
        self.rows[k].len() as u64
    }

    /// Puts a list at the end. Where there is no memory the lists are as before and the list comes back.
    pub fn push(&mut self, row: Sequence<T>) -> Result<(), (Memory, Sequence<T>)>
        requires { length row ≤ most_row }
        ensures ok { OnOk result (self.new ≡ self.old ++ row ∷ []) }
        ensures err { OnErr result (self.new ≡ self.old) }
        ensures returned { IfErr result (λ e. e.1 ≡ row) }
    {
        self.rows.push(row).map_err(|e| (Memory, e.value))
    }

    /// How many cells the lists have together.
    pub fn count_cells(&self) -> u64
        requires { length self.now ≤ 8192 }
        ensures count { result ≡ sum_by (λ row. length row) self.now }
        ensures most { result ≤ 257 * length self.now }
    {
        let mut count = 0;
        for row in self.rows.as_slice() {
            count += row.len() as u64;
        }
        count
    }

    /// The same lists once more.
    pub fn copy(&self, alloc: Global) -> Result<Self, Memory>
    where
        T: Copy,
        ensures { IfOk result (λ rows. rows ≡ self.now) }
    {
        let mut rows = Vec::with_capacity(alloc, self.rows.len())?;
        for row in self.rows.as_slice() {
            rows.push(Sequence::from_slice(alloc, row.as_slice())?)?;
        }
        Ok(Rows { rows })
    }
}
