ghost use Rattle.std.specs.Prelude.{◌≡◌, ◌++◌, ◌∷◌, ◌==◌, [], length, slice_get, IfOk, IfErr, OnOk, OnErr, MatchOption};
ghost use Rattle.std.specs.Option.{option_copied};

use crate::memory::Memory;
use std::alloc::Global;
use std::marker::Model;

/// A list inside a public value: contracts see its items alone, in order.
#[derive(Debug, Drop)]
pub struct Sequence<T> {
    items: Vec<T>,
}

impl<T> Model for Sequence<T> {
    ghost use Rattle.std.specs.Prelude.{List};

    ghost Value = { List T };

    ghost view = { λ s. s.items.items };
}

impl<T> Sequence<T> {
    /// The empty list. It takes no memory.
    pub fn new(alloc: Global) -> Self
        ensures { result ≡ [] }
    {
        Sequence {
            items: Vec::new(alloc),
        }
    }

    /// How many items there are.
    pub fn len(&self) -> usize
        ensures { result ≡ length self.now }
    {
        self.items.len()
    }

    /// Whether there is no item.
    pub fn is_empty(&self) -> bool
        ensures { result ≡ (length self.now == 0) }
    {
        self.items.is_empty()
    }

    /// The item at place `k`, from 0.
    pub fn get(&self, k: usize) -> Option<&T>
        ensures { option_copied result ≡ slice_get self.now k }
    {
        self.items.get(k)
    }

    /// The items, in order.
    pub fn as_slice(&self) -> &[T]
        ensures { result.now ≡ self.now }
    {
        self.items.as_slice()
    }

    /// Puts an item at the end. Where there is no memory the list is as before and the item comes
    /// back.
    pub fn push(&mut self, item: T) -> Result<(), (Memory, T)>
        ensures ok { OnOk result (self.new ≡ self.old ++ item ∷ []) }
        ensures err { OnErr result (self.new ≡ self.old) }
        ensures returned { IfErr result (λ e. e.1 ≡ item) }
    {
        self.items.push(item).map_err(|e| (Memory, e.value))
    }

    /// Takes the last item away; none of the empty list.
    pub fn pop(&mut self) -> Option<T>
        ensures { MatchOption result ((self.old ≡ []) × (self.new ≡ [])) (λ item. self.old ≡ self.new ++ item ∷ []) }
    {
        self.items.pop()
    }

    /// These items, in order. It takes no memory.
    pub fn from_vec(items: Vec<T>) -> Self
        ensures { result ≡ items.items }
    {
        Sequence { items }
    }

    /// Copies of these items, in order.
    pub fn from_slice(alloc: Global, items: &[T]) -> Result<Self, Memory>
    where
        T: Copy,
        ensures { IfOk result (λ s. s ≡ items.now) }
    {
        Ok(Sequence {
            items: Vec::from_slice(alloc, items)?,
        })
    }

    /// The items, in order, as a vector. It takes no memory.
    pub fn into_vec(self) -> Vec<T>
        ensures { result.items ≡ self }
    {
        self.items
    }
}
