ghost use Rattle.std.specs.Prelude.{◌≡◌, ◌++◌, ◌∷◌, ◌==◌, ◌*◌, ◌≤◌, [], length, slice_get, IfOk, IfErr, OnOk, OnErr};
ghost use Rattle.std.specs.Option.{option_copied};
ghost use Rattle.sa_text.specs.Values.{stretched, weight_of};
ghost use Rattle.sa_text.specs.Lists.{IsWeight};

use crate::stretched::{stretched_at, stretched_len};
use crate::value::Value;
use crate::weight::{value_weight, values_weight};
use sa_base::Memory;
use std::alloc::Global;
use std::marker::Model;
use std::mem;
use std::sync::Arc;

/// The most values whose weight is kept.
const MOST_WEIGHED: usize = 8192;

/// Where the values of a list stand: in a vector of the list's own, or in one that copies share, whose
/// weight is kept where they are few. Of a shared vector with one value the list may have this value many
/// times.
#[derive(Debug, Drop)]
pub(crate) enum Held {
    Own(Vec<Value>),
    Shared {
        count: usize,
        weight: Option<u64>,
        values: Arc<Vec<Value>>,
    },
}

/// A list of values. Once it is shared its copies take no memory, and one value that stands for many is
/// kept once. Contracts see its values, in order.
#[derive(Debug, Drop)]
pub struct ValueList {
    held: Held,
}

impl Model for ValueList {
    ghost use Rattle.std.specs.Prelude.{List};
    ghost use Rattle.sa_text.specs.declared.value.Value.{Value as OneValue};

    ghost Value = { List OneValue };

    ghost use Rattle.sa_text.specs.Lists.{values_held, IsWeighed};

    ghost view = { λ l. values_held l.held };

    ghost invariant = { λ l. IsWeighed l.held };
}

impl ValueList {
    /// The empty list. It takes no memory.
    #[inline]
    pub fn new(alloc: Global) -> ValueList
        ensures { result ≡ [] }
    {
        ValueList::from_vec(Vec::new(alloc))
    }

    /// These values, in order. It takes no memory.
    #[inline]
    pub fn from_vec(values: Vec<Value>) -> ValueList
        ensures { result ≡ values.items }
    {
        ValueList {
            held: Held::Own(values),
        }
    }

    /// How many values there are.
    #[inline]
    pub fn len(&self) -> usize
        ensures { result ≡ length self.now }
    {
        let (count, values) = self.count_and_values();
        stretched_len(count, values)
    }

    /// Whether there is no value.
    #[inline]
    pub fn is_empty(&self) -> bool
        ensures { result ≡ (length self.now == 0) }
    {
        self.len() == 0
    }

    /// The value at place `k`, from 0.
    #[inline]
    pub fn get(&self, k: usize) -> Option<&Value>
        ensures { option_copied result ≡ slice_get self.now k }
    {
        let (count, values) = self.count_and_values();
        if k < stretched_len(count, values) {
            Some(stretched_at(count, values, k))
        } else {
            None
        }
    }

    /// The values, in order, lent; one alone stands for as many as the list has.
    #[inline]
    pub fn as_slice(&self) -> &[Value]
        ensures { self.now ≡ stretched (length self.now) result.now }
    {
        self.count_and_values().1
    }

    /// Puts a value at the end. Where there is no memory the list is as before and the value comes back.
    /// A list whose values are shared is first copied.
    #[inline(always)]
    pub fn push(&mut self, value: Value) -> Result<(), (Memory, Value)>
        ensures ok { OnOk result (self.new ≡ self.old ++ value ∷ []) }
        ensures err { OnErr result (self.new ≡ self.old) }
        ensures returned { IfErr result (λ e. e.1 ≡ value) }
    {
        if let Held::Own(values) = &mut self.held {
            return values.push(value).map_err(|e| (Memory, e.value));
        }
        self.push_behind_copies(value)
    }

    /// Copies the values, with one more behind them. Where there is no memory the list is as before and
    /// the value comes back.
    fn push_behind_copies(&mut self, value: Value) -> Result<(), (Memory, Value)>
        ensures ok { OnOk result (self.new ≡ self.old ++ value ∷ []) }
        ensures err { OnErr result (self.new ≡ self.old) }
        ensures returned { IfErr result (λ e. e.1 ≡ value) }
    {
        let copied = match &self.held {
            Held::Own(values) => {
                copies_with_room(*values.allocator(), values.len(), values.as_slice())
            }
            Held::Shared { count, values, .. } => {
                copies_with_room(*values.allocator(), *count, values.as_slice())
            }
        };
        let Ok(mut values) = copied else {
            return Err((Memory, value));
        };
        if let Err(e) = values.push(value) {
            return Err((Memory, e.value));
        }
        self.held = Held::Own(values);
        Ok(())
    }

    /// Lets copies share the values from now on, and weighs them where they are at most 8,192. Nothing
    /// changes, also after a want of memory.
    pub fn share(&mut self, alloc: Global) -> Result<(), Memory>
        ensures { self.new ≡ self.old }
    {
        let Held::Own(values) = &mut self.held else {
            return Ok(());
        };
        if values.is_empty() {
            return Ok(());
        }
        let count = values.len();
        let weight = few_weight(count, values.as_slice());
        match Arc::new(alloc, mem::replace(values, Vec::new(alloc))) {
            Ok(values) => {
                self.held = Held::Shared {
                    count,
                    weight,
                    values,
                };
                Ok(())
            }
            Err(e) => {
                self.held = Held::Own(e.value);
                Err(Memory)
            }
        }
    }

    /// The same list once more. Of a shared list it takes no memory; `Memory` then means that there are
    /// too many copies to be counted.
    pub fn copy(&self, alloc: Global) -> Result<ValueList, Memory>
        ensures { IfOk result (λ l. l ≡ self.now) }
    {
        let held = match &self.held {
            Held::Own(values) => Held::Own(copies(alloc, values.as_slice())?),
            Held::Shared {
                count,
                weight,
                values,
            } => Held::Shared {
                count: *count,
                weight: *weight,
                values: Arc::try_clone(values)?,
            },
        };
        Ok(ValueList { held })
    }

    /// The list stretched to a count: a list of one value has this value as often, and each other list is
    /// the same. Of a shared list it takes no memory.
    pub fn stretched(&self, alloc: Global, count: usize) -> Result<ValueList, Memory>
        ensures { IfOk result (λ l. l ≡ stretched count self.now) }
    {
        if self.len() != 1 {
            return self.copy(alloc);
        }
        let values = match &self.held {
            Held::Own(values) => Arc::new(alloc, copies(alloc, values.as_slice())?)?,
            Held::Shared { values, .. } => Arc::try_clone(values)?,
        };
        let weight = few_weight(count, values.as_slice());
        Ok(ValueList {
            held: Held::Shared {
                count,
                weight,
                values,
            },
        })
    }

    /// The weight of the values: 16 for each, and the bytes of each text. Of a shared list it is known, and
    /// a value that stands for many is looked at once.
    pub fn weight(&self) -> u64
        requires { length self.now ≤ 8192 }
        ensures weight { result ≡ weight_of self.now }
        ensures most { result ≤ 65552 * length self.now }
    {
        match &self.held {
            Held::Shared {
                weight: Some(weight),
                ..
            } => *weight,
            _ => {
                let (count, values) = self.count_and_values();
                stretched_weight(count, values)
            }
        }
    }

    /// How often a value that is alone stands in the list, and the values.
    #[inline]
    fn count_and_values(&self) -> (usize, &[Value])
        ensures { self.now ≡ stretched result.0 result.1.now }
    {
        match &self.held {
            Held::Own(values) => (values.len(), values.as_slice()),
            Held::Shared { count, values, .. } => (*count, values.as_slice()),
        }
    }
}

/// What values weigh that are stretched to a count. One value that stands for many is looked at once.
fn stretched_weight(count: usize, values: &[Value]) -> u64
    requires { length (stretched count values.now) ≤ 8192 }
    ensures weight { result ≡ weight_of (stretched count values.now) }
    ensures most { result ≤ 65552 * length (stretched count values.now) }
{
    match values {
        [only] => count as u64 * value_weight(only),
        _ => values_weight(values),
    }
}

/// What values weigh that are stretched to a count, where they are at most 8,192.
fn few_weight(count: usize, values: &[Value]) -> Option<u64>
    ensures { IsWeight result (stretched count values.now) }
{
    if stretched_len(count, values) > MOST_WEIGHED {
        return None;
    }
    Some(stretched_weight(count, values))
}

/// A copy of each value, in order.
fn copies(alloc: Global, values: &[Value]) -> Result<Vec<Value>, Memory>
    ensures { IfOk result (λ v. v.items ≡ values.now) }
{
    let mut copies = Vec::with_capacity(alloc, values.len())?;
    for value in values {
        copies.push(value.copy(alloc)?)?;
    }
    Ok(copies)
}

/// A copy of each value of a list that is stretched to a count, in order, with room for one more.
fn copies_with_room(alloc: Global, count: usize, values: &[Value]) -> Result<Vec<Value>, Memory>
    ensures { IfOk result (λ v. v.items ≡ stretched count values.now) }
{
    let len = stretched_len(count, values);
    let mut copies = Vec::with_capacity(alloc, len.saturating_add(1))?;
    for k in 0..len {
        copies.push(stretched_at(count, values, k).copy(alloc)?)?;
    }
    Ok(copies)
}
