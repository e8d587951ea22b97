ghost use Rattle.std.specs.Prelude.{◌≡◌, ◌≤◌, ◌+◌, length, zip, IfOk};
ghost use Rattle.sa_text.specs.Values.{stretched};
ghost use Rattle.sa_entry.specs.Slots.{most_outer};
ghost use Rattle.sa_alloc.specs.Layouts.{incoming};
ghost use Rattle.sa_alloc.specs.Needs.{needs_of, outer_needs};

use sa_arena::prefix_len;
use sa_base::Memory;
use sa_entry::Form;
use sa_text::{Value, stretched_at};
use std::alloc::Global;

/// The fewest bytes of a text that does not stand inside its slot.
const LEAST_OUTER: usize = 16;

/// What a put needs at most: bytes of the arena, and keys of texts outside.
#[derive(Clone, Copy, Debug, PartialEq, Eq)]
pub struct Needs {
    pub bytes: u64,
    pub keys: u64,
}

/// What a put of this value needs at most, where its entry has this form.
#[inline]
pub fn needs_of(form: Form, value: &Value) -> Needs
    ensures needs { result ≡ needs_of form (incoming value.now) }
    ensures most { (result.bytes ≤ 8 + most_outer) × (result.keys ≤ 1) }
{
    match value {
        Value::Missing => Needs { bytes: 0, keys: 0 },
        Value::Of(text) => {
            let size = text.size();
            if size < LEAST_OUTER {
                Needs { bytes: 0, keys: 0 }
            } else {
                outer_needs(form, size as u64)
            }
        }
    }
}

/// What a text of this size needs at most, which does not fit into a slot: the bytes of an extent for
/// a fresh entry, and a key where it may go outside.
#[inline]
fn outer_needs(form: Form, size: u64) -> Needs
    requires { size ≤ most_outer }
    ensures needs { result ≡ outer_needs form size }
    ensures most { (result.bytes ≤ 8 + most_outer) × (result.keys ≤ 1) }
{
    match form {
        Form::Fresh => Needs {
            bytes: prefix_len(size) + size,
            keys: 0,
        },
        Form::Outside { .. } => Needs { bytes: 0, keys: 0 },
        Form::Inline { .. } => Needs { bytes: 0, keys: 1 },
        Form::Arena { .. } => Needs { bytes: 0, keys: 1 },
        Form::Missing => Needs { bytes: 0, keys: 1 },
    }
}

/// Copies of values, each beside its place; one value is taken for all places.
pub fn copies(alloc: Global, places: &[u32], values: &[Value]) -> Result<Vec<(u32, Value)>, Memory>
    requires { length (stretched (length places.now) values.now) ≡ length places.now }
    ensures { IfOk result (λ puts. puts.items ≡ zip places.now (stretched (length places.now) values.now)) }
{
    let count = places.len();
    let mut puts = Vec::with_capacity(alloc, count)?;
    for k in 0..count {
        puts.push((places[k], stretched_at(count, values, k).copy(alloc)?))?;
    }
    Ok(puts)
}
