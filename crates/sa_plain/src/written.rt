ghost use Rattle.std.specs.Prelude.{◌≡◌, ◌++◌, ◌∷◌, [], replicate, OnOk};
ghost use Rattle.std.specs.List.{flat_map, join_by};
ghost use Rattle.sa_plain.specs.Written.{value_bytes, number_bytes, flag_bytes, unit_bytes, byte_text, unit_text, list_bytes};

use crate::hex::{push_hex, push_unit};
use crate::items::{ByteList, Items, UnitList};
use sa_base::Memory;
use sa_lines::{push_decimal, push_quoted};
use sa_text::{Value, ValueList};

/// What is written of one item of a list, or of one unit of a text.
trait Written {
    ghost use Rattle.std.specs.Prelude.{ℕ, List};

    ghost bytes: { Self → List ℕ };

    /// Writes it at the end.
    fn push_to(&self, out: &mut Vec<u8>) -> Result<(), Memory>
        ensures { OnOk result (out.new.items ≡ out.old.items ++ bytes self.now) };
}

impl Written for Value {
    ghost bytes = { value_bytes };

    fn push_to(&self, out: &mut Vec<u8>) -> Result<(), Memory> {
        match self {
            Value::Missing => Ok(out.extend_from_slice(b"na")?),
            Value::Of(text) => push_quoted(out, text.as_bytes()),
        }
    }
}

impl Written for i64 {
    ghost bytes = { number_bytes };

    fn push_to(&self, out: &mut Vec<u8>) -> Result<(), Memory> {
        if *self < 0 {
            out.push(b'-')?;
        }
        push_decimal(out, self.unsigned_abs())
    }
}

impl Written for bool {
    ghost bytes = { flag_bytes };

    fn push_to(&self, out: &mut Vec<u8>) -> Result<(), Memory> {
        match self {
            true => Ok(out.extend_from_slice(b"true")?),
            false => Ok(out.extend_from_slice(b"false")?),
        }
    }
}

impl Written for ByteList {
    ghost bytes = { byte_text };

    fn push_to(&self, out: &mut Vec<u8>) -> Result<(), Memory> {
        out.extend_from_slice(b"hex:")?;
        push_hex(out, self.as_slice())
    }
}

impl Written for u32 {
    ghost bytes = { unit_bytes };

    fn push_to(&self, out: &mut Vec<u8>) -> Result<(), Memory> {
        push_unit(out, *self)
    }
}

impl Written for UnitList {
    ghost bytes = { unit_text };

    fn push_to(&self, out: &mut Vec<u8>) -> Result<(), Memory> {
        out.extend_from_slice(b"units:")?;
        push_joined(out, self.as_slice(), b'.')
    }
}

/// Writes items with a mark in front of each.
fn push_further<T: Written>(out: &mut Vec<u8>, items: &[T], mark: u8) -> Result<(), Memory>
    ensures { OnOk result (out.new.items ≡ out.old.items ++ flat_map (λ x. (mark ∷ []) ++ T.bytes x) items.now) }
{
    for item in items {
        out.push(mark)?;
        item.push_to(out)?;
    }
    Ok(())
}

/// Writes items with a mark between two of them.
fn push_joined<T: Written>(out: &mut Vec<u8>, items: &[T], mark: u8) -> Result<(), Memory>
    ensures { OnOk result (out.new.items ≡ out.old.items ++ join_by T.bytes (mark ∷ []) items.now) }
{
    match items.split_first() {
        None => Ok(()),
        Some((first, others)) => {
            first.push_to(out)?;
            push_further(out, others, mark)
        }
    }
}

/// Writes one value this often, with a comma in front of each.
fn push_further_times(out: &mut Vec<u8>, value: &Value, count: usize) -> Result<(), Memory>
    ensures { OnOk result (out.new.items ≡ out.old.items ++ flat_map (λ v. 44 ∷ value_bytes v) (replicate count value.now)) }
{
    for _k in 0..count {
        out.push(b',')?;
        value.push_to(out)?;
    }
    Ok(())
}

/// Writes one value this often, with a comma between two of them.
fn push_times(out: &mut Vec<u8>, value: &Value, count: usize) -> Result<(), Memory>
    ensures { OnOk result (out.new.items ≡ out.old.items ++ join_by value_bytes (44 ∷ []) (replicate count value.now)) }
{
    let Some(others) = count.checked_sub(1) else {
        return Ok(());
    };
    value.push_to(out)?;
    push_further_times(out, value, others)
}

/// Writes a list with a comma between two values. One value that stands for many is not looked up anew
/// for each.
fn push_list(out: &mut Vec<u8>, list: &ValueList) -> Result<(), Memory>
    ensures { OnOk result (out.new.items ≡ out.old.items ++ join_by value_bytes (44 ∷ []) list.now) }
{
    match list.as_slice() {
        [only] => push_times(out, only, list.len()),
        values => push_joined(out, values, b','),
    }
}

/// Writes items as a list in brackets at the end.
pub fn push_items(out: &mut Vec<u8>, items: &Items) -> Result<(), Memory>
    ensures { OnOk result (out.new.items ≡ out.old.items ++ list_bytes items.now) }
{
    out.push(b'(')?;
    match items {
        Items::Values(values) => push_list(out, values)?,
        Items::Ints(numbers) => push_joined(out, numbers.as_slice(), b',')?,
        Items::Flags(flags) => push_joined(out, flags.as_slice(), b',')?,
        Items::Bytes(rows) => push_joined(out, rows.as_slice(), b',')?,
        Items::Units(rows) => push_joined(out, rows.as_slice(), b',')?,
    }
    out.push(b')')?;
    Ok(())
}
