ghost use Rattle.std.specs.Prelude.{◌≡◌, ◌≤◌, ◌<◌, ◌-◌, ◌^◌, ◌++◌, ◌∷◌, [], length, take, option_map, IfOk, IfSome, OnOk};
ghost use Rattle.sa_plain.specs.Widths.{most_row};
ghost use Rattle.sa_script.specs.FixedTexts.{behind_word, byte_of, bytes_of, bytes_spelled, hex_value, kept, number_behind, unit_of, units_of, units_spelled};

use crate::view::cut_at;
use sa_base::{Memory, Sequence};
use sa_lines::first;
use sa_plain::{ByteList, UnitList};
use std::alloc::Global;

/// The most cells that are kept of a text: one more than any array is wide.
const MOST_CELLS: usize = 257;

/// The value of a hexadecimal digit of either case.
fn hex_value(byte: u8) -> Option<u8>
    ensures value { result ≡ hex_value byte }
    ensures small { IfSome result (λ v. v ≤ 15) }
{
    match byte {
        b'0'..=b'9' => Some(byte - 48),
        b'a'..=b'f' => Some(byte - 87),
        b'A'..=b'F' => Some(byte - 55),
        _ => None,
    }
}

/// What follows a word at the front.
fn behind_word<'a>(word: &[u8], bytes: &'a [u8]) -> Option<&'a [u8]>
    ensures { option_map (λ r. r.now) result ≡ behind_word word.now bytes.now }
{
    let Some((letter, letters)) = first(word) else {
        return Some(bytes);
    };
    let (byte, rest) = first(bytes)?;
    if byte != letter {
        return None;
    }
    behind_word(letters, rest)
}

/// Puts a cell behind those that are kept, where there are not too many.
fn keep<T: Copy>(cells: &mut Sequence<T>, cell: T) -> Result<(), Memory>
    requires { length cells.old ≤ most_row }
    ensures { OnOk result (cells.new ≡ take most_row (cells.old ++ cell ∷ [])) }
{
    if cells.len() >= MOST_CELLS {
        return Ok(());
    }
    match cells.push(cell) {
        Ok(()) => Ok(()),
        Err((memory, _)) => Err(memory),
    }
}

/// The byte that two digits are.
fn byte_of(a: u8, b: u8) -> Option<u8>
    ensures { result ≡ byte_of a b }
{
    let high = hex_value(a)?;
    let low = hex_value(b)?;
    Some(16 * high + low)
}

/// The bytes that an even number of digits are, as many as are kept.
fn bytes_spelled(alloc: Global, digits: &[u8]) -> Result<Option<ByteList>, Memory>
    ensures { IfOk result (λ r. r ≡ option_map kept (bytes_spelled digits.now)) }
{
    let mut bytes = ByteList::new(alloc);
    let mut rest = digits;
    'digits: while let Some((high, behind)) = first(rest) {
        let Some((low, others)) = first(behind) else {
            return Ok(None);
        };
        let Some(byte) = byte_of(high, low) else {
            return Ok(None);
        };
        keep(&mut bytes, byte)?;
        rest = others;
    }
    Ok(Some(bytes))
}

/// A byte text: the word `hex`, a colon and its bytes.
pub fn bytes_of(alloc: Global, piece: &[u8]) -> Result<Option<ByteList>, Memory>
    ensures { IfOk result (λ r. r ≡ bytes_of piece.now) }
{
    match behind_word(b"hex:", piece) {
        Some(digits) => bytes_spelled(alloc, digits),
        None => Ok(None),
    }
}

/// The number that digits are, behind another.
fn number_behind(value: u32, digits: &[u8]) -> Option<u32>
    requires few { length digits.now ≤ 8 }
    requires small { value < 16 ^ (8 - length digits.now) }
    ensures { result ≡ number_behind value digits.now }
{
    let Some((byte, rest)) = first(digits) else {
        return Some(value);
    };
    let digit = hex_value(byte)?;
    number_behind(16 * value + u32::from(digit), rest)
}

/// A unit: one to eight digits.
fn unit_of(digits: &[u8]) -> Option<u32>
    ensures { result ≡ unit_of digits.now }
{
    if digits.is_empty() || digits.len() > 8 {
        return None;
    }
    number_behind(0, digits)
}

/// Units with a point between two of them, as many as are kept.
fn units_spelled(alloc: Global, bytes: &[u8]) -> Result<Option<UnitList>, Memory>
    ensures { IfOk result (λ r. r ≡ option_map kept (units_spelled bytes.now)) }
{
    let mut units = UnitList::new(alloc);
    let mut rest = if bytes.is_empty() { None } else { Some(bytes) };
    'parts: while let Some(behind) = rest {
        let (part, others) = cut_at(b'.', behind);
        let Some(unit) = unit_of(part) else {
            return Ok(None);
        };
        keep(&mut units, unit)?;
        rest = others;
    }
    Ok(Some(units))
}

/// A unicode text: the word `units`, a colon and its units.
pub fn units_of(alloc: Global, piece: &[u8]) -> Result<Option<UnitList>, Memory>
    ensures { IfOk result (λ r. r ≡ units_of piece.now) }
{
    match behind_word(b"units:", piece) {
        Some(units) => units_spelled(alloc, units),
        None => Ok(None),
    }
}
