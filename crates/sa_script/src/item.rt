ghost use Rattle.std.specs.Prelude.{◌≡◌, ◌≤◌, Option, option_map, IfOk, IfSome, length, position, take};
ghost use Rattle.sa_text.specs.Texts.{text_of};
ghost use Rattle.sa_script.specs.Items.{bytes_at, fitting, flag_at, flag_of, is_mark, item_at, missing_at, number_at, of_text, piece_size, text_at, text_token, units_at};

use crate::fixed_text::{bytes_of, units_of};
use sa_base::Memory;
use sa_lines::{first, is_word, number_of, plain_at, quoted_at};
use sa_plain::{ByteList, UnitList};
use sa_text::{Text, TextError, Value};
use std::alloc::Global;

/// An item of a literal list.
pub trait Item: Drop {
    ghost use Rattle.std.specs.Prelude.{ℕ, List, Option};

    /// How an item is spelled at the front, none inside where it passes a limit; and what follows it.
    ghost at: { List ℕ → Option (Option Self × List ℕ) };

    /// Reads an item at the front, none inside where it passes a limit, and what follows it.
    fn read<'a>(
        alloc: Global,
        scratch: &mut Vec<u8>,
        bytes: &'a [u8],
    ) -> Result<Option<(Option<Self>, &'a [u8])>, Memory>
        ensures { IfOk result (λ r. option_map (λ x. (x.0, x.1.now)) r ≡ at bytes.now) };
}

/// The text that the first `size` bytes are; none inside where they are too many, and none where they
/// are no UTF-8.
#[inline(always)]
fn fitting(alloc: Global, bytes: &[u8], size: usize) -> Result<Option<Option<Text>>, Memory>
    requires { size ≤ length bytes.now }
    ensures { IfOk result (λ r. r ≡ fitting (text_of (take size bytes.now))) }
{
    match Text::of_front(alloc, bytes, size) {
        Ok(text) => Ok(Some(Some(text))),
        Err(TextError::TooLong) => Ok(Some(None)),
        Err(TextError::NotUtf8) => Ok(None),
        Err(TextError::Memory) => Err(Memory),
    }
}

/// Reads a quoted text at the front, none inside where it is too long, and what follows it. A text
/// without escapes is read where it stands.
#[inline(always)]
fn text_at<'a>(
    alloc: Global,
    scratch: &mut Vec<u8>,
    bytes: &'a [u8],
) -> Result<Option<(Option<Text>, &'a [u8])>, Memory>
    ensures { IfOk result (λ r. option_map (λ x. (x.0, x.1.now)) r ≡ text_at bytes.now) }
{
    if let Some((text, size, rest)) = plain_at(bytes) {
        return match fitting(alloc, text, size)? {
            Some(text) => Ok(Some((text, rest))),
            None => Ok(None),
        };
    }
    let Some(rest) = quoted_at(scratch, bytes)? else {
        return Ok(None);
    };
    match fitting(alloc, scratch.as_slice(), scratch.len())? {
        Some(text) => Ok(Some((text, rest))),
        None => Ok(None),
    }
}

/// Reads a token that is a quoted text, none inside where it is too long.
pub fn text_token(
    alloc: Global,
    scratch: &mut Vec<u8>,
    token: &[u8],
) -> Result<Option<Option<Text>>, Memory>
    ensures { IfOk result (λ r. r ≡ text_token token.now) }
{
    match text_at(alloc, scratch, token)? {
        Some((text, [])) => Ok(Some(text)),
        _ => Ok(None),
    }
}

/// The word `na`, of which the first letter was read, and what follows it.
#[inline(always)]
fn missing_at(bytes: &[u8]) -> Option<(Option<Value>, &[u8])>
    ensures { option_map (λ x. (x.0, x.1.now)) result ≡ missing_at bytes.now }
{
    let (byte, rest) = first(bytes)?;
    if byte != b'a' {
        return None;
    }
    Some((Some(Value::Missing), rest))
}

/// The value that a text is.
#[inline(always)]
fn of_text(text: Option<Text>) -> Option<Value>
    ensures { result ≡ of_text text }
{
    match text {
        Some(text) => Some(Value::Of(text)),
        None => None,
    }
}

impl Item for Value {
    ghost at = { item_at };

    /// A text, or `na`.
    #[inline(always)]
    fn read<'a>(
        alloc: Global,
        scratch: &mut Vec<u8>,
        bytes: &'a [u8],
    ) -> Result<Option<(Option<Value>, &'a [u8])>, Memory> {
        let Some((byte, rest)) = first(bytes) else {
            return Ok(None);
        };
        if byte == b'n' {
            return Ok(missing_at(rest));
        }
        match text_at(alloc, scratch, bytes)? {
            Some((text, rest)) => Ok(Some((of_text(text), rest))),
            None => Ok(None),
        }
    }
}

/// Whether a byte ends an item of a list.
fn is_mark(byte: u8) -> bool
    ensures { result ≡ is_mark byte }
{
    byte == b',' || byte == b')'
}

/// The place of the first mark.
fn place_of_mark(bytes: &[u8]) -> Option<usize>
    ensures place { result ≡ position is_mark bytes.now }
    ensures within { IfSome result (λ k. k ≤ length bytes.now) }
{
    bytes.iter().position(|byte| is_mark(*byte))
}

/// How many bytes stand in front of the first mark.
fn piece_size(bytes: &[u8]) -> usize
    ensures size { result ≡ piece_size bytes.now }
    ensures within { result ≤ length bytes.now }
{
    match place_of_mark(bytes) {
        Some(size) => size,
        None => bytes.len(),
    }
}

impl Item for i64 {
    ghost at = { number_at };

    /// A number up to the next mark.
    fn read<'a>(
        _alloc: Global,
        _scratch: &mut Vec<u8>,
        bytes: &'a [u8],
    ) -> Result<Option<(Option<i64>, &'a [u8])>, Memory> {
        let size = piece_size(bytes);
        match number_of(&bytes[..size]) {
            Some(number) => Ok(Some((number, &bytes[size..]))),
            None => Ok(None),
        }
    }
}

/// A truth value.
fn flag_of(piece: &[u8]) -> Option<bool>
    ensures { result ≡ flag_of piece.now }
{
    if is_word(b"true", piece) {
        Some(true)
    } else if is_word(b"false", piece) {
        Some(false)
    } else {
        None
    }
}

impl Item for bool {
    ghost at = { flag_at };

    /// A truth value up to the next mark.
    fn read<'a>(
        _alloc: Global,
        _scratch: &mut Vec<u8>,
        bytes: &'a [u8],
    ) -> Result<Option<(Option<bool>, &'a [u8])>, Memory> {
        let size = piece_size(bytes);
        match flag_of(&bytes[..size]) {
            Some(flag) => Ok(Some((Some(flag), &bytes[size..]))),
            None => Ok(None),
        }
    }
}

impl Item for ByteList {
    ghost at = { bytes_at };

    /// A byte text up to the next mark.
    fn read<'a>(
        alloc: Global,
        _scratch: &mut Vec<u8>,
        bytes: &'a [u8],
    ) -> Result<Option<(Option<ByteList>, &'a [u8])>, Memory> {
        let size = piece_size(bytes);
        match bytes_of(alloc, &bytes[..size])? {
            Some(text) => Ok(Some((Some(text), &bytes[size..]))),
            None => Ok(None),
        }
    }
}

impl Item for UnitList {
    ghost at = { units_at };

    /// A unicode text up to the next mark.
    fn read<'a>(
        alloc: Global,
        _scratch: &mut Vec<u8>,
        bytes: &'a [u8],
    ) -> Result<Option<(Option<UnitList>, &'a [u8])>, Memory> {
        let size = piece_size(bytes);
        match units_of(alloc, &bytes[..size])? {
            Some(text) => Ok(Some((Some(text), &bytes[size..]))),
            None => Ok(None),
        }
    }
}
