ghost use Rattle.std.specs.Prelude.{◌≡◌, ◌≤◌, ◌<◌, ◌*◌, ◌^◌, ◌-◌, ◌++◌, Some, false, length, take, option_map, IfSome, IfOk, OnOk, OnErr, encode_utf8, IsUtf8};
ghost use Rattle.std.specs.Char.{digit_char};
ghost use Rattle.std.specs.Io.{StartsWith};
ghost use Rattle.std.specs.Str.{chars};
ghost use Rattle.sa_runs.specs.Runs.{is_plain};
ghost use Rattle.sa_lines.specs.Quotes.{hex_value, hex_at, scalar_at, escape_at, quoted_at, plain_at, quoted, piece};

use crate::bytes::first;
use sa_base::Memory;
use sa_runs::{cut_run, plain_len};
use std::alloc::AllocError;

/// The value of a lower-case hexadecimal digit.
fn hex_value(byte: u8) -> Option<u32>
    ensures { result ≡ hex_value byte }
{
    match byte {
        b'0'..=b'9' => Some(u32::from(byte) - 48),
        b'a'..=b'f' => Some(u32::from(byte) - 87),
        _ => None,
    }
}

/// Up to `left` more hexadecimal digits behind a number, then a closing brace.
fn hex_at(left: u32, value: u32, bytes: &[u8]) -> Option<(u32, &[u8])>
    requires few { left ≤ 5 }
    requires small { value < 16 ^ (6 - left) }
    ensures reads { option_map (λ x. (x.0, x.1.now)) result ≡ hex_at left value bytes.now }
    ensures shorter { IfSome result (λ x. length x.1.now < length bytes.now) }
{
    let (byte, rest) = first(bytes)?;
    if byte == b'}' {
        return Some((value, rest));
    }
    if left == 0 {
        return None;
    }
    let digit = hex_value(byte)?;
    hex_at(left - 1, value * 16 + digit, rest)
}

/// One to six hexadecimal digits in braces that are a Unicode scalar value.
fn scalar_at(bytes: &[u8]) -> Option<(char, &[u8])>
    ensures reads { option_map (λ x. (encode_utf8 x.0, x.1.now)) result ≡ scalar_at bytes.now }
    ensures shorter { IfSome result (λ x. length x.1.now < length bytes.now) }
{
    let (brace, rest) = first(bytes)?;
    let (byte, rest) = first(rest)?;
    if brace != b'{' {
        return None;
    }
    let digit = hex_value(byte)?;
    let (number, rest) = hex_at(5, digit, rest)?;
    let point = char::from_u32(number)?;
    Some((point, rest))
}

/// What follows a backslash: the code point that it stands for, and the bytes after it.
fn escape_at(bytes: &[u8]) -> Option<(char, &[u8])>
    ensures reads { option_map (λ x. (encode_utf8 x.0, x.1.now)) result ≡ escape_at bytes.now }
    ensures shorter { IfSome result (λ x. length x.1.now < length bytes.now) }
{
    let (byte, rest) = first(bytes)?;
    match byte {
        b'"' => Some(('"', rest)),
        b'\\' => Some(('\\', rest)),
        b'u' => scalar_at(rest),
        _ => None,
    }
}

/// Reads a quoted text at the front. The bytes that its pieces stand for are then in `out`, and the
/// answer is what follows it; none where no quoted text stands there.
pub fn quoted_at<'a>(out: &mut Vec<u8>, bytes: &'a [u8]) -> Result<Option<&'a [u8]>, Memory>
    ensures { IfOk result (λ r. option_map (λ rest. (out.new.items, rest.now)) r ≡ quoted_at bytes.now) }
{
    out.clear();
    let Some((b'"', text)) = first(bytes) else {
        return Ok(None);
    };
    let mut rest = text;
    'pieces: loop {
        let (run, behind) = cut_run(rest);
        push_run(out, run)?;
        let Some((byte, others)) = first(behind) else {
            return Ok(None);
        };
        match byte {
            b'"' => return Ok(Some(others)),
            b'\\' => {
                let Some((point, others)) = escape_at(others) else {
                    return Ok(None);
                };
                push_point(out, point)?;
                rest = others;
            }
            0..32 => return Ok(None),
            _ => {
                out.push(byte)?;
                rest = others;
            }
        }
    }
}

/// Reads a quoted text of plain bytes at the front, with no buffer: the bytes behind its quotation
/// mark, how many of them are the text, and what follows it. None where the text has an escape or a
/// control character, is not closed, or no quotation mark stands there.
#[inline]
pub fn plain_at(bytes: &[u8]) -> Option<(&[u8], usize, &[u8])>
    ensures exact { option_map (λ x. (take x.1 x.0.now, x.2.now)) result ≡ plain_at bytes.now }
    ensures reads { IfSome result (λ x. quoted_at bytes.now ≡ Some (take x.1 x.0.now, x.2.now)) }
    ensures within { IfSome result (λ x. x.1 ≤ length x.0.now) }
{
    let Some((b'"', text)) = first(bytes) else {
        return None;
    };
    let size = plain_len(text);
    let (_, behind) = text.split_at(size);
    match first(behind) {
        Some((b'"', rest)) => Some((text, size, rest)),
        _ => None,
    }
}

/// Puts bytes at the end, mostly none.
#[inline]
fn push_run(out: &mut Vec<u8>, run: &[u8]) -> Result<(), AllocError>
    ensures written { OnOk result (out.new.items ≡ out.old.items ++ run.now) }
    ensures unchanged { OnErr result (out.new.items ≡ out.old.items) }
{
    if run.is_empty() {
        return Ok(());
    }
    out.extend_from_slice(run)
}

/// Puts the UTF-8 of a code point at the end.
fn push_point(out: &mut Vec<u8>, point: char) -> Result<(), AllocError>
    ensures { OnOk result (out.new.items ≡ out.old.items ++ encode_utf8 point) }
{
    let mut buffer = [0u8; 4];
    out.extend_from_slice(point.encode_utf8(&mut buffer).as_bytes())
}

/// Writes a text, given by its UTF-8, in quotation marks at the end. Where there is no memory, what
/// stood there before still stands in front.
pub fn push_quoted(out: &mut Vec<u8>, text: &[u8]) -> Result<(), Memory>
    requires { IsUtf8 text.now }
    ensures written { OnOk result (out.new.items ≡ out.old.items ++ quoted (chars text.now)) }
    ensures begins { StartsWith out.new.items out.old.items }
{
    out.push(b'"')?;
    let mut rest = text;
    'pieces: loop {
        let (run, behind) = cut_run(rest);
        push_run(out, run)?;
        let Some((byte, others)) = first(behind) else {
            break;
        };
        push_mark(out, byte)?;
        rest = others;
    }
    out.push(b'"')?;
    Ok(())
}

/// A lower-case hexadecimal digit.
fn hex_digit(value: u8) -> u8
    requires { value < 16 }
    ensures { result ≡ digit_char value }
{
    if value < 10 {
        b'0' + value
    } else {
        b'a' + (value - 10)
    }
}

/// Writes a byte that is not plain: a quotation mark or backslash behind a backslash, or a control
/// character by its number.
fn push_mark(out: &mut Vec<u8>, byte: u8) -> Result<(), Memory>
    requires { is_plain byte ≡ false }
    ensures written { OnOk result (out.new.items ≡ out.old.items ++ piece byte) }
    ensures unchanged { OnErr result (out.new.items ≡ out.old.items) }
{
    match byte {
        b'"' | b'\\' => out.extend_from_slice(&[b'\\', byte])?,
        127 => out.extend_from_slice(b"\\u{7f}")?,
        0..16 => out.extend_from_slice(&[b'\\', b'u', b'{', hex_digit(byte), b'}'])?,
        _ => out.extend_from_slice(&[b'\\', b'u', b'{', b'1', hex_digit(byte - 16), b'}'])?,
    }
    Ok(())
}
