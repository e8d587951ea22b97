ghost use Rattle.std.specs.Prelude.{◌≡◌, ◌==◌, ◌<◌, length, position, option_map, IfSome};
ghost use Rattle.std.specs.List.{list_any};
ghost use Rattle.sa_script.specs.Views.{cut_at, strided_of, bound_of, step_of, slice_of, inside_of, span_of, span_behind, view_of};

use crate::name::name_of;
use crate::statement::{Span, ViewTerm};
use sa_lines::number_of;

/// The view that a token spells: a name, and then nothing or what stands in brackets.
pub fn view_of(token: &[u8]) -> Option<ViewTerm<'_>>
    ensures { result ≡ view_of token.now }
{
    let (name, behind) = cut_at(b'[', token);
    let name = name_of(name)?;
    let span = span_behind(behind)?;
    Some(ViewTerm { name, span })
}

/// The bytes before the first mark, and what follows it, if it is there.
pub fn cut_at(mark: u8, bytes: &[u8]) -> (&[u8], Option<&[u8]>)
    ensures before { result.0.now ≡ (cut_at mark bytes.now).0 }
    ensures behind { option_map (λ r. r.now) result.1 ≡ (cut_at mark bytes.now).1 }
    ensures shorter { IfSome result.1 (λ r. length r.now < length bytes.now) }
{
    match place_of(mark, bytes) {
        Some(k) => (&bytes[..k], Some(&bytes[k + 1..])),
        None => (bytes, None),
    }
}

/// The place of the first mark.
fn place_of(mark: u8, bytes: &[u8]) -> Option<usize>
    ensures place { result ≡ position (λ b. b == mark) bytes.now }
    ensures within { IfSome result (λ k. k < length bytes.now) }
{
    bytes.iter().position(|byte| *byte == mark)
}

/// The span behind a name; nothing there means the whole array.
fn span_behind(behind: Option<&[u8]>) -> Option<Span>
    ensures { result ≡ span_behind (option_map (λ r. r.now) behind.entry) }
{
    match behind {
        None => Some(Span::Whole),
        Some(rest) => span_of(inside_of(rest)?),
    }
}

/// What stands in front of a closing bracket at the end.
fn inside_of(bytes: &[u8]) -> Option<&[u8]>
    ensures { option_map (λ r. r.now) result ≡ inside_of bytes.now }
{
    let last = bytes.len().checked_sub(1)?;
    if bytes[last] == b']' {
        Some(&bytes[..last])
    } else {
        None
    }
}

/// What stands between the brackets: a slice where it has a colon.
fn span_of(bytes: &[u8]) -> Option<Span>
    ensures { result ≡ span_of bytes.now }
{
    if has_colon(bytes) {
        slice_of(bytes)
    } else {
        strided_of(bytes)
    }
}

fn has_colon(bytes: &[u8]) -> bool
    ensures { result ≡ list_any (λ b. b == 58) bytes.now }
{
    bytes.iter().any(|byte| *byte == b':')
}

/// Three numbers with a comma between two of them: start, count and step.
fn strided_of(bytes: &[u8]) -> Option<Span>
    ensures { result ≡ strided_of bytes.now }
{
    let (start, rest) = cut_at(b',', bytes);
    let start = number_of(start)?;
    let (count, last) = cut_at(b',', rest?);
    let count = number_of(count)?;
    let step = number_of(last?)?;
    Some(Span::Strided(start, count, step))
}

/// A bound, a colon and a bound, and then nothing or a colon and a step.
fn slice_of(bytes: &[u8]) -> Option<Span>
    ensures { result ≡ slice_of bytes.now }
{
    let (from, rest) = cut_at(b':', bytes);
    let from = bound_of(from)?;
    let (to, step) = cut_at(b':', rest?);
    let to = bound_of(to)?;
    let step = step_of(step)?;
    Some(Span::Slice(from, to, step))
}

/// A bound of a slice: a number, or nothing.
fn bound_of(bytes: &[u8]) -> Option<Option<Option<i64>>>
    ensures { result ≡ bound_of bytes.now }
{
    match bytes {
        [] => Some(None),
        _ => Some(Some(number_of(bytes)?)),
    }
}

/// What follows the second bound: nothing, or a step, which may be left out too.
fn step_of(behind: Option<&[u8]>) -> Option<Option<Option<i64>>>
    ensures { result ≡ step_of (option_map (λ r. r.now) behind.entry) }
{
    match behind {
        None => Some(None),
        Some(bytes) => bound_of(bytes),
    }
}
