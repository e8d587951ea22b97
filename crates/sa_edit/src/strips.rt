ghost use Rattle.std.specs.Prelude.{◌≡◌, ◌-◌, ◌≤◌, length, take, drop, nat_eq, IsUtf8, IfOk};
ghost use Rattle.std.specs.List.{list_any};
ghost use Rattle.std.specs.Option.{option_copied};
ghost use Rattle.std.specs.Str.{chars};
ghost use Rattle.sa_edit.specs.Strips.{is_in, TellsAscii, without_front, without_back, strip, lstrip, rstrip};

use crate::ascii::{ASCII, ascii_of};
use sa_base::Memory;
use sa_text::{Text, first_point, is_space, last_point};
use std::alloc::Global;

/// The text without the longest front and the longest end of code points that are among those of `chars`,
/// or are spaces where it is none, as Python's `str.strip`. It takes no memory; `Memory` means that the
/// text has too many copies to be counted.
pub fn strip(_alloc: Global, a: &Text, chars: Option<&Text>) -> Result<Text, Memory>
    ensures { IfOk result (λ t. t ≡ strip a.now (option_copied chars.entry)) }
{
    let ascii = ascii_of(chars);
    let bytes = a.as_bytes();
    let rest = without_front(bytes, chars, &ascii);
    let kept = without_back(rest, chars, &ascii);
    a.part(bytes.len() - rest.len(), kept.len())
}

/// The text without that front alone, as Python's `str.lstrip`. It takes no memory; `Memory` means that
/// the text has too many copies to be counted.
pub fn lstrip(_alloc: Global, a: &Text, chars: Option<&Text>) -> Result<Text, Memory>
    ensures { IfOk result (λ t. t ≡ lstrip a.now (option_copied chars.entry)) }
{
    let bytes = a.as_bytes();
    let rest = without_front(bytes, chars, &ascii_of(chars));
    a.part(bytes.len() - rest.len(), rest.len())
}

/// The text without that end alone, as Python's `str.rstrip`. It takes no memory; `Memory` means that the
/// text has too many copies to be counted.
pub fn rstrip(_alloc: Global, a: &Text, chars: Option<&Text>) -> Result<Text, Memory>
    ensures { IfOk result (λ t. t ≡ rstrip a.now (option_copied chars.entry)) }
{
    let kept = without_back(a.as_bytes(), chars, &ascii_of(chars));
    a.part(0, kept.len())
}

/// What is left of UTF-8 without its longest front of code points in the set.
fn without_front<'a>(bytes: &'a [u8], set: Option<&Text>, ascii: &[bool; ASCII]) -> &'a [u8]
    requires utf8 { IsUtf8 bytes.now }
    requires ascii { TellsAscii (option_copied set) ascii.now }
    ensures points { chars result.now ≡ without_front (is_in (option_copied set.entry)) (chars bytes.now) }
    ensures utf8 { IsUtf8 result.now }
    ensures most { length result.now ≤ length bytes.now }
    ensures place { result.now ≡ drop (length bytes.now - length result.now) bytes.now }
{
    let mut rest = bytes;
    while let Some((point, behind)) = first_point(rest) {
        if !is_in(point, set, ascii) {
            break;
        }
        rest = behind;
    }
    rest
}

/// What is left of UTF-8 without its longest end of code points in the set.
fn without_back<'a>(bytes: &'a [u8], set: Option<&Text>, ascii: &[bool; ASCII]) -> &'a [u8]
    requires utf8 { IsUtf8 bytes.now }
    requires ascii { TellsAscii (option_copied set) ascii.now }
    ensures points { chars result.now ≡ without_back (is_in (option_copied set.entry)) (chars bytes.now) }
    ensures utf8 { IsUtf8 result.now }
    ensures most { length result.now ≤ length bytes.now }
    ensures place { result.now ≡ take (length result.now) bytes.now }
{
    let mut rest = bytes;
    while let Some((point, before)) = last_point(rest) {
        if !is_in(point, set, ascii) {
            break;
        }
        rest = before;
    }
    rest
}

/// Whether a code point is one of those of a text, or with no text a space.
#[inline]
fn is_in(point: char, set: Option<&Text>, ascii: &[bool; ASCII]) -> bool
    requires { TellsAscii (option_copied set) ascii.now }
    ensures { result ≡ is_in (option_copied set.entry) point }
{
    match set {
        None => is_space(point),
        Some(_) if (point as usize) < ASCII => ascii[point as usize],
        Some(points) => is_among(point, points),
    }
}

/// Whether a code point is one of those of a text.
fn is_among(point: char, points: &Text) -> bool
    ensures { result ≡ list_any (nat_eq point) points.now }
{
    let text = unsafe { str::from_utf8_unchecked(points.as_bytes()) };
    text.chars().any(|other| point == other)
}
