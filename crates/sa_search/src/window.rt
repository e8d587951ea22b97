ghost use Rattle.std.specs.Prelude.{◌≡◌, ◌≤◌, ◌<◌, length, take, drop, MatchOption, IfSome, IsUtf8};
ghost use Rattle.std.specs.Str.{chars};
ghost use Rattle.sa_text.specs.Texts.{most_bytes};
ghost use Rattle.sa_search.specs.Cuts.{IsWindow};
ghost use Rattle.sa_search.specs.Finds.{start_place, end_place};

use sa_text::{Text, split_points};

/// The part of a text that is searched: the place where it begins, and its UTF-8.
#[derive(Drop)]
pub(crate) struct Window<'a> {
    pub(crate) first: u32,
    pub(crate) bytes: &'a [u8],
}

/// The part of a text between two places, which count from its end where they are negative; none where
/// the first is behind the second, or behind the text's end.
pub(crate) fn window_of(a: &Text, start: i64, end: i64) -> Option<Window<'_>>
    ensures { MatchOption result
        (end_place (length a.now) end < start_place (length a.now) start)
        (λ w. IsWindow a.now (start_place (length a.now) start) (end_place (length a.now) end) w.first w.bytes.now) }
{
    let first = place_of(a, start);
    let last = place_of(a, end);
    if last < first {
        return None;
    }
    let rest = behind(a.as_bytes(), first)?;
    Some(Window {
        first: first as u32,
        bytes: front(rest, last - first),
    })
}

/// A place in a text, which counts from the text's end where it is negative. Code points are counted only
/// then.
#[inline]
fn place_of(a: &Text, at: i64) -> u64
    ensures { result ≡ start_place (length a.now) at }
{
    if at >= 0 {
        return at as u64;
    }
    u64::from(a.count_points()).saturating_sub(at.unsigned_abs())
}

/// UTF-8 from its code point at place `k` on; none where it has fewer.
#[inline]
fn behind(bytes: &[u8], k: u64) -> Option<&[u8]>
    requires utf8 { IsUtf8 bytes.now }
    requires short { length bytes.now ≤ most_bytes }
    ensures points { MatchOption result (length (chars bytes.now) < k) (λ rest. chars rest.now ≡ drop k (chars bytes.now)) }
    ensures utf8 { IfSome result (λ rest. IsUtf8 rest.now) }
    ensures within { IfSome result (λ rest. k ≤ length (chars bytes.now)) }
    ensures most { IfSome result (λ rest. length rest.now ≤ length bytes.now) }
{
    if k > bytes.len() as u64 {
        return None;
    }
    let (_, rest) = split_points(bytes, k as u32)?;
    Some(rest)
}

/// UTF-8 before its code point at place `k`; all of it where it has no more. Where there are no more
/// bytes none is read.
#[inline]
fn front(bytes: &[u8], k: u64) -> &[u8]
    requires utf8 { IsUtf8 bytes.now }
    requires short { length bytes.now ≤ most_bytes }
    ensures points { chars result.now ≡ take k (chars bytes.now) }
    ensures utf8 { IsUtf8 result.now }
    ensures most { length result.now ≤ length bytes.now }
{
    if k >= bytes.len() as u64 {
        return bytes;
    }
    match split_points(bytes, k as u32) {
        Some((front, _)) => front,
        None => bytes,
    }
}
