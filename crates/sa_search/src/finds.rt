ghost use Rattle.std.specs.Prelude.{◌≡◌, ◌↔◌, length, negsuc, IsNone};
ghost use Rattle.sa_search.specs.Finds.{start_place, end_place, first_place, last_place, find, rfind, index, rindex, starts, ends};

use crate::cuts::{cut_first, cut_last};
use crate::window::window_of;
use memchr::memmem::Finder;
use sa_text::{Text, count_leads};

/// The first place at which `b` occurs in `a` between two places, or -1, as Python's `str.find`. A
/// negative start or end counts from the end.
pub fn find(a: &Text, b: &Text, start: i64, end: i64) -> i64
    ensures { result ≡ find a.now b.now start end }
{
    match first_place(a, b, start, end) {
        Some(place) => i64::from(place),
        None => -1,
    }
}

/// The last place at which `b` occurs in `a` between two places, or -1, as Python's `str.rfind`.
pub fn rfind(a: &Text, b: &Text, start: i64, end: i64) -> i64
    ensures { result ≡ rfind a.now b.now start end }
{
    match last_place(a, b, start, end) {
        Some(place) => i64::from(place),
        None => -1,
    }
}

/// The first place at which `b` occurs in `a` between two places, as Python's `str.index`: none exactly
/// where `find` gives -1.
pub fn index(a: &Text, b: &Text, start: i64, end: i64) -> Option<i64>
    ensures place { result ≡ index a.now b.now start end }
    ensures missing { IsNone result ↔ (find a.now b.now start end ≡ negsuc 0) }
{
    let place = first_place(a, b, start, end)?;
    Some(i64::from(place))
}

/// The last place at which `b` occurs in `a` between two places, as Python's `str.rindex`: none exactly
/// where `rfind` gives -1, and so where `find` does.
pub fn rindex(a: &Text, b: &Text, start: i64, end: i64) -> Option<i64>
    ensures place { result ≡ rindex a.now b.now start end }
    ensures missing { IsNone result ↔ (find a.now b.now start end ≡ negsuc 0) }
{
    let place = last_place(a, b, start, end)?;
    Some(i64::from(place))
}

/// Whether `b` occurs in `a` where the search begins, as Python's `str.startswith`.
pub fn starts(a: &Text, b: &Text, start: i64, end: i64) -> bool
    ensures { result ≡ starts a.now b.now start end }
{
    match window_of(a, start, end) {
        Some(window) => window.bytes.starts_with(b.as_bytes()),
        None => false,
    }
}

/// Whether `b` occurs in `a` so that it ends where the search ends, as Python's `str.endswith`.
pub fn ends(a: &Text, b: &Text, start: i64, end: i64) -> bool
    ensures { result ≡ ends a.now b.now start end }
{
    match window_of(a, start, end) {
        Some(window) => window.bytes.ends_with(b.as_bytes()),
        None => false,
    }
}

/// The first place at which `b` occurs in `a` between two places, if any.
fn first_place(a: &Text, b: &Text, start: i64, end: i64) -> Option<u32>
    ensures { result ≡ first_place a.now b.now (start_place (length a.now) start) (end_place (length a.now) end) }
{
    let window = window_of(a, start, end)?;
    if b.size() == 0 {
        return Some(window.first);
    }
    let (front, _) = cut_first(&Finder::new(b.as_bytes()), window.bytes)?;
    Some(window.first + count_leads(front))
}

/// The last place at which `b` occurs in `a` between two places, if any.
fn last_place(a: &Text, b: &Text, start: i64, end: i64) -> Option<u32>
    ensures { result ≡ last_place a.now b.now (start_place (length a.now) start) (end_place (length a.now) end) }
{
    let window = window_of(a, start, end)?;
    if b.size() == 0 {
        return Some(window.first + count_leads(window.bytes));
    }
    let before = cut_last(b.as_bytes(), window.bytes)?;
    Some(window.first + count_leads(before))
}
