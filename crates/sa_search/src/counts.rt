ghost use Rattle.std.specs.Prelude.{◌≡◌, ◌<◌, ◌≤◌, length, min, IsUtf8, pos};
ghost use Rattle.std.specs.Str.{chars};
ghost use Rattle.sa_search.specs.Counts.{count, count_of};

use crate::cuts::cut_first;
use crate::window::window_of;
use memchr::memmem::Finder;
use sa_text::{Text, count_leads};

/// How often `b` occurs in `a` between two places, as Python's `str.count`: taken from the left, so that
/// no two overlap. The empty text occurs at each place and at the end.
pub fn count(a: &Text, b: &Text, start: i64, end: i64) -> i64
    ensures { result ≡ pos (count a.now b.now start end) }
{
    match window_of(a, start, end) {
        Some(window) if b.size() == 0 => i64::from(count_leads(window.bytes) + 1),
        Some(window) => {
            count_in(&Finder::new(b.as_bytes()), window.bytes, window.bytes.len()) as i64
        }
        None => 0,
    }
}

/// How often a part that is not empty stands in UTF-8, taken from the left, and `most` where that is
/// less: the search ends there.
pub(crate) fn count_in(part: &Finder<'_>, bytes: &[u8], most: usize) -> usize
    requires utf8 { IsUtf8 bytes.now }
    requires part_utf8 { IsUtf8 part.now }
    requires some { 0 < length part.now }
    ensures { result ≡ min most (count_of (chars part.now) 0 (chars bytes.now)) }
{
    let mut count = 0;
    let mut rest = bytes;
    'found: while count < most {
        let Some((_, behind)) = cut_first(part, rest) else {
            break;
        };
        count += 1;
        rest = behind;
    }
    count
}
