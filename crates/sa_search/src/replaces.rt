ghost use Rattle.std.specs.Prelude.{◌≡◌, ◌<◌, ◌≤◌, ◌+◌, ◌++◌, length, min, IsUtf8};
ghost use Rattle.std.specs.Str.{chars};
ghost use Rattle.sa_text.specs.Making.{made, GivesText};
ghost use Rattle.sa_text.specs.Texts.{text_size};
ghost use Rattle.sa_search.specs.Counts.{count_of};
ghost use Rattle.sa_search.specs.Replaces.{limit, replace, replaced};

use crate::counts::count_in;
use crate::cuts::cut_first;
use crate::spreads::spread;
use memchr::memmem::Finder;
use sa_text::{EditError, Text, TextBuilder};
use std::alloc::Global;

/// The text with `new` in place of the first `count` of the places where `old` occurs, taken from the
/// left, and of all where `count` is negative, as Python's `str.replace`. The empty text occurs before each
/// code point and at the end. `TooLong` where that has more than 65,536 bytes.
pub fn replace(
    alloc: Global,
    a: &Text,
    old: &Text,
    new: &Text,
    count: i64,
) -> Result<Text, EditError>
    ensures { GivesText result (made (replace a.now old.now new.now count)) }
{
    let most = limit(a, count);
    if old.size() == 0 {
        return spread(alloc, a, new, most);
    }
    replace_some(alloc, a, old, new, most)
}

/// How many places are replaced at most: with a negative count more than the text has.
#[inline]
fn limit(a: &Text, count: i64) -> usize
    ensures { min result (length a.now + 1) ≡ min (limit (length a.now) count) (length a.now + 1) }
{
    if count < 0 {
        a.size() + 1
    } else {
        count as usize
    }
}

/// The text with `new` in place of the first `most` of the places where `old` stands, which is not empty.
/// Where there is none it is the text itself, which takes no memory.
fn replace_some(
    alloc: Global,
    a: &Text,
    old: &Text,
    new: &Text,
    most: usize,
) -> Result<Text, EditError>
    requires { 0 < text_size old.now }
    ensures { GivesText result (made (replaced old.now new.now most 0 a.now)) }
{
    let part = Finder::new(old.as_bytes());
    let bytes = a.as_bytes();
    let times = count_in(&part, bytes, most);
    if times == 0 {
        return shared(alloc, a);
    }
    let kept = bytes.len() - times * old.size();
    let size = times.saturating_mul(new.size()).saturating_add(kept);
    let mut text = TextBuilder::new(alloc, size)?;
    put_replaced(&mut text, &part, bytes, new.as_bytes(), times);
    text.finish()
}

/// The text itself once more.
#[inline]
fn shared(alloc: Global, a: &Text) -> Result<Text, EditError>
    ensures { GivesText result (made a.now) }
{
    prove!(a.size() <= 65_536);
    match a.copy(alloc) {
        Ok(text) => Ok(text),
        Err(_) => Err(EditError::Memory),
    }
}

/// Puts UTF-8 at the end of a text that is being made, with `new` in place of a part the first `times`
/// times that it stands there.
fn put_replaced(text: &mut TextBuilder, part: &Finder<'_>, bytes: &[u8], new: &[u8], times: usize)
    requires utf8 { IsUtf8 bytes.now }
    requires part_utf8 { IsUtf8 part.now }
    requires new_utf8 { IsUtf8 new.now }
    requires some { 0 < length part.now }
    requires counted { times ≤ count_of (chars part.now) 0 (chars bytes.now) }
    requires fits { text_size (replaced (chars part.now) (chars new.now) times 0 (chars bytes.now)) ≤ text.old.room }
    ensures { text.new.text ≡ text.old.text ++ replaced (chars part.now) (chars new.now) times 0 (chars bytes.now) }
{
    let mut rest = bytes;
    let mut left = times;
    'places: while left > 0 {
        let Some((first, behind)) = cut_first(part, rest) else {
            unreachable!()
        };
        text.push(first);
        text.push(new);
        rest = behind;
        left -= 1;
    }
    text.push(rest);
}
