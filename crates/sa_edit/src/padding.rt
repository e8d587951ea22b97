ghost use Rattle.std.specs.Prelude.{◌≡◌, ◌+◌, ◌-◌, ◌≤◌, ◌++◌, replicate, length, IsUtf8};
ghost use Rattle.std.specs.Str.{chars};
ghost use Rattle.sa_text.specs.Making.{made, GivesText};
ghost use Rattle.sa_edit.specs.Joins.{at_least_zero};
ghost use Rattle.sa_edit.specs.Justifies.{missing, padded};

use sa_text::{EditError, Text, TextBuilder};
use std::alloc::Global;

/// The number itself, and 0 in place of a negative one.
#[inline]
pub(crate) fn at_least_zero(n: i64) -> usize
    ensures { result ≡ at_least_zero n }
{
    if n < 0 { 0 } else { n as usize }
}

/// How many code points a text lacks of a width.
#[inline]
pub(crate) fn missing(a: &Text, width: i64) -> usize
    ensures { result ≡ missing a.now width }
{
    at_least_zero(width).saturating_sub(a.count_points() as usize)
}

/// The text itself once more, which takes no memory.
#[inline]
pub(crate) fn shared(alloc: Global, a: &Text) -> Result<Text, EditError>
    ensures { GivesText result (made a.now) }
{
    prove!(a.size() <= 65_536);
    match a.copy(alloc) {
        Ok(text) => Ok(text),
        Err(_) => Err(EditError::Memory),
    }
}

/// The text behind `left` of `pad` fills, with the others behind it.
pub(crate) fn pad_text(
    alloc: Global,
    a: &Text,
    fill: char,
    left: usize,
    pad: usize,
) -> Result<Text, EditError>
    requires { left ≤ pad }
    ensures { GivesText result (made (padded a.now fill left (pad - left))) }
{
    if pad == 0 {
        return shared(alloc, a);
    }
    let mut buffer = [0; 4];
    let fill = fill.encode_utf8(&mut buffer).as_bytes();
    let size = pad.saturating_mul(fill.len()).saturating_add(a.size());
    let mut text = TextBuilder::new(alloc, size)?;
    text.repeat(fill, left);
    text.push(a.as_bytes());
    text.repeat(fill, pad - left);
    text.finish()
}

/// UTF-8 in two parts with `pad` zeros between them.
pub(crate) fn put_zeros(
    alloc: Global,
    first: &[u8],
    pad: usize,
    rest: &[u8],
) -> Result<Text, EditError>
    requires first { IsUtf8 first.now }
    requires rest { IsUtf8 rest.now }
    requires short { length first.now + length rest.now ≤ 65536 }
    ensures { GivesText result (made (chars first.now ++ (replicate pad 48 ++ chars rest.now))) }
{
    let size = pad.saturating_add(first.len() + rest.len());
    let mut text = TextBuilder::new(alloc, size)?;
    text.push(first);
    text.repeat(b"0", pad);
    text.push(rest);
    text.finish()
}
