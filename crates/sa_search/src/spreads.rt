ghost use Rattle.std.specs.Prelude.{◌≡◌, ◌≤◌, ◌+◌, ◌++◌, length, IsUtf8};
ghost use Rattle.std.specs.Str.{chars};
ghost use Rattle.sa_text.specs.Making.{made, GivesText};
ghost use Rattle.sa_text.specs.Texts.{text_size};
ghost use Rattle.sa_search.specs.Replaces.{spread};

use sa_text::{EditError, Text, TextBuilder, split_points};
use std::alloc::Global;

/// The text with `new` at the first `most` of its places: before each code point, and at the end.
pub(crate) fn spread(alloc: Global, a: &Text, new: &Text, most: usize) -> Result<Text, EditError>
    ensures { GivesText result (made (spread new.now most a.now)) }
{
    let times = most.min(a.count_points() as usize + 1);
    let size = times.saturating_mul(new.size()).saturating_add(a.size());
    let mut text = TextBuilder::new(alloc, size)?;
    put_spread(&mut text, a.as_bytes(), new.as_bytes(), times);
    text.finish()
}

/// Puts UTF-8 at the end of a text that is being made, with `new` at the first `times` of its places.
fn put_spread(text: &mut TextBuilder, bytes: &[u8], new: &[u8], times: usize)
    requires utf8 { IsUtf8 bytes.now }
    requires new_utf8 { IsUtf8 new.now }
    requires fits { text_size (spread (chars new.now) times (chars bytes.now)) ≤ text.old.room }
    ensures { text.new.text ≡ text.old.text ++ spread (chars new.now) times (chars bytes.now) }
{
    let mut rest = bytes;
    let mut left = times;
    'places: while left > 0 {
        text.push(new);
        left -= 1;
        let Some((point, behind)) = split_points(rest, 1) else {
            return;
        };
        text.push(point);
        rest = behind;
    }
    text.push(rest);
}
