ghost use Rattle.std.specs.Prelude.{◌≡◌, ◌<◌, ◌||◌, ℕ, false, get_or, nat_eq, length, Some};
ghost use Rattle.std.specs.Option.{option_copied};
ghost use Rattle.sa_edit.specs.Strips.{TellsAscii};

use sa_text::Text;

/// How many code points ASCII has.
pub(crate) const ASCII: usize = 128;

/// Which ASCII code points are among those of a text: one pass over its bytes, so that a long set is not
/// searched again for each code point of another text.
#[inline]
pub(crate) fn ascii_of(set: Option<&Text>) -> [bool; ASCII]
    ensures { TellsAscii (option_copied set.entry) result }
{
    match set {
        None => [false; ASCII],
        Some(points) => ascii_among(points),
    }
}

/// Which ASCII code points are among those of a text.
fn ascii_among(points: &Text) -> [bool; ASCII]
    ensures { TellsAscii (Some points.now) result }
{
    let bytes = points.as_bytes();
    let mut table = [false; ASCII];
    for byte in bytes {
        mark(&mut table, *byte);
    }
    table
}

/// Marks the place of a byte of ASCII; another byte has no place.
#[inline(always)]
fn mark(table: &mut [bool; ASCII], byte: u8)
    ensures { (point : ℕ) → point < 128 → get_or table.new point false ≡ (get_or table.old point false || nat_eq point byte) }
{
    if (byte as usize) < ASCII {
        table[byte as usize] = true;
    }
}
