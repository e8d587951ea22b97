ghost use Rattle.std.specs.Prelude.{◌≡◌};
ghost use Rattle.sa_text.specs.Spaces.{is_space};

/// Whether a code point is one of the 29 spaces: those of Python's `str.isspace`.
#[inline]
pub fn is_space(point: char) -> bool
    ensures { result ≡ is_space point }
{
    matches!(
        point,
        '\u{9}'..='\u{d}'
            | '\u{1c}'..='\u{20}'
            | '\u{85}'
            | '\u{a0}'
            | '\u{1680}'
            | '\u{2000}'..='\u{200a}'
            | '\u{2028}'..='\u{2029}'
            | '\u{202f}'
            | '\u{205f}'
            | '\u{3000}'
    )
}
