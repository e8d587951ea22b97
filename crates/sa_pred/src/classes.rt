ghost use Rattle.std.specs.Prelude.{◌≡◌};
ghost use Rattle.sa_pred.specs.Classes.{letter_category, number_category, is_letter, is_decimal_number, is_letter_or_number};

use unicode::properties::GeneralCategory;

/// Whether a code point is a letter: its general category is Lu, Ll, Lt, Lm or Lo. One of ASCII is told
/// without the table of categories.
#[inline]
pub(crate) fn is_letter(point: char) -> bool
    ensures { result ≡ is_letter point }
{
    if point.is_ascii() {
        return point.is_ascii_alphabetic();
    }
    is_letter_category(GeneralCategory::for_char(point))
}

/// Whether a code point is a decimal digit: its general category is Nd. One of ASCII is told without the
/// table of categories.
#[inline]
pub(crate) fn is_decimal_number(point: char) -> bool
    ensures { result ≡ is_decimal_number point }
{
    if point.is_ascii() {
        return point.is_ascii_digit();
    }
    GeneralCategory::for_char(point) == GeneralCategory::DecimalNumber
}

/// Whether a code point is a letter or a number: its general category is one of a letter, or Nd, Nl or No.
/// One of ASCII is told without the table of categories.
#[inline]
pub(crate) fn is_letter_or_number(point: char) -> bool
    ensures { result ≡ is_letter_or_number point }
{
    if point.is_ascii() {
        return point.is_ascii_alphanumeric();
    }
    let category = GeneralCategory::for_char(point);
    is_letter_category(category) || is_number_category(category)
}

/// Whether a general category is one of a letter: Lu, Ll, Lt, Lm or Lo.
#[inline]
fn is_letter_category(category: GeneralCategory) -> bool
    ensures { result ≡ letter_category category }
{
    matches!(
        category,
        GeneralCategory::UppercaseLetter
            | GeneralCategory::LowercaseLetter
            | GeneralCategory::TitlecaseLetter
            | GeneralCategory::ModifierLetter
            | GeneralCategory::OtherLetter
    )
}

/// Whether a general category is one of a number: Nd, Nl or No.
#[inline]
fn is_number_category(category: GeneralCategory) -> bool
    ensures { result ≡ number_category category }
{
    matches!(
        category,
        GeneralCategory::DecimalNumber
            | GeneralCategory::LetterNumber
            | GeneralCategory::OtherNumber
    )
}
